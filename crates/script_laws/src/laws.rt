//! What holds of the heap of every evaluation.
ghost use Rattle.std.specs.Prelude.{ℕ, List};
ghost use Rattle.charged_heap.specs.declared.values.Value.{Value};
ghost use Rattle.script_meaning.specs.Evaluates.{call_run, script_run};
ghost use Rattle.script_meaning.specs.Outcome.{State};
ghost use Rattle.script_meaning.specs.Places.{ScriptList};
ghost use Rattle.script_laws.specs.Scripts.{ScriptsAreThere};

/// In the heap that the run of a script leaves, or that of a function that is called, each function is one of the
/// isolate's scripts, and each compiled script is one of them, where that was so before.
pub fn scripts_are_there()
    ensures script { (scripts : ScriptList) (script root names global : ℕ) (s : State) → ScriptsAreThere scripts s.heap → ScriptsAreThere scripts (script_run scripts script root names global s).1.heap }
    ensures call { (scripts : ScriptList) (function receiver : Value) (arguments : List Value) (s : State) → ScriptsAreThere scripts s.heap → ScriptsAreThere scripts (call_run scripts function receiver arguments s).1.heap }
{}
