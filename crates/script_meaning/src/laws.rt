//! What holds of every evaluation.
ghost use Rattle.std.specs.Prelude.{◌≡◌, ℕ, List, Option};
ghost use Rattle.charged_heap.specs.declared.values.Value.{Value};
ghost use Rattle.script_meaning.specs.Evaluates.{call_run, evaluated, script_run};
ghost use Rattle.script_meaning.specs.Limits.{RunsWithin};
ghost use Rattle.script_meaning.specs.Loops.{Loop, loop_rule, round};
ghost use Rattle.script_meaning.specs.Outcome.{Inside, State};
ghost use Rattle.script_meaning.specs.Places.{ScriptList};
ghost use Rattle.script_meaning.specs.Ticks.{TakesTicks};
ghost use Rattle.script_meaning.specs.declared.site.Site.{Site};

/// Each node that is evaluated takes a tick, whatever its form is; or none is left, and the run stops there with
/// nothing changed.
pub fn nodes_take_ticks()
    ensures { (scripts : ScriptList) (room : ℕ) → TakesTicks (evaluated scripts room) }
{}

/// The run of a script, and of a function that is called, stays within the limit in cells of its heap and takes no tick
/// back. Where it is stopped, no tick is left, or the next charge would have passed the limit and is told.
pub fn runs_keep_limits()
    ensures script { (scripts : ScriptList) (script root names global : ℕ) (s : State) → RunsWithin s (script_run scripts script root names global s) }
    ensures call { (scripts : ScriptList) (function receiver : Value) (arguments : List Value) (s : State) → RunsWithin s (call_run scripts function receiver arguments s) }
{}

/// A loop is one round and behind it the loop, where each node inside takes a tick.
pub fn loops_go_on()
    ensures { (at : Inside) (loop : Loop) (last : Option Value) (site : Site) (s : State) → TakesTicks at → loop_rule at loop last site s ≡ round at loop last site s (λ last site s. loop_rule at loop last site s) }
{}
