//! What holds of every run of the host machine.

ghost use Rattle.host_laws.specs.Known.{AreServed, PostsKnown};
ghost use Rattle.host_laws.specs.Targets.{CallsHaveIsolates, CallsHaveTargets, MovesHaveTargets};
ghost use Rattle.host_laws.specs.Settled.{AccountsForEach, AllAreSettled, PostsDrawn, PostsOnce, SettlesByReplies, SettlesOnce, WaitsForNothing};
ghost use Rattle.host_meaning.specs.Machine.{HostRun};
ghost use Rattle.host_meaning.specs.Stand.{Stand};
ghost use Rattle.host_syntax.specs.Whole.{IsWhole};
ghost use Rattle.host_syntax.specs.declared.script.HostScript.{HostScript};

/// No call is settled twice, and none before its number is drawn: a number that is settled was settled once.
pub fn each_call_is_settled_once()
    ensures { (script : HostScript) (stand : Stand) → HostRun script stand → SettlesOnce stand }
{}

/// A call that drew a number is settled, or its task was posted to an isolate.
pub fn calls_are_settled_or_posted()
    ensures { (script : HostScript) (stand : Stand) → HostRun script stand → AccountsForEach stand }
{}

/// A task that was posted bears a number that was drawn, and no two tasks bear the same.
pub fn numbers_are_posted_once()
    ensures drawn { (script : HostScript) (stand : Stand) → HostRun script stand → PostsDrawn stand }
    ensures once { (script : HostScript) (stand : Stand) → HostRun script stand → PostsOnce stand }
{}

/// A call that an entry settled was answered by that entry's reply.
pub fn settlements_are_replied()
    ensures { (script : HostScript) (stand : Stand) → HostRun script stand → SettlesByReplies stand.history }
{}

/// The host waits for nothing but calls: where every call is settled, it is `Blocked` only after its last command.
pub fn the_host_waits_for_calls_alone()
    ensures { (script : HostScript) (stand : Stand) → HostRun script stand → AllAreSettled stand → WaitsForNothing stand }
{}

/// Beside isolates that do what was posted to them and tell what came of it, in order, every task that is
/// posted is sound and names nothing but contexts that its own isolate has told.
pub fn posted_tasks_are_known()
    ensures { (script : HostScript) (stand : Stand) → IsWhole script → HostRun script stand → AreServed script stand.history → PostsKnown stand }
{}

/// Each call of a script has an isolate, one of the script's. Beside isolates that do what was posted to them, the
/// context or the row that the next call names is there too, unless its isolate is gone: no move lacks its target.
pub fn calls_have_targets()
    ensures isolates { (script : HostScript) → IsWhole script → CallsHaveIsolates script }
    ensures names { (script : HostScript) → IsWhole script → CallsHaveTargets script }
    ensures moves { (script : HostScript) → IsWhole script → MovesHaveTargets script }
{}
