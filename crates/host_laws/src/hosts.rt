//! What a host that drives cells of its own stands on, in whatever order it does so.

ghost use Rattle.std.specs.Prelude.{ℕ};
ghost use Rattle.host_syntax.specs.declared.script.HostScript.{HostScript};
ghost use Rattle.host_syntax.specs.Whole.{IsWhole};
ghost use Rattle.host_meaning.specs.Course.{Worker};
ghost use Rattle.host_laws.specs.Finished.{AsksItsOwn, FinishesLawful, MayReceiveEach, PostsToItsOwn};
ghost use Rattle.host_laws.specs.Stays.{BeginsBeside, HasDoneAtRest, StaysAtOthers, StaysAtPosts, StaysAtReceipts};
ghost use Rattle.host_laws.specs.Stays.{StaysAtStops, StaysAtTasks, StaysAtTurns};

/// The isolate of a task that is posted, and of a stop that is asked for, is one of the script's.
pub fn moves_name_isolates()
    ensures posts { (script : HostScript) → IsWhole script → PostsToItsOwn script }
    ensures asks { (script : HostScript) → IsWhole script → AsksItsOwn script }
{}

/// What a cell's journal sends may be received: the condition of `Host::receive`.
pub fn outs_may_be_received()
    ensures { (script : HostScript) → MayReceiveEach script }
{}

/// Each step of the host, and each step of an isolate, leaves the isolate beside the host's history: nothing of it is
/// received before its cause. At rest it has done all that was posted to it.
pub fn isolates_stay_beside()
    ensures begins { BeginsBeside }
    ensures turns { (i limit : ℕ) (worker : Worker) → StaysAtTurns i limit worker }
    ensures posts { (i limit : ℕ) (worker : Worker) → StaysAtPosts i limit worker }
    ensures tasks { (i limit : ℕ) (worker : Worker) → StaysAtTasks i limit worker }
    ensures stops { (i limit : ℕ) (worker : Worker) → StaysAtStops i limit worker }
    ensures receipts { (i limit : ℕ) (worker : Worker) → StaysAtReceipts i limit worker }
    ensures others { (i limit : ℕ) (worker : Worker) → StaysAtOthers i limit worker }
    ensures rest { (i limit : ℕ) (worker : Worker) → HasDoneAtRest i limit worker }
{}

/// Where the host is finished and each isolate has done all that was posted to it, what is kept is the record of one
/// whole run of the script.
pub fn finished_records_are_lawful()
    ensures { (script : HostScript) → IsWhole script → FinishesLawful script }
{}
