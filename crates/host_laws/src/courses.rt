//! What holds of the host beside its isolates.

ghost use Rattle.std.specs.Prelude.{◌≡◌, List};
ghost use Rattle.task_history.specs.declared.record.Record.{Record};
ghost use Rattle.isolate_meaning.specs.Replay.{Kept};
ghost use Rattle.host_syntax.specs.declared.script.HostScript.{HostScript};
ghost use Rattle.host_syntax.specs.Whole.{IsWhole};
ghost use Rattle.host_meaning.specs.declared.moves.Move.TheVariants.{Blocked};
ghost use Rattle.host_meaning.specs.Stand.{Stand};
ghost use Rattle.host_meaning.specs.Machine.{turn};
ghost use Rattle.host_meaning.specs.Course.{Scene, Course, IsAtRest, record_of};
ghost use Rattle.host_meaning.specs.OneThread.{OneThread};
ghost use Rattle.host_meaning.specs.Lawful.{IsLawful};
ghost use Rattle.host_laws.specs.Courses.{AreBeside, NextTasksFit};
ghost use Rattle.host_laws.specs.Driving.{CellsAre, record_with};
ghost use Rattle.host_laws.specs.Targets.{CoursesHaveTargets};

/// Whatever the order of posting, carrying out and receiving: each isolate's journal gives it again,
/// and the host's history has what was posted to it and received from it, nothing of it before its cause.
pub fn isolates_stand_beside_the_host()
    ensures { (script : HostScript) (scene : Scene) → IsWhole script → Course script scene → AreBeside script scene }
{}

/// The task that an isolate is to carry out next fits it, at any time.
pub fn waiting_tasks_fit()
    ensures { (script : HostScript) (scene : Scene) → IsWhole script → Course script scene → NextTasksFit scene }
{}

/// The host's next move has its target, at any time.
pub fn courses_have_targets()
    ensures { (script : HostScript) → IsWhole script → CoursesHaveTargets script }
{}

/// Where the host and its isolates have come to rest, what is kept is the record of one whole run of the script.
pub fn courses_end_lawful()
    ensures { (script : HostScript) (scene : Scene) → IsWhole script → Course script scene → IsAtRest scene → IsLawful script (record_of scene) }
{}

/// The run on one thread is one such order, and is at rest where the host can't go on.
pub fn one_thread_is_one_order()
    ensures course { (script : HostScript) (scene : Scene) → OneThread script scene → Course script scene }
    ensures rest { (script : HostScript) (scene : Scene) → OneThread script scene → (turn scene.stand).0 ≡ Blocked → IsAtRest scene }
{}

/// So what a host keeps that ran its cells on one thread until it couldn't go on is lawful.
pub fn cells_end_lawful()
    ensures { (script : HostScript) (stand : Stand) (cells : List Kept) → IsWhole script → CellsAre script stand cells → (turn stand).0 ≡ Blocked → IsLawful script (record_with stand cells) }
{}
