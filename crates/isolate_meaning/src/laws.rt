//! What holds of tasks, entries and journals.

ghost use Rattle.std.specs.Prelude.{◌≡◌, ℕ, List, Option};
ghost use Rattle.task_history.specs.Lists.{outs};
ghost use Rattle.task_history.specs.declared.task.Task.{Task};
ghost use Rattle.task_history.specs.declared.task.TaskKind.TheVariants.{Context};
ghost use Rattle.task_history.specs.declared.record.Entry.{Entry};
ghost use Rattle.isolate_meaning.specs.State.{Isolate, ScriptsAre, fresh};
ghost use Rattle.isolate_meaning.specs.Does.{Does};
ghost use Rattle.isolate_meaning.specs.Replay.{Replay};
ghost use Rattle.isolate_meaning.specs.Limits.{KeepTheirLimits};
ghost use Rattle.isolate_meaning.specs.Laws.{AnswersEachOnce, EndsByDisposal, IsContextReply, IsOneDeed, IsOneEnd, IsRefusedWhereEnded, HasCause, KnownFits, TellsWhatIsThere};

use js_scripts::texts_are_read_once;

/// Each entry of a journal sends one reply, in order, and the reply names the call of the entry's task.
pub fn each_task_is_answered_once()
    ensures { (first last : Isolate) (journal : List Entry) → Replay first journal last → AnswersEachOnce journal }
{}

/// A task ends a live isolate exactly where it passes the limit in cells. One that has ended refuses each task with the
/// cause of its end.
pub fn ended_isolates_refuse()
    ensures { (task : Task) (old new : Isolate) (entry : Entry) → Does task old new entry → IsRefusedWhereEnded task old.state new.state entry }
{}

/// An isolate has ended exactly where its journal holds a disposal.
pub fn disposals_end()
    ensures { (i limit : ℕ) (journal : List Entry) (last : Isolate) → Replay (fresh i limit) journal last → EndsByDisposal journal last.state }
{}

/// Why an isolate has ended stands in its journal: a stop by the host, or a task that passed its limit in cells.
pub fn ends_have_causes()
    ensures { (i limit : ℕ) (journal : List Entry) (last : Isolate) → Replay (fresh i limit) journal last → HasCause journal last.state }
{}

/// No entry of a journal has more cells than its isolate's limit, or more ticks than its task's budget. Where a task ran
/// out of ticks, it took its whole budget. Where it passed the limit, the entry tells by how much. The limit of the store
/// is the isolate's.
pub fn entries_keep_their_limits()
    ensures { (i limit : ℕ) (journal : List Entry) (last : Isolate) → Replay (fresh i limit) journal last → KeepTheirLimits limit journal last }
{}

/// In each isolate that a journal gives, every function is one of its scripts, and every script that it was charged for is
/// there.
pub fn scripts_stay_there()
    ensures { (i limit : ℕ) (journal : List Entry) (last : Isolate) → Replay (fresh i limit) journal last → ScriptsAre last.state }
{}

/// A context that is made is told with the number of the contexts before it and that of its row, unless the isolate has
/// ended or has no cells left for it.
pub fn new_contexts_are_numbered()
    ensures { (task : Task) (old new : Isolate) (entry : Entry) → Does task old new entry → task.kind ≡ Context → IsContextReply old.state entry.outcome }
{}

/// A context that a journal tells is there as long as its isolate lives, and so is its row.
pub fn told_contexts_are_there()
    ensures { (first last : Isolate) (journal : List Entry) → Replay first journal last → TellsWhatIsThere (outs journal) last.state }
{}

/// A sound task that names nothing but what its isolate has told fits the isolate.
pub fn known_tasks_fit()
    ensures { (first last : Isolate) (journal : List Entry) → Replay first journal last → KnownFits journal last.state }
{}

/// A task turns an isolate into one other and leaves one entry.
pub fn tasks_do_one_thing()
    ensures { (task : Task) (old new : Isolate) (entry : Entry) → Does task old new entry → IsOneDeed task old new entry }
{
    texts_are_read_once();
}

/// A journal that is carried out again has one end.
pub fn journals_have_one_end()
    ensures { (first last : Isolate) (journal : List Entry) → Replay first journal last → IsOneEnd first journal last }
{
    texts_are_read_once();
}
