//! The host: a script, how far it was done, and what was noted of its isolates.
ghost use Rattle.std.specs.Prelude.{◌≡◌, ◌<◌, [], ◌∷◌, ◌++◌, length, None, Some, IfOk, OnOk, OnErr};
ghost use Rattle.host_syntax.specs.Whole.{IsWhole};
ghost use Rattle.host_meaning.specs.Stand.{beginning, held_at, is_label_settled};
ghost use Rattle.host_meaning.specs.Machine.{MayReceive, asking, drawing, hearing, is_blocked, is_finished, passing, posting, received, refusing, request, task_of, turn};
ghost use Rattle.host_machine.specs.Asked.{AsksWithin, is_stop, isolate_asked, task_asked};
ghost use Rattle.host_machine.specs.Next.{IsWithinNext, by_what, done};
ghost use Rattle.host_machine.specs.Ledger.{IsWithin};
ghost use Rattle.host_machine.specs.Replied.{answer_in, replied};
ghost use Rattle.host_machine.specs.Tally.{isolate_in};

use crate::calls::Calls;
use crate::command::{argument_of, context_in, held_by, isolate_of, row_in};
use crate::last::drop_last;
use crate::ledger::Ledger;
use host_meaning::{Held, Move, Posting};
use host_syntax::{HostScript, What};
use ivm_text::{CloneWhole, Items, NoMemory};
use std::alloc::{AllocError, Global};
use std::marker::Model;
use task_history::{Act, Event, History, Out, Own, Settlement, Shared, Task, TaskKind};

/// After so many numbers a call draws none.
const MOST_CALLS: u32 = 100_000;

/// The ticks that a task may take where the script says nothing.
const DEFAULT_BUDGET: u32 = 1_000_000;

/// What the next command comes to.
#[derive(Drop)]
enum Next {
    /// No command is left, or it waits.
    Blocked,
    /// It draws no number.
    Pass,
    /// The host refuses its call.
    Refuse,
    /// Its task is to be posted.
    Post { isolate: u32, task: Task },
    /// The isolate is to stop.
    Ask { isolate: u32 },
    /// The context or the row that its call names isn't there.
    NoTarget,
}

/// The host machine: where it stands in its script, and what it has noted.
#[derive(Drop)]
pub struct Host {
    script: HostScript,
    numbers: Items<Option<u32>>,
    calls: Calls,
    stops: Items<u32>,
    ledger: Ledger,
    alloc: Global,
}

impl Model for Host {
    ghost use Rattle.host_meaning.specs.Stand.{Stand};
    ghost use Rattle.host_machine.specs.Kept.{IsKept};

    ghost Value = { Stand };

    ghost view = { λ h. record { script = h.script; numbers = h.numbers; calls = h.calls; stops = h.stops; history = h.ledger.events } };

    ghost invariant = { λ h. IsKept h.script h.ledger.isolates };
}

impl Host {
    /// The host before the first command. It is refused for want of memory alone.
    pub fn new(alloc: Global, script: HostScript) -> Result<Host, NoMemory>
        requires { IsWhole script }
        ensures { IfOk result (λ host. host ≡ beginning script) }
    {
        let ledger = Ledger::new(alloc, script.isolates.len())?;
        Ok(Host {
            script,
            numbers: Items::new(alloc),
            calls: Calls::new(alloc),
            stops: Items::new(alloc),
            ledger,
            alloc,
        })
    }

    /// The script. It is whole.
    pub fn script(&self) -> &HostScript
        ensures value { result.now ≡ self.now.script }
        ensures whole { IsWhole result.now }
    {
        &self.script
    }

    /// Nothing is left to be done or to be told: no command, no open call, no task without its reply, no stop
    /// without its end. It takes no memory.
    pub fn finished(&self) -> bool
        ensures { result ≡ is_finished self.now }
    {
        self.numbers.len() == self.script.commands.len()
            && self.calls.are_settled()
            && self.ledger.have_answered()
    }

    /// The script, and the events, the first first.
    pub fn into_parts(self) -> (HostScript, History)
        ensures script { result.0 ≡ self.script }
        ensures history { result.1 ≡ self.history }
    {
        let Host { script, ledger, .. } = self;
        (script, ledger.into_events())
    }

    // ---- the next command

    /// Does the next command and tells what is to be done for it: a task to be handed to its isolate, an
    /// isolate to be stopped, or nothing; `Blocked` where no command is left or the next one waits. Beside isolates
    /// that do what was posted to them it is never `NoTarget`: `host_laws::calls_have_targets`.
    /// It is refused for want of memory alone, and then leaves all as it was.
    pub fn step(&mut self) -> Result<Move, NoMemory>
        ensures ok { IfOk result (λ step. (step, self.new) ≡ turn self.old) }
        ensures err { OnErr result (self.new ≡ self.old) }
    {
        match self.next()? {
            Next::Blocked => Ok(Move::Blocked),
            Next::Pass => self.pass(),
            Next::Refuse => self.refuse(),
            Next::Post { isolate, task } => self.post(isolate, task),
            Next::Ask { isolate } => self.ask(isolate),
            Next::NoTarget => Ok(Move::NoTarget),
        }
    }

    fn next(&self) -> Result<Next, AllocError>
        ensures value { IfOk result (λ next. done self.now next ≡ turn self.now) }
        ensures within { IfOk result (IsWithinNext (length self.now.script.isolates)) }
    {
        match self.script.commands.get(self.numbers.len()) {
            Some(command) => self.next_of(&command.what),
            None => Ok(Next::Blocked),
        }
    }

    fn next_of(&self, what: &What) -> Result<Next, AllocError>
        requires { AsksWithin (length self.now.script.isolates) (request self.now what.now) }
        ensures value { IfOk result (λ next. done self.now next ≡ by_what self.now what.now) }
        ensures within { IfOk result (IsWithinNext (length self.now.script.isolates)) }
    {
        if self.is_blocked(what) {
            return Ok(Next::Blocked);
        }
        let Some(isolate) = self.isolate_asked(what) else {
            return Ok(Next::Pass);
        };
        let drawn = self.calls.len();
        let are_used_up = drawn >= MOST_CALLS;
        if are_used_up {
            return Ok(Next::Pass);
        }
        if self.ledger.is_gone(isolate) {
            return Ok(Next::Refuse);
        }
        if self.is_stop(what) {
            return Ok(Next::Ask { isolate });
        }
        match self.task_asked(what)? {
            Some(task) => Ok(Next::Post { isolate, task }),
            None => Ok(Next::NoTarget),
        }
    }

    fn is_blocked(&self, what: &What) -> bool
        ensures { result ≡ is_blocked self.now what.now }
    {
        match what {
            What::Declare | What::Context { .. } | What::Dispose { .. } => false,
            What::Eval { context, .. } => !self.is_label_settled(*context),
            What::Get { target, .. } | What::Set { target, .. } => !self.is_label_settled(*target),
            What::Wait(None) => !self.calls.are_settled(),
            What::Wait(Some(target)) => !self.is_label_settled(*target),
        }
    }

    /// The call of a command is settled; one that drew no number was refused for that.
    #[tactic(auto, using(crate::proofs::CallsLemmas::absent))]
    fn is_label_settled(&self, command: u32) -> bool
        ensures { result ≡ is_label_settled self.now command }
    {
        match self.numbers.get(command) {
            Some(Some(number)) => self.calls.held(*number).is_some(),
            Some(None) | None => true,
        }
    }

    /// What the settlement of a command's call holds.
    #[tactic(auto, using(crate::proofs::CallsLemmas::absent))]
    fn held_at(&self, command: u32) -> Option<Held>
        ensures { result ≡ held_at self.now command }
    {
        match self.numbers.get(command) {
            Some(Some(number)) => self.calls.held(*number),
            Some(None) | None => None,
        }
    }

    /// The isolate of which a call asks something; what is no call has none.
    fn isolate_asked(&self, what: &What) -> Option<u32>
        ensures { result ≡ isolate_asked (request self.now what.now) }
    {
        match what {
            What::Declare | What::Wait(_) => None,
            What::Context { isolate } | What::Dispose { isolate } => Some(*isolate),
            What::Eval { context, .. } => isolate_of(&self.script, *context),
            What::Get { target, .. } | What::Set { target, .. } => {
                isolate_of(&self.script, *target)
            }
        }
    }

    /// An isolate is asked to stop.
    fn is_stop(&self, what: &What) -> bool
        ensures { result ≡ is_stop (request self.now what.now) }
    {
        match what {
            What::Dispose { .. } => true,
            What::Declare
            | What::Context { .. }
            | What::Eval { .. }
            | What::Get { .. }
            | What::Set { .. }
            | What::Wait(_) => false,
        }
    }

    /// The task that a call asks for; one that asks for a stop has none, nor one whose context or row isn't there.
    fn task_asked(&self, what: &What) -> Result<Option<Task>, AllocError>
        ensures { IfOk result (λ task. task ≡ task_asked self.now (request self.now what.now)) }
    {
        match what {
            What::Declare | What::Dispose { .. } | What::Wait(_) => Ok(None),
            What::Context { .. } => Ok(Some(self.task(DEFAULT_BUDGET, TaskKind::Context))),
            What::Eval {
                context,
                budget,
                want,
                text,
            } => {
                let Some(context) = context_in(self.held_at(*context)) else {
                    return Ok(None);
                };
                let kind = TaskKind::Eval {
                    context,
                    text: Shared::new(self.alloc, text.clone_whole(self.alloc)?)?,
                    want: *want,
                };
                Ok(Some(self.task(*budget, kind)))
            }
            What::Get { target, key, want } => {
                let Some(row) = row_in(self.held_at(*target)) else {
                    return Ok(None);
                };
                let act = Act::Get(key.clone_whole(self.alloc)?, *want);
                Ok(Some(self.act_on(row, act)))
            }
            What::Set { target, key, value } => {
                let Some(row) = row_in(self.held_at(*target)) else {
                    return Ok(None);
                };
                let key = key.clone_whole(self.alloc)?;
                let act = Act::Set(key, argument_of(value, self.alloc)?);
                Ok(Some(self.act_on(row, act)))
            }
        }
    }

    /// A task of the call that draws the next number.
    fn task(&self, budget: u32, kind: TaskKind) -> Task
        ensures { result ≡ task_of self.now budget kind }
    {
        Task {
            call: Some(self.calls.len()),
            budget,
            kind,
        }
    }

    fn act_on(&self, row: u32, act: Act) -> Task
        ensures { result ≡ task_of self.now 1000000 (TaskKind.Act row act) }
    {
        self.task(DEFAULT_BUDGET, TaskKind::Act { row, act })
    }

    // ---- one command done

    /// The command draws no number, and nothing is told.
    fn pass(&mut self) -> Result<Move, NoMemory>
        ensures ok { IfOk result (λ step. (step ≡ Move.Own) × (self.new ≡ passing self.old)) }
        ensures err { OnErr result (self.new ≡ self.old) }
    {
        self.numbers.push(None)?;
        Ok(Move::Own)
    }

    /// The host refuses the call.
    fn refuse(&mut self) -> Result<Move, NoMemory>
        ensures ok { IfOk result (λ step. (step ≡ Move.Own) × (self.new ≡ refusing self.old)) }
        ensures err { OnErr result (self.new ≡ self.old) }
    {
        let refusal = Event::Settle {
            call: self.calls.len(),
            how: Settlement::Own(Own::Disposed),
        };
        self.draw(Some(Held::Nothing), refusal)?;
        Ok(Move::Own)
    }

    /// The task is noted, and handed on.
    fn post(&mut self, isolate: u32, task: Task) -> Result<Move, NoMemory>
        requires { isolate < length self.old.script.isolates }
        ensures ok { IfOk result (λ step. (step ≡ Move.Post isolate task) × (self.new ≡ posting self.old isolate task)) }
        ensures err { OnErr result (self.new ≡ self.old) }
    {
        self.note_post(isolate, &task)?;
        Ok(Move::Post { isolate, task })
    }

    fn note_post(&mut self, isolate: u32, task: &Task) -> Result<(), AllocError>
        requires { isolate < length self.old.script.isolates }
        ensures ok { OnOk result (self.new ≡ posting self.old isolate task.now) }
        ensures err { OnErr result (self.new ≡ self.old) }
    {
        let task = task.clone_whole(self.alloc)?;
        self.draw(None, Event::Post { isolate, task })
    }

    /// The isolate is asked to stop, which settles the call.
    fn ask(&mut self, isolate: u32) -> Result<Move, NoMemory>
        requires { isolate < length self.old.script.isolates }
        ensures ok { IfOk result (λ step. (step ≡ Move.Ask isolate) × (self.new ≡ asking self.old isolate)) }
        ensures err { OnErr result (self.new ≡ self.old) }
    {
        self.stops.push(self.calls.len())?;
        if self
            .draw(Some(Held::Nothing), Event::Ask { isolate })
            .is_err()
        {
            drop_last(&mut self.stops);
            return Err(NoMemory);
        }
        Ok(Move::Ask { isolate })
    }

    /// Draws the next number, with one event. Refused for want of memory, it leaves all as it was.
    fn draw(&mut self, settled: Option<Held>, event: Event) -> Result<(), AllocError>
        requires { IsWithin (length self.old.script.isolates) (isolate_in event) }
        ensures ok { OnOk result (self.new ≡ drawing self.old settled [] event) }
        ensures err { OnErr result (self.new ≡ self.old) }
    {
        draw_number(&mut self.numbers, &mut self.calls, settled)?;
        if self.ledger.add(event).is_err() {
            drop_last(&mut self.numbers);
            self.calls.take_back();
            return Err(AllocError);
        }
        Ok(())
    }

    // ---- one out received

    /// Receives an out of an isolate. A reply to an open call settles it. No out that an isolate sends yet has a
    /// task follow from it, so the answer is `None`.
    /// It is refused for want of memory alone, and then leaves all as it was.
    pub fn receive(&mut self, isolate: u32, out: Out) -> Result<Option<Posting>, NoMemory>
        requires { MayReceive self.old.script isolate out }
        ensures ok { OnOk result (self.new ≡ received self.old isolate out) }
        ensures err { OnErr result (self.new ≡ self.old) }
        ensures follows { IfOk result (λ posting. posting ≡ None) }
    {
        match answer_in(&out) {
            Some((call, held)) => self.receive_reply(isolate, out, call, held)?,
            None => self.hear(isolate, out)?,
        }
        Ok(None)
    }

    /// Receives the reply to a call, and settles that where it is open.
    fn receive_reply(
        &mut self,
        isolate: u32,
        out: Out,
        call: u32,
        held: Held,
    ) -> Result<(), AllocError>
        requires { isolate < length self.old.script.isolates }
        ensures ok { OnOk result (self.new ≡ replied self.old isolate out call held) }
        ensures err { OnErr result (self.new ≡ self.old) }
    {
        if !self.calls.is_open(call) {
            return self.hear(isolate, out);
        }
        self.ledger.add_settled(isolate, out, call)?;
        self.calls.settle(call, held);
        Ok(())
    }

    /// Notes the receipt alone.
    fn hear(&mut self, isolate: u32, out: Out) -> Result<(), AllocError>
        requires { isolate < length self.old.script.isolates }
        ensures ok { OnOk result (self.new ≡ hearing self.old isolate out) }
        ensures err { OnErr result (self.new ≡ self.old) }
    {
        self.ledger.add(Event::Recv { isolate, out })
    }
}

/// The call that an out answers, with what the settlement by its outcome holds.
fn answer_in(out: &Out) -> Option<(u32, Held)>
    ensures { result ≡ answer_in out.now }
{
    match out {
        Out::Reply {
            call: Some(call),
            outcome,
        } => Some((*call, held_by(outcome))),
        Out::Reply { call: None, .. } | Out::Call { .. } | Out::Log { .. } | Out::AskTable { .. } =>
            None,
    }
}

/// Draws the next number for the next command, or changes nothing.
fn draw_number(
    numbers: &mut Items<Option<u32>>,
    calls: &mut Calls,
    settled: Option<Held>,
) -> Result<(), AllocError>
    ensures numbers { OnOk result (numbers.new ≡ numbers.old ++ Some (length calls.old) ∷ []) }
    ensures calls { OnOk result (calls.new ≡ calls.old ++ settled ∷ []) }
    ensures err { OnErr result ((numbers.new ≡ numbers.old) × (calls.new ≡ calls.old)) }
{
    numbers.push(Some(calls.len()))?;
    if calls.draw(settled).is_err() {
        drop_last(numbers);
        return Err(AllocError);
    }
    Ok(())
}
