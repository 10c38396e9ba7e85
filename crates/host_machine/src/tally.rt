//! What the events show of one isolate.
ghost use Rattle.std.specs.Prelude.{◌≡◌, ◌+◌, ◌<◌, ◌^◌, ◌||◌, ◌&&◌, not, nat_le};
ghost use Rattle.task_history.specs.Lists.{is_disposal};
ghost use Rattle.host_machine.specs.Tally.{no_tally, isolate_in, heard, noted};

use task_history::{Event, Out, Outcome};

/// What the events show of one isolate.
#[derive(Debug, Clone, Copy, PartialEq, Eq)]
pub struct Tally {
    /// The tasks that were posted to it.
    pub posts: u64,
    /// The replies that were received from it.
    pub replies: u64,
    /// It was asked to stop.
    pub asked: bool,
    /// A reply told that it has ended.
    pub ended: bool,
}

impl Tally {
    /// The tally without any event.
    pub fn none() -> Tally
        ensures { result ≡ no_tally }
    {
        Tally {
            posts: 0,
            replies: 0,
            asked: false,
            ended: false,
        }
    }

    /// No task is posted to it any more.
    pub fn is_gone(self) -> bool
        ensures { result ≡ (self.asked || self.ended) }
    {
        self.asked || self.ended
    }

    /// Each task has its reply, and a stop its end.
    pub fn has_answered(self) -> bool
        ensures { result ≡ (nat_le self.posts self.replies && (not self.asked || self.ended)) }
    {
        self.posts <= self.replies && (!self.asked || self.ended)
    }

    /// With one more event of the isolate.
    pub fn noting(self, event: &Event) -> Tally
        requires posts { self.posts + 1 < 2 ^ 64 }
        requires replies { self.replies + 1 < 2 ^ 64 }
        ensures { result ≡ noted event.now self }
    {
        match event {
            Event::Post { .. } => Tally {
                posts: self.posts + 1,
                ..self
            },
            Event::Recv { out, .. } => self.hearing(out),
            Event::Ask { .. } => Tally {
                asked: true,
                ..self
            },
            Event::Release { .. } | Event::Settle { .. } => self,
        }
    }

    fn hearing(self, out: &Out) -> Tally
        requires { self.replies + 1 < 2 ^ 64 }
        ensures { result ≡ heard out.now self }
    {
        match out {
            Out::Reply { outcome, .. } => Tally {
                replies: self.replies + 1,
                ended: self.ended || is_disposal(outcome),
                ..self
            },
            Out::Call { .. } | Out::Log { .. } | Out::AskTable { .. } => self,
        }
    }
}

fn is_disposal(outcome: &Outcome) -> bool
    ensures { result ≡ is_disposal outcome.now }
{
    matches!(outcome, Outcome::MemoryLimit(_) | Outcome::Disposed(_))
}

/// The isolate that an event is of.
pub fn isolate_in(event: &Event) -> Option<u32>
    ensures { result ≡ isolate_in event.now }
{
    match event {
        Event::Post { isolate, .. } | Event::Recv { isolate, .. } | Event::Ask { isolate } => {
            Some(*isolate)
        }
        Event::Release { .. } | Event::Settle { .. } => None,
    }
}
