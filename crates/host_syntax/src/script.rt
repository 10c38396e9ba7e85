//! What a host script says.

ghost use Rattle.std.specs.Prelude.{◌≡◌, IfOk};

use ivm_text::{Bytes, CloneWhole, Copy, Items, NoMemory, Units, Want};
use std::alloc::{AllocError, Global};

/// The isolates of a script, by number.
pub type IsolateDecls = Items<IsolateDecl>;

/// The declarations and commands of a script, in the order of its lines.
pub type Commands = Items<Command>;

/// A whole host script. A label that a command uses stands as the number of the command that has it.
#[derive(Debug, Drop)]
pub struct HostScript {
    /// The isolates that it makes; their numbers count from 0.
    pub isolates: IsolateDecls,
    /// Its declarations and commands; their numbers count from 0 over both.
    pub commands: Commands,
}

/// An isolate that a script makes (isolated-vm: `new Isolate`).
#[derive(Debug, Drop)]
pub struct IsolateDecl {
    /// ASCII letters, digits and underscores.
    pub name: Units,
    /// How many cells its heap may have.
    pub limit: u32,
}

/// A declaration or a command.
#[derive(Debug, Drop)]
pub struct Command {
    /// The name that its call is known by: ASCII letters, digits and underscores. What is no call has none.
    pub label: Option<Units>,
    /// What it asks for.
    pub what: What,
}

/// A value that a command hands over.
#[derive(Debug, Drop)]
pub enum HostArgument {
    /// A value that stands in the script.
    Literal(Copy),
}

/// What a command asks for.
#[derive(Debug, Drop)]
pub enum What {
    /// A declaration, such as that of an isolate.
    Declare,
    /// A new context of an isolate (isolated-vm: `isolate.createContext`).
    Context {
        isolate: u32,
    },
    /// A text to be built and run in a context, within this many ticks (isolated-vm: `context.eval`).
    Eval {
        context: u32,
        budget: u32,
        want: Want,
        text: Bytes,
    },
    /// A property of what a label holds (isolated-vm: `reference.get`).
    Get {
        target: u32,
        key: Units,
        want: Want,
    },
    /// A value for a property of what a label holds (isolated-vm: `reference.set`).
    Set {
        target: u32,
        key: Units,
        value: HostArgument,
    },
    /// An isolate is to stop (isolated-vm: `isolate.dispose`).
    Dispose {
        isolate: u32,
    },
    /// Goes on once the call of a label, or every call made so far, is settled.
    Wait(Option<u32>),
}

impl CloneWhole for HostArgument {
    fn clone_whole(&self, alloc: Global) -> Result<HostArgument, AllocError> {
        match self {
            HostArgument::Literal(copy) => Ok(HostArgument::Literal(copy.clone_whole(alloc)?)),
        }
    }
}

impl CloneWhole for What {
    fn clone_whole(&self, alloc: Global) -> Result<What, AllocError> {
        match self {
            What::Declare => Ok(What::Declare),
            What::Context { isolate } => Ok(What::Context { isolate: *isolate }),
            What::Eval {
                context,
                budget,
                want,
                text,
            } => Ok(What::Eval {
                context: *context,
                budget: *budget,
                want: *want,
                text: text.clone_whole(alloc)?,
            }),
            What::Get { target, key, want } => Ok(What::Get {
                target: *target,
                key: key.clone_whole(alloc)?,
                want: *want,
            }),
            What::Set { target, key, value } => Ok(What::Set {
                target: *target,
                key: key.clone_whole(alloc)?,
                value: value.clone_whole(alloc)?,
            }),
            What::Dispose { isolate } => Ok(What::Dispose { isolate: *isolate }),
            What::Wait(target) => Ok(What::Wait(*target)),
        }
    }
}

impl CloneWhole for Command {
    fn clone_whole(&self, alloc: Global) -> Result<Command, AllocError> {
        let label = match &self.label {
            Some(label) => Some(label.clone_whole(alloc)?),
            None => None,
        };
        let what = self.what.clone_whole(alloc)?;
        Ok(Command { label, what })
    }
}

impl CloneWhole for IsolateDecl {
    fn clone_whole(&self, alloc: Global) -> Result<IsolateDecl, AllocError> {
        let name = self.name.clone_whole(alloc)?;
        Ok(IsolateDecl {
            name,
            limit: self.limit,
        })
    }
}

impl HostScript {
    /// An equal script in fresh memory. Only want of memory refuses it.
    pub fn clone_whole(&self, alloc: Global) -> Result<HostScript, NoMemory>
        ensures { IfOk result (λ copy. copy ≡ self.now) }
    {
        let isolates = self.isolates.clone_whole(alloc)?;
        let commands = self.commands.clone_whole(alloc)?;
        Ok(HostScript { isolates, commands })
    }
}
