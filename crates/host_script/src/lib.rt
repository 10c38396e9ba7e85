//! Host scripts: the text by which a user says which isolates there are, and what is to be run in them.
//!
//! Contracts see a `HostScript` as its declarations and commands, in the order of the lines.
//! Rely on: the answer is the one that the bytes have by `specs/HostText.antt`; only the want of memory is free.
//! Over `host_syntax`, `ivm_text` and `indexmap`; under `ivm_cli`.
//! Begin with `specs/HostText.antt`, then `src/read.rt`.
#![tactic(auto)]

mod commands;
mod draft;
mod fault;
mod lines;
mod literal;
mod long_text;
mod names;
mod options;
mod read;
mod text;
mod words;

pub use fault::{HostFault, HostKind};
pub use host_syntax::{
    Command, Commands, HostArgument, HostScript, IsolateDecl, IsolateDecls, What,
};
pub use read::read_host;
