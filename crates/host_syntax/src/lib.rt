//! Host scripts as what they say: declarations and commands, in the order of the lines.
//!
//! Contracts see a `HostScript` as its declarations and its commands, which name one another by number.
//! Rely on: plain values; `specs/Whole.antt` says what holds of every script that was read from bytes.
//! Over `ivm_text`; under `host_script`, which reads them, and `host_meaning`, which says what they mean.
//! Begin with `src/script.rt`, then `specs/Whole.antt`.
#![tactic(auto)]

mod script;

pub use script::{Command, Commands, HostArgument, HostScript, IsolateDecl, IsolateDecls, What};
