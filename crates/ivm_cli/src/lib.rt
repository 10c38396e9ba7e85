//! The top call: words, a source and a sink in; a status, a report and the record of the run out.
//!
//! Contracts see the words as bytes, the source and the sink by what they tell, and the record as it is.
//! Rely on: what was written is exactly what the words, the bytes read and the record ask for (`specs/Run.antt`).
//! Over `ivm_io`, `host_script`, `host_runs` and `ivm_report`; under the program `ivm`.
//! Begin with `specs/Run.antt`, then `src/call.rt`.
#![tactic(auto)]

mod call;
mod status;
mod texts;
mod words;

pub use call::ivm;
pub use status::Status;
