//! Why a call of the heap, or one that throws, gives no answer.
ghost use Rattle.std.specs.Prelude.{◌≡◌};
ghost use Rattle.charged_heap.specs.declared.fault.HeapFault.TheVariants as heap_fault;
ghost use Rattle.charged_heap.specs.declared.fault.Fail.TheVariants as fail_kind;
ghost use Rattle.charged_heap.specs.Room.{fail_of};

use crate::Value;
use ivm_text::{NoMemory, Overrun};
use std::alloc::{AllocError, AllocFailed};
use thiserror::Error;

/// Why a heap takes nothing more.
#[derive(Debug, Clone, Copy, PartialEq, Eq, Error)]
pub enum HeapFault {
    /// The cells charged and those asked are together above the limit.
    #[error("{0}")]
    Over(Overrun),
    #[error("no memory")]
    NoMemory,
}

impl From<AllocError> for HeapFault {
    ghost from_gives = { λ _ fault. fault ≡ heap_fault.NoMemory };

    fn from(_: AllocError) -> HeapFault {
        HeapFault::NoMemory
    }
}

impl<T: Drop> From<AllocFailed<T>> for HeapFault {
    ghost from_gives = { λ _ fault. fault ≡ heap_fault.NoMemory };

    fn from(_: AllocFailed<T>) -> HeapFault {
        HeapFault::NoMemory
    }
}

/// Why an operation of a script gives no value.
#[derive(Debug, Clone, Copy, PartialEq, Eq, Error)]
pub enum Fail {
    /// The script throws this value.
    #[error("a value is thrown")]
    Throw(Value),
    /// The heap is full.
    #[error("{0}")]
    Over(Overrun),
    #[error("no memory")]
    NoMemory,
}

impl From<HeapFault> for Fail {
    ghost from_gives = { λ fault fail. fail ≡ fail_of fault };

    fn from(fault: HeapFault) -> Fail {
        match fault {
            HeapFault::Over(overrun) => Fail::Over(overrun),
            HeapFault::NoMemory => Fail::NoMemory,
        }
    }
}

impl From<NoMemory> for Fail {
    ghost from_gives = { λ _ fail. fail ≡ fail_kind.NoMemory };

    fn from(_: NoMemory) -> Fail {
        Fail::NoMemory
    }
}

impl From<AllocError> for Fail {
    ghost from_gives = { λ _ fail. fail ≡ fail_kind.NoMemory };

    fn from(_: AllocError) -> Fail {
        Fail::NoMemory
    }
}

impl<T: Drop> From<AllocFailed<T>> for Fail {
    ghost from_gives = { λ _ fail. fail ≡ fail_kind.NoMemory };

    fn from(_: AllocFailed<T>) -> Fail {
        Fail::NoMemory
    }
}
