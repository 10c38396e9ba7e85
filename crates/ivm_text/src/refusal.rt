//! Why a script's text is refused.

use crate::{CloneWhole, Units};
use std::alloc::{AllocError, Global};

/// The kinds of refusal, in the order of their numbers from 1 to 13.
#[derive(Debug, Clone, Copy, PartialEq, Eq)]
pub enum RefusalKind {
    BadUtf8,
    BadCharacter,
    OpenComment,
    OpenString,
    BadEscape,
    NumberOutOfProfile,
    Unexpected,
    TooDeep,
    OutOfProfile,
    TwiceDeclared,
    BadTarget,
    StrayBreak,
    StrayReturn,
}

/// A refusal of a text, at a byte of it counted from 0.
#[derive(Debug, Drop)]
pub struct Refusal {
    pub kind: RefusalKind,
    pub place: u32,
    /// The word that is out of profile, at `OutOfProfile` alone.
    pub word: Option<Units>,
}

impl CloneWhole for Refusal {
    fn clone_whole(&self, alloc: Global) -> Result<Refusal, AllocError> {
        let word = match &self.word {
            Some(word) => Some(word.clone_whole(alloc)?),
            None => None,
        };
        Ok(Refusal {
            kind: self.kind,
            place: self.place,
            word,
        })
    }
}
