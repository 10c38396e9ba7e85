//! A value that stands once in memory, wherever it is kept.
ghost use Rattle.std.specs.Prelude.{◌≡◌, IfOk};

use ivm_text::CloneWhole;
use std::alloc::{AllocError, Global};
use std::marker::Model;
use std::ops::Deref;
use std::sync::Arc;

/// A value with several owners: the text of a task, or an outcome. A history and a journal both keep it,
/// and a clone is one more owner.
#[derive(Debug, Drop)]
pub struct Shared<T> {
    value: Arc<T, Global>,
}

impl<T> Model for Shared<T> {
    ghost use Rattle.std.specs.Arc.{arc_value};

    ghost Value = { T };

    ghost view = { λ shared. arc_value shared.value };
}

impl<T: Drop> Shared<T> {
    /// The value with one owner. Only want of memory refuses it.
    pub fn new(alloc: Global, value: T) -> Result<Shared<T>, AllocError>
        ensures { IfOk result (λ shared. shared ≡ value) }
    {
        match Arc::new(alloc, value) {
            Ok(value) => Ok(Shared { value }),
            Err(_) => Err(AllocError),
        }
    }
}

impl<T> Deref for Shared<T> {
    type Target = T;

    ghost deref_gives = { λ shared value. value ≡ shared };

    fn deref(&self) -> &T
        ensures { result.now ≡ self.now }
    {
        &self.value
    }
}

impl<T> CloneWhole for Shared<T> {
    fn clone_whole(&self, _alloc: Global) -> Result<Shared<T>, AllocError> {
        let value = Arc::try_clone(&self.value)?;
        Ok(Shared { value })
    }
}
