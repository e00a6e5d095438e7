//! A list that several owners share, and none changes.
ghost use Rattle.std.specs.Prelude.{◌≡◌, IfOk};

use crate::lists::List;
use crate::memory::NoMemory;
use std::alloc::Global;
use std::marker::Model;
use std::sync::Arc;

/// A list that is never changed, so that many own it together and none has a copy. Contracts see
/// the list.
#[derive(Drop)]
pub struct SharedList<T> {
    list: Arc<List<T>>,
}

impl<T> Model for SharedList<T> {
    ghost use Rattle.home_types.specs.Listed.{Listed};
    ghost use Rattle.std.specs.Arc.{arc_value};

    ghost Value = { Listed T };

    ghost view = { λ s. arc_value s.list };
}

impl<T> SharedList<T> {
    /// One more owner of the list: nothing is copied. `NoMemory` where there are 2^63 owners.
    pub fn share(&self) -> Result<SharedList<T>, NoMemory>
        ensures { IfOk result (λ shared. shared ≡ self.now) }
    {
        match Arc::try_clone(&self.list) {
            Ok(list) => Ok(SharedList { list }),
            Err(_) => Err(NoMemory),
        }
    }

    /// The items in order.
    pub fn as_slice(&self) -> &[T]
        ensures { result.now ≡ self.now.items }
    {
        self.list.as_slice()
    }
}

impl<T: Drop> SharedList<T> {
    /// Gives the list to its first owner, or answers `NoMemory`; the list is dropped then.
    pub fn new(alloc: Global, list: List<T>) -> Result<SharedList<T>, NoMemory>
        ensures { IfOk result (λ shared. shared ≡ list) }
    {
        match Arc::new(alloc, list) {
            Ok(list) => Ok(SharedList { list }),
            Err(_) => Err(NoMemory),
        }
    }
}
