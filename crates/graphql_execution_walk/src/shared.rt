//! A value with several owners.

ghost use Rattle.std.specs.Prelude.{◌≡◌};
ghost use Rattle.graphql_text.specs.Memory.{Gives};

use std::alloc::{AllocError, Global};
use std::marker::Model;
use std::rc::Rc;

/// A value with several owners, the last of which lets it go. Contracts see the value alone.
#[derive(Drop)]
pub(crate) struct Shared<T> {
    held: Rc<T>,
}

impl<T> Model for Shared<T> {
    ghost Value = { T };

    ghost view = { λ shared. shared.held.value };
}

impl<T: Drop> Shared<T> {
    /// The value, with one owner. An error is want of memory.
    pub fn new(alloc: Global, value: T) -> Result<Shared<T>, AllocError>
        ensures { Gives result value }
    {
        let held = Rc::new(alloc, value)?;
        Ok(Shared { held })
    }

    /// The same value, with one owner more; nothing of it is copied. An error says that there are
    /// too many.
    pub fn again(&self) -> Result<Shared<T>, AllocError>
        ensures { Gives result self.now }
    {
        let held = self.held.clone()?;
        Ok(Shared { held })
    }

    /// The value.
    pub fn get(&self) -> &T
        ensures { result.now ≡ self.now }
    {
        self.held.as_ref()
    }
}
