// A list with several owners.
ghost use Rattle.std.specs.Prelude.{◌≡◌, IfOk};

use std::alloc::{AllocError, Global};
use std::marker::Model;
use std::rc::Rc;

/// A list with several owners, which contracts see as the list.
#[derive(Drop)]
pub struct Shared<T> {
    items: Rc<Vec<T>>,
}

impl<T> Model for Shared<T> {
    ghost use Rattle.std.specs.Prelude.{List};
    ghost use Rattle.std.specs.Coded.{coded_list};

    ghost Value = { List T };

    ghost coded = { coded_list T.code };

    ghost view = { λ s. s.items.value.items };
}

impl<T: Drop> Shared<T> {
    /// The list, with one owner.
    pub fn new(alloc: Global, items: Vec<T>) -> Result<Shared<T>, AllocError>
        ensures { IfOk result (λ s. s ≡ items.items) }
    {
        Ok(Shared {
            items: Rc::new(alloc, items)?,
        })
    }

    /// One more owner of the same list. An `Err` says that the owners can't be counted.
    pub fn share(&self) -> Result<Shared<T>, AllocError>
        ensures { IfOk result (λ s. s ≡ self.now) }
    {
        Ok(Shared {
            items: self.items.clone()?,
        })
    }
}

impl<T> Shared<T> {
    pub fn as_slice(&self) -> &[T]
        ensures { result.now ≡ self.now }
    {
        self.items.as_slice()
    }
}
