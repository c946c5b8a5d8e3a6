// Texts with several owners.
ghost use Rattle.std.specs.Prelude.{◌≡◌, IfOk, string_bytes};

use std::alloc::{AllocError, Global};
use std::marker::Model;
use std::rc::Rc;

/// A text with several owners, which contracts see as its bytes.
#[derive(Drop)]
pub struct Name {
    text: Rc<String>,
}

impl Model for Name {
    ghost use Rattle.std.specs.Prelude.{List, ℕ, string_bytes};

    ghost Value = { List ℕ };

    ghost view = { λ n. string_bytes n.text.value };
}

impl Name {
    /// The text, with one owner.
    pub fn new(alloc: Global, text: &str) -> Result<Name, AllocError>
        ensures { IfOk result (λ n. n ≡ text.now) }
    {
        Name::from_string(alloc, String::from_str(alloc, text)?)
    }

    /// The text of a string that is taken as it is, with one owner.
    pub fn from_string(alloc: Global, text: String) -> Result<Name, AllocError>
        ensures { IfOk result (λ n. n ≡ string_bytes text) }
    {
        Ok(Name {
            text: Rc::new(alloc, text)?,
        })
    }

    pub fn as_str(&self) -> &str
        ensures { result.now ≡ self.now }
    {
        self.text.as_str()
    }

    /// One more owner of the same text. An `Err` says that the owners can't be counted.
    pub fn share(&self) -> Result<Name, AllocError>
        ensures { IfOk result (λ n. n ≡ self.now) }
    {
        Ok(Name {
            text: self.text.clone()?,
        })
    }
}
