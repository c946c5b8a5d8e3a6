// Atoms, and the names that they are of.
ghost use Rattle.std.specs.Prelude.{◌≡◌, IfOk};

use crate::names::Name;
use crate::terms::{Pats, Terms};
use std::alloc::AllocError;

/// A ground atom: a name and its arguments.
#[derive(Drop)]
pub struct Atom {
    pub name: Name,
    pub args: Terms,
}

impl Atom {
    /// An equal atom that shares its name and arguments.
    pub fn share(&self) -> Result<Atom, AllocError>
        ensures { IfOk result (λ a. a ≡ self.now) }
    {
        Ok(Atom {
            name: self.name.share()?,
            args: self.args.share()?,
        })
    }
}

/// An atom of a rule, whose arguments may hold variables.
#[derive(Drop)]
pub struct PatAtom {
    pub name: Name,
    pub args: Pats,
}

/// A word with a number of arguments: what rules and events are of.
#[derive(Drop)]
pub struct NameArity {
    pub name: Name,
    pub arity: u8,
}
