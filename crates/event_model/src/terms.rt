// Ground terms, and terms with variables.
ghost use Rattle.std.specs.Prelude.{◌≡◌, ◌<◌, ℕ, IfOk};

use crate::lists::Shared;
use crate::names::Name;
use std::alloc::AllocError;
use std::marker::Model;

/// A ground term.
#[derive(Drop)]
pub enum Term {
    Num(i64),
    Sym(Name),
    Text(Name),
    Comp(Name, Shared<Term>),
}

/// The arguments of a ground atom or compound.
pub type Terms = Shared<Term>;

impl Term {
    /// An equal term that shares its names and arguments.
    pub fn share(&self) -> Result<Term, AllocError>
        ensures { IfOk result (λ t. t ≡ self.now) }
    {
        match self {
            Term::Num(n) => Ok(Term::Num(*n)),
            Term::Sym(name) => Ok(Term::Sym(name.share()?)),
            Term::Text(name) => Ok(Term::Text(name.share()?)),
            Term::Comp(name, args) => Ok(Term::Comp(name.share()?, args.share()?)),
        }
    }
}

/// The most arguments of an atom or compound.
pub const MOST_ARGUMENTS: usize = 16;

/// The most terms that stand within one another, the outermost among them.
pub const MOST_DEPTH: usize = 16;

/// The most variables of a rule, each of which has a slot.
pub const MOST_SLOTS: usize = 64;

/// The place of a variable among those of its rule, from 0 to 63, which contracts see as the number.
#[derive(Clone, Copy, PartialEq, Eq, PartialOrd, Ord)]
pub struct Slot {
    number: u8,
}

impl Model for Slot {
    ghost Value = { ℕ };

    ghost view = { λ s. s.number };

    ghost invariant = { λ s. s.number < 64 };

    ghost inverse = { λ n. record { number = n } };
}

impl Slot {
    pub fn new(number: u8) -> Slot
        requires { number < 64 }
        ensures { result ≡ number }
    {
        Slot { number }
    }

    pub fn number(self) -> u8
        ensures number { result ≡ self }
        ensures bound { result < 64 }
    {
        self.number
    }
}

/// A term with variables; `Any` stands for every term and binds nothing.
#[derive(Drop)]
pub enum Pat {
    Var(Slot),
    Any,
    Num(i64),
    Sym(Name),
    Text(Name),
    Comp(Name, Shared<Pat>),
}

/// The arguments of an atom or compound of a rule.
pub type Pats = Shared<Pat>;
