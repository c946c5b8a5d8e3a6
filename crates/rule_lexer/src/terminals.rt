//! Tokens as the grammar of rule files sees them.

use crate::tokens::NUMBER_LIMIT;
use event_model::{Name, Op};
use rule_ast::Cmp;
use std::marker::Model;

/// A number below the limit, which contracts see as the number.
#[derive(Clone, Copy, PartialEq, Eq)]
pub struct Natural {
    value: u64,
}

impl Model for Natural {
    ghost use Rattle.std.specs.Prelude.{ℕ, ◌<◌};
    ghost use Rattle.rule_lexer.specs.declared.tokens.TheConstants.{NUMBER_LIMIT};

    ghost Value = { ℕ };

    ghost view = { λ n. n.value };

    ghost invariant = { λ n. n.value < NUMBER_LIMIT };

    ghost inverse = { λ n. record { value = n } };
}

impl Natural {
    ghost use Rattle.std.specs.Prelude.{◌≡◌, ◌<◌};

    pub fn new(value: u64) -> Natural
        requires { value < NUMBER_LIMIT }
        ensures { result ≡ value }
    {
        Natural { value }
    }

    pub fn value(self) -> u64
        ensures value { result ≡ self }
        ensures bound { result < NUMBER_LIMIT }
    {
        self.value
    }
}

/// A token without its place. A name and a variable are their words, a text is what stands between its quotes with the escapes
/// read.
#[derive(Drop)]
pub enum Terminal {
    Name(Name),
    Var(Name),
    Text(Name),
    Number(Natural),
    /// The greatest number, which only a minus sign makes a term.
    Huge,
    Wild,
    /// One of the eight operators between spans.
    Op(Op),
    Or,
    Not,
    Where,
    Within,
    Show,
    Open,
    Close,
    /// The sign `[` alone, which stands nowhere in the grammar.
    Stray,
    /// The sign `]`.
    Square,
    Comma,
    Arrow,
    Plus,
    Minus,
    Star,
    Slash,
    Percent,
    Compare(Cmp),
    Both,
    Either,
    Bang,
    /// The sign `.[`.
    Limits,
    /// A stop before a digit.
    Length,
    /// Any other stop.
    End,
}
