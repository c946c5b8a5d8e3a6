// Conditions of WHERE.
use event_model::Pat;

/// Arithmetic between two numbers.
#[derive(Clone, Copy, Debug, PartialEq, Eq)]
pub enum Calc {
    Add,
    Sub,
    Mul,
    Div,
    Rem,
}

/// A comparison of two terms.
#[derive(Clone, Copy, Debug, PartialEq, Eq)]
pub enum Cmp {
    Eq,
    Ne,
    Lt,
    Le,
    Gt,
    Ge,
}

/// A condition, or a part of one: its value is a truth value, a number or another term.
#[derive(Drop)]
pub enum Cond {
    Value(Pat),
    Calc(Calc, Box<Cond>, Box<Cond>),
    Compare(Cmp, Box<Cond>, Box<Cond>),
    AndAlso(Box<Cond>, Box<Cond>),
    OrElse(Box<Cond>, Box<Cond>),
    Not(Box<Cond>),
}
