// Rules, and the statements of a rule file.
use crate::patterns::Pattern;
use event_model::{Name, NameArity, PatAtom};

/// A head and the pattern that gives its rows. The variable of slot i is called the i-th of `vars`, in the order of first
/// occurrence in the rule's text.
#[derive(Drop)]
pub struct Rule {
    pub head: PatAtom,
    pub body: Pattern,
    pub vars: Vec<Name>,
}

#[derive(Drop)]
pub enum Statement {
    Rule(Rule),
    Show(Vec<NameArity>),
}

/// What a rule file holds, in the order of the file.
#[derive(Drop)]
pub struct RuleSet {
    pub statements: Vec<Statement>,
}
