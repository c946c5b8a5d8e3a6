// What the events of a rule file can be of.
ghost use Rattle.std.specs.Prelude.{◌≡◌, [], fold, filter, map, IfOk, OnOk};
ghost use Rattle.std.specs.Ordering.{eq_by_cmp};
ghost use Rattle.std.specs.Cmp.{partial_equiv_from_equiv};
ghost use Rattle.std.specs.Hash as fed;
ghost use Rattle.std.proofs.lemmas.Cmp.{eq_by_cmp_equiv};
ghost use Rattle.ordered_lists.specs.Canon.{has};
ghost use Rattle.event_model.specs.EventOrder.{name_cmp, exact_names};
ghost use Rattle.rule_ast.specs.Plain.{plain_pattern, plain_statement};
ghost use Rattle.rule_check.specs.Names.{body_names, head_names, name_of_atom};
ghost use Rattle.rule_check.specs.Numbers.{with_seen, first_seen};
ghost use Rattle.rule_check.specs.Sound.{rules_of};
ghost use Rattle.drill_lines.specs.OpenNames.{is_open, open_in, open_names};

use event_model::{Name, PatAtom};
use indexmap::IndexSet;
use rule_ast::{Pattern, Statement};
use std::alloc::{AllocError, Global};
use std::hash::{Hash, Hasher};
use std::marker::Model;

// A word with a number of arguments, however many.
#[derive(Drop)]
pub(crate) struct EventKind {
    pub(crate) name: Name,
    pub(crate) arity: usize,
}

impl Model for EventKind {
    ghost use Rattle.event_model.specs.declared.atoms.NameArity.{NameArity};

    ghost Value = { NameArity };

    ghost view = { λ k. record { name = k.name; arity = k.arity } };

    ghost inverse = { λ n. record { name = n.name; arity = n.arity } };
}

impl PartialEq for EventKind {
    ghost eq = { eq_by_cmp name_cmp };

    ghost laws = { partial_equiv_from_equiv (eq_by_cmp_equiv exact_names.total) };

    fn eq(&self, other: &EventKind) -> bool {
        let (name, others) = (
            self.name.as_str().as_bytes(),
            other.name.as_str().as_bytes(),
        );
        name.cmp(&others).then(self.arity.cmp(&other.arity)).is_eq()
    }
}

impl Eq for EventKind {
    ghost laws = { eq_by_cmp_equiv exact_names.total };
}

impl Hash for EventKind {
    ghost use Rattle.std.specs.Prelude.{◌++◌};
    ghost use Rattle.std.proofs.Common.{ap};
    ghost use Rattle.event_model.specs.EventOrder.{same_names};

    ghost hash_input = { λ n. fed.str n.name ++ fed.usize n.arity };

    ghost respects_eq = { λ x y h. ap (λ n. fed.str n.name ++ fed.usize n.arity) (same_names x y h) };

    fn hash<H: Hasher>(&self, state: &mut H) {
        self.name.hash(state);
        state.write_usize(self.arity);
    }
}

impl EventKind {
    // What an atom of a rule is of.
    fn of(atom: &PatAtom) -> Result<EventKind, AllocError>
        ensures { IfOk result (λ k. k ≡ name_of_atom atom.now) }
    {
        Ok(EventKind {
            name: atom.name.share()?,
            arity: atom.args.as_slice().len(),
        })
    }
}

// Kinds, each once, in the order in which they were added first.
#[derive(Drop)]
pub(crate) struct Kinds {
    seen: IndexSet<EventKind>,
}

impl Model for Kinds {
    ghost use Rattle.std.specs.Prelude.{List};
    ghost use Rattle.event_model.specs.declared.atoms.NameArity.{NameArity};

    ghost Value = { List NameArity };

    ghost view = { λ k. k.seen.keys };
}

impl Kinds {
    fn new(alloc: Global) -> Kinds
        ensures { result ≡ [] }
    {
        Kinds {
            seen: IndexSet::new(alloc),
        }
    }

    fn add(&mut self, kind: EventKind) -> Result<(), AllocError>
        ensures { OnOk result (self.new ≡ with_seen self.old kind) }
    {
        self.seen.insert(kind)?;
        Ok(())
    }

    fn has(&self, kind: &EventKind) -> bool
        ensures { result ≡ has name_cmp kind.now self.now }
    {
        self.seen.contains(kind)
    }

    pub(crate) fn as_slice(&self) -> &[EventKind]
        ensures { result.now ≡ self.now }
    {
        self.seen.as_slice()
    }
}

// The kinds that head rules.
fn heads_of(alloc: Global, statements: &[Statement]) -> Result<Kinds, AllocError>
    ensures { IfOk result (λ k. k ≡ first_seen (head_names (rules_of (map plain_statement statements.now)))) }
{
    let mut heads = Kinds::new(alloc);
    for statement in statements {
        match statement {
            Statement::Rule(rule) => heads.add(EventKind::of(&rule.head)?)?,
            Statement::Show(_) => {}
        }
    }
    Ok(heads)
}

// Adds the kinds of a pattern's atoms that head no rule.
fn add_kinds(pattern: &Pattern, heads: &Kinds, kinds: &mut Kinds) -> Result<(), AllocError>
    ensures { OnOk result (kinds.new ≡ fold with_seen kinds.old (filter (is_open heads.now) (body_names (plain_pattern pattern.now)))) }
{
    match pattern {
        Pattern::Atom(atom) => {
            let kind = EventKind::of(atom)?;
            if heads.has(&kind) {
                return Ok(());
            }
            kinds.add(kind)
        }
        Pattern::Both(_, left, right) => {
            add_kinds(left, heads, kinds)?;
            add_kinds(right, heads, kinds)
        }
        Pattern::Either(left, right) => {
            add_kinds(left, heads, kinds)?;
            add_kinds(right, heads, kinds)
        }
        Pattern::Where(of, _) => add_kinds(of, heads, kinds),
        Pattern::Exact(of, _) => add_kinds(of, heads, kinds),
        Pattern::Within(of, _) => add_kinds(of, heads, kinds),
        Pattern::Not {
            inner,
            before,
            after,
        } => {
            add_kinds(inner, heads, kinds)?;
            add_kinds(before, heads, kinds)?;
            add_kinds(after, heads, kinds)
        }
    }
}

// The kinds that stand in bodies and aren't among the heads.
fn kinds_beside(alloc: Global, statements: &[Statement], heads: &Kinds) -> Result<Kinds, AllocError>
    ensures { IfOk result (λ k. k ≡ open_in heads.now (rules_of (map plain_statement statements.now))) }
{
    let mut kinds = Kinds::new(alloc);
    for statement in statements {
        match statement {
            Statement::Rule(rule) => add_kinds(&rule.body, heads, &mut kinds)?,
            Statement::Show(_) => {}
        }
    }
    Ok(kinds)
}

// The kinds that stand in bodies and head no rule, as they stand in the file.
pub(crate) fn open_kinds(alloc: Global, statements: &[Statement]) -> Result<Kinds, AllocError>
    ensures { IfOk result (λ k. k ≡ open_names (map plain_statement statements.now)) }
{
    let heads = heads_of(alloc, statements)?;
    kinds_beside(alloc, statements, &heads)
}
