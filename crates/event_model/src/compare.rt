// The orders of names, terms, atoms, events and detections; names as keys of tables.
ghost use Rattle.std.specs.Prelude.{◌≡◌, length};
ghost use Rattle.std.specs.Cmp.Lexicographic.{slice_cmp};
ghost use Rattle.std.specs.Cmp.{partial_equiv_from_equiv, partial_order_from_agreeing_total};
ghost use Rattle.std.specs.Ordering.{eq_by_cmp, as_partial_cmp, ordering_then};
ghost use Rattle.std.specs.Cmp.Lexicographic.{nat_list_eq_equiv};
ghost use Rattle.std.specs.Cmp.Rules.{comparing, hashing};
ghost use Rattle.std.specs.Hash as fed;
ghost use Rattle.std.specs.Str.{bytes_eq};
ghost use Rattle.std.proofs.Common.{refl, rules};
ghost use Rattle.std.proofs.lemmas.Cmp.{eq_by_cmp_equiv};
ghost use Rattle.event_model.specs.TermOrder.{term_cmp, bytes_cmp, args_cmp, rank};
ghost use Rattle.event_model.specs.EventOrder.{name_cmp, atom_cmp, span_cmp, event_cmp, detection_cmp, exact_names, exact_events, exact_detections};

use crate::atoms::{Atom, NameArity};
use crate::events::{Detection, Event, Span};
use crate::names::Name;
use crate::terms::Term;
use std::cmp::Ordering;
use std::hash::{Hash, Hasher};

fn rank(t: &Term) -> u8
    ensures { result ≡ rank t.now }
{
    match t {
        Term::Num(_) => 0,
        Term::Sym(_) => 1,
        Term::Text(_) => 2,
        Term::Comp(_, _) => 3,
    }
}

fn cmp_names(a: &Name, b: &Name) -> Ordering
    ensures { result ≡ bytes_cmp a.now b.now }
{
    a.as_str().as_bytes().cmp(&b.as_str().as_bytes())
}

/// Numbers come first, by value, then symbols and then texts, by bytes, and then compounds, by name, number of arguments
/// and arguments from the left.
#[cycle(compare)]
#[tactic(auto, using(crate::specs::TermOrder::kinds))]
pub fn cmp_terms(a: &Term, b: &Term) -> Ordering
    ensures { result ≡ term_cmp a.now b.now }
{
    match (a, b) {
        (Term::Num(x), Term::Num(y)) => x.cmp(y),
        (Term::Sym(x), Term::Sym(y)) => cmp_names(x, y),
        (Term::Text(x), Term::Text(y)) => cmp_names(x, y),
        (Term::Comp(f, xs), Term::Comp(g, ys)) => {
            match cmp_names(f, g) {
                Ordering::Less => Ordering::Less,
                Ordering::Equal => cmp_args(xs.as_slice(), ys.as_slice()),
                Ordering::Greater => Ordering::Greater,
            }
        }
        _ => rank(a).cmp(&rank(b)),
    }
}

// By their number, and then from the left.
#[cycle(compare)]
fn cmp_args(xs: &[Term], ys: &[Term]) -> Ordering
    ensures { result ≡ args_cmp xs.now ys.now }
{
    if xs.len() != ys.len() {
        return xs.len().cmp(&ys.len());
    }
    for i in 0..xs.len() {
        match cmp_terms(&xs[i], &ys[i]) {
            Ordering::Less => return Ordering::Less,
            Ordering::Equal => {}
            Ordering::Greater => return Ordering::Greater,
        }
    }
    Ordering::Equal
}

/// By name, number of arguments and arguments from the left.
#[tactic(auto, using(crate::specs::TermOrder::kinds))]
pub fn cmp_atoms(a: &Atom, b: &Atom) -> Ordering
    ensures { result ≡ atom_cmp a.now b.now }
{
    match cmp_names(&a.name, &b.name) {
        Ordering::Less => Ordering::Less,
        Ordering::Equal => cmp_args(a.args.as_slice(), b.args.as_slice()),
        Ordering::Greater => Ordering::Greater,
    }
}

/// By atom, start and end.
pub fn cmp_events(a: &Event, b: &Event) -> Ordering
    ensures { result ≡ event_cmp a.now b.now }
{
    match cmp_atoms(&a.atom, &b.atom) {
        Ordering::Less => Ordering::Less,
        Ordering::Equal => cmp_spans(a.span, b.span),
        Ordering::Greater => Ordering::Greater,
    }
}

/// By start and end.
pub fn cmp_spans(a: Span, b: Span) -> Ordering
    ensures { result ≡ span_cmp a b }
{
    a.start().cmp(&b.start()).then(a.end().cmp(&b.end()))
}

/// By atom, start and end.
pub fn cmp_detections(a: &Detection, b: &Detection) -> Ordering
    ensures { result ≡ detection_cmp a.now b.now }
{
    match cmp_atoms(&a.atom, &b.atom) {
        Ordering::Less => Ordering::Less,
        Ordering::Equal => cmp_spans(a.span, b.span),
        Ordering::Greater => Ordering::Greater,
    }
}

impl PartialEq for Event {
    ghost eq = { eq_by_cmp event_cmp };

    ghost laws = { partial_equiv_from_equiv (eq_by_cmp_equiv exact_events.total) };

    fn eq(&self, other: &Event) -> bool {
        cmp_events(self, other).is_eq()
    }
}

impl Eq for Event {
    ghost laws = { eq_by_cmp_equiv exact_events.total };
}

impl PartialOrd for Event {
    ghost partial_cmp = { as_partial_cmp event_cmp };

    ghost laws = { partial_order_from_agreeing_total event_cmp exact_events.total (λ _ _. refl) (λ _ _. refl) };

    fn partial_cmp(&self, other: &Event) -> Option<Ordering> {
        Some(cmp_events(self, other))
    }
}

impl Ord for Event {
    ghost cmp = { event_cmp };

    ghost total = { exact_events.total };

    ghost matches_partial_cmp = { λ _ _. refl };

    ghost matches_eq = { λ _ _. refl };

    fn cmp(&self, other: &Event) -> Ordering {
        cmp_events(self, other)
    }
}

impl PartialEq for Detection {
    ghost eq = { eq_by_cmp detection_cmp };

    ghost laws = { partial_equiv_from_equiv (eq_by_cmp_equiv exact_detections.total) };

    fn eq(&self, other: &Detection) -> bool {
        cmp_detections(self, other).is_eq()
    }
}

impl Eq for Detection {
    ghost laws = { eq_by_cmp_equiv exact_detections.total };
}

impl PartialOrd for Detection {
    ghost partial_cmp = { as_partial_cmp detection_cmp };

    ghost laws = { partial_order_from_agreeing_total detection_cmp exact_detections.total (λ _ _. refl) (λ _ _. refl) };

    fn partial_cmp(&self, other: &Detection) -> Option<Ordering> {
        Some(cmp_detections(self, other))
    }
}

impl Ord for Detection {
    ghost cmp = { detection_cmp };

    ghost total = { exact_detections.total };

    ghost matches_partial_cmp = { λ _ _. refl };

    ghost matches_eq = { λ _ _. refl };

    fn cmp(&self, other: &Detection) -> Ordering {
        cmp_detections(self, other)
    }
}

/// By name and number of arguments.
pub fn cmp_name_arities(a: &NameArity, b: &NameArity) -> Ordering
    ensures { result ≡ name_cmp a.now b.now }
{
    cmp_names(&a.name, &b.name).then(a.arity.cmp(&b.arity))
}

impl PartialEq for NameArity {
    ghost eq = { eq_by_cmp name_cmp };

    ghost laws = { partial_equiv_from_equiv (eq_by_cmp_equiv exact_names.total) };

    fn eq(&self, other: &NameArity) -> bool {
        cmp_name_arities(self, other).is_eq()
    }
}

impl Eq for NameArity {
    ghost laws = { eq_by_cmp_equiv exact_names.total };
}

impl PartialOrd for NameArity {
    ghost partial_cmp = { as_partial_cmp name_cmp };

    ghost laws = { partial_order_from_agreeing_total name_cmp exact_names.total (λ _ _. refl) (λ _ _. refl) };

    fn partial_cmp(&self, other: &NameArity) -> Option<Ordering> {
        Some(cmp_name_arities(self, other))
    }
}

impl Ord for NameArity {
    ghost cmp = { name_cmp };

    ghost total = { exact_names.total };

    ghost matches_partial_cmp = { λ _ _. refl };

    ghost matches_eq = { λ _ _. refl };

    fn cmp(&self, other: &NameArity) -> Ordering {
        cmp_name_arities(self, other)
    }
}

impl Hash for NameArity {
    ghost use Rattle.std.specs.Prelude.{◌++◌};
    ghost use Rattle.std.proofs.Common.{ap};
    ghost use Rattle.event_model.specs.EventOrder.{same_names};

    ghost hash_input = { λ n. fed.str n.name ++ fed.u8 n.arity };

    ghost respects_eq = { λ x y h. ap (λ n. fed.str n.name ++ fed.u8 n.arity) (same_names x y h) };

    fn hash<H: Hasher>(&self, state: &mut H) {
        self.name.hash(state);
        state.write_u8(self.arity);
    }
}

impl PartialEq for Name {
    ghost eq = { bytes_eq };

    ghost laws = { Prim.search (comparing, rules) };

    fn eq(&self, other: &Name) -> bool {
        self.as_str() == other.as_str()
    }
}

impl Eq for Name {
    ghost laws = { nat_list_eq_equiv };
}

impl Hash for Name {
    ghost hash_input = { fed.str };

    ghost respects_eq = { Prim.search (hashing, rules) };

    fn hash<H: Hasher>(&self, state: &mut H) {
        self.as_str().hash(state);
    }
}
