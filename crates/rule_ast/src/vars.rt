// The variables of patterns and of atoms.
ghost use Rattle.std.specs.Prelude.{◌≡◌, ℕ, ◌||◌};
ghost use Rattle.std.specs.List.{flat_map};
ghost use Rattle.event_model.specs.SlotSets.{slot_in};
ghost use Rattle.rule_ast.specs.Plain.{plain_pattern};
ghost use Rattle.rule_ast.specs.Vars.{slots_of, atom_vars, vars, is_in};

use crate::patterns::Pattern;
use event_model::{Pat, PatAtom, Slots};

#[cycle(slots)]
#[tactic(auto, using(crate::specs::Vars::slot_lists))]
fn add_pat(slots: Slots, pat: &Pat) -> Slots
    ensures { (t : ℕ) → slot_in result t ≡ (slot_in slots t || is_in t (slots_of pat.now)) }
{
    match pat {
        Pat::Var(slot) => slots.add(*slot),
        Pat::Comp(_, pats) => add_pats(slots, pats.as_slice()),
        Pat::Any | Pat::Num(_) | Pat::Sym(_) | Pat::Text(_) => slots,
    }
}

#[cycle(slots)]
#[tactic(auto, using(crate::specs::Vars::slot_lists))]
fn add_pats(slots: Slots, pats: &[Pat]) -> Slots
    ensures { (t : ℕ) → slot_in result t ≡ (slot_in slots t || is_in t (flat_map slots_of pats.now)) }
{
    let mut all = slots;
    for pat in pats {
        all = add_pat(all, pat);
    }
    all
}

/// The variables of an atom.
#[tactic(auto, using(crate::specs::Vars::slot_lists))]
pub fn vars_of_atom(atom: &PatAtom) -> Slots
    ensures { (t : ℕ) → slot_in result t ≡ is_in t (atom_vars atom.now) }
{
    add_pats(Slots::empty(), atom.args.as_slice())
}

/// The variables of a pattern's atoms; of a `Not` those of its start and end patterns.
#[tactic(auto, using(crate::specs::Vars::slot_lists))]
pub fn vars_of(pattern: &Pattern) -> Slots
    ensures { (t : ℕ) → slot_in result t ≡ is_in t (vars (plain_pattern pattern.now)) }
{
    match pattern {
        Pattern::Atom(atom) => vars_of_atom(atom),
        Pattern::Both(_, left, right) => vars_of(left).union(&vars_of(right)),
        Pattern::Either(left, right) => vars_of(left).union(&vars_of(right)),
        Pattern::Where(of, _) => vars_of(of),
        Pattern::Exact(of, _) => vars_of(of),
        Pattern::Within(of, _) => vars_of(of),
        Pattern::Not { before, after, .. } => vars_of(before).union(&vars_of(after)),
    }
}
