// The first variable of arguments and of conditions that may not stand there.
ghost use Rattle.std.specs.Prelude.{◌≡◌};
ghost use Rattle.std.specs.List.{flat_map};
ghost use Rattle.rule_ast.specs.Plain.{plain_cond};
ghost use Rattle.rule_ast.specs.Vars.{slots_of};
ghost use Rattle.rule_check.specs.Allowed.{allowed};
ghost use Rattle.rule_check.specs.Offenders.{first, outside, cond_vars};

use event_model::{Pat, Slot, Slots};
use rule_ast::Cond;

#[cycle(outside)]
#[tactic(auto, using(crate::proofs::FirstOutside::steps))]
fn outside_argument(pat: &Pat, may: &Option<Slots>) -> Option<Slot>
    ensures { result ≡ first (outside (allowed may.now) (slots_of pat.now)) }
{
    match pat {
        Pat::Var(slot) => {
            match may {
                Some(slots) if !slots.has(*slot) => Some(*slot),
                _ => None,
            }
        }
        Pat::Comp(_, pats) => outside_arguments(pats.as_slice(), may),
        Pat::Any | Pat::Num(_) | Pat::Sym(_) | Pat::Text(_) => None,
    }
}

// The first variable of the arguments that may not stand there.
#[cycle(outside)]
#[tactic(auto, using(crate::proofs::FirstOutside::steps))]
pub(crate) fn outside_arguments(pats: &[Pat], may: &Option<Slots>) -> Option<Slot>
    ensures { result ≡ first (outside (allowed may.now) (flat_map slots_of pats.now)) }
{
    for pat in pats {
        let found = outside_argument(pat, may);
        if found.is_some() {
            return found;
        }
    }
    None
}

// The first variable of the condition that may not stand there.
#[tactic(auto, using(crate::proofs::FirstOutside::steps))]
pub(crate) fn outside_condition(cond: &Cond, may: &Option<Slots>) -> Option<Slot>
    ensures { result ≡ first (outside (allowed may.now) (cond_vars (plain_cond cond.now))) }
{
    match cond {
        Cond::Value(pat) => outside_argument(pat, may),
        Cond::Calc(_, left, right) => outside_condition(left, may).or(outside_condition(
            right, may,
        )),
        Cond::Compare(_, left, right) => outside_condition(left, may).or(outside_condition(
            right, may,
        )),
        Cond::AndAlso(left, right) => outside_condition(left, may).or(outside_condition(
            right, may,
        )),
        Cond::OrElse(left, right) => outside_condition(left, may).or(outside_condition(right, may)),
        Cond::Not(of) => outside_condition(of, may),
    }
}
