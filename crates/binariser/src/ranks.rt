// Names in the order of their steps.
ghost use Rattle.std.specs.Prelude.{◌≡◌, map, IfOk};
ghost use Rattle.std.specs.Cmp.{partial_equiv_from_equiv, partial_order_from_agreeing_total};
ghost use Rattle.std.specs.Ordering.{eq_by_cmp, as_partial_cmp};
ghost use Rattle.std.proofs.Common.{refl};
ghost use Rattle.std.proofs.lemmas.Cmp.{eq_by_cmp_equiv};
ghost use Rattle.ordered_lists.specs.Canon.{canon};
ghost use Rattle.event_model.specs.declared.atoms.NameArity.{NameArity as NameArity_};
ghost use Rattle.rule_ast.specs.Plain.{plain_rules};
ghost use Rattle.rule_check.specs.Sound.{rules_of};
ghost use Rattle.step_meaning.specs.PlanOf.{by_rank};
ghost use Rattle.binariser.specs.Ranks.{ranked_cmp, exact_ranked, ranked};

use crate::sharing::share_name;
use event_model::{NameArity, cmp_name_arities};
use ordered_lists::sort_unique;
use rule_check::Checked;
use std::alloc::{AllocError, Global};
use std::cmp::Ordering;
use std::marker::Model;

// A name with its rank, by which it is put in order first.
#[derive(Drop)]
struct Ranked {
    rank: u32,
    name: NameArity,
}

impl Model for Ranked {
    ghost use Rattle.std.specs.Prelude.{ℕ};
    ghost use Rattle.event_model.specs.declared.atoms.NameArity.{NameArity};

    ghost Value = { ℕ × NameArity };

    ghost view = { λ r. (r.rank, r.name) };
}

fn cmp_ranked(left: &Ranked, right: &Ranked) -> Ordering
    ensures { result ≡ ranked_cmp left.now right.now }
{
    left.rank
        .cmp(&right.rank)
        .then(cmp_name_arities(&left.name, &right.name))
}

impl PartialEq for Ranked {
    ghost eq = { eq_by_cmp ranked_cmp };

    ghost laws = { partial_equiv_from_equiv (eq_by_cmp_equiv exact_ranked.total) };

    fn eq(&self, other: &Ranked) -> bool {
        cmp_ranked(self, other).is_eq()
    }
}

impl Eq for Ranked {
    ghost laws = { eq_by_cmp_equiv exact_ranked.total };
}

impl PartialOrd for Ranked {
    ghost partial_cmp = { as_partial_cmp ranked_cmp };

    ghost laws = { partial_order_from_agreeing_total ranked_cmp exact_ranked.total (λ _ _. refl) (λ _ _. refl) };

    fn partial_cmp(&self, other: &Ranked) -> Option<Ordering> {
        Some(cmp_ranked(self, other))
    }
}

impl Ord for Ranked {
    ghost cmp = { ranked_cmp };

    ghost total = { exact_ranked.total };

    ghost matches_partial_cmp = { λ _ _. refl };

    ghost matches_eq = { λ _ _. refl };

    fn cmp(&self, other: &Ranked) -> Ordering {
        cmp_ranked(self, other)
    }
}

fn with_ranks(
    alloc: Global,
    checked: &Checked,
    names: &[NameArity],
) -> Result<Vec<Ranked>, AllocError>
    ensures { IfOk result (λ v. v.items ≡ map (ranked (rules_of (plain_rules checked.now))) names.now) }
{
    let mut all = Vec::with_capacity(alloc, names.len())?;
    for name in names {
        let rank = checked.rank(name);
        all.push(Ranked {
            rank,
            name: share_name(name)?,
        })?;
    }
    Ok(all)
}

fn without_ranks(alloc: Global, all: Vec<Ranked>) -> Result<Vec<NameArity>, AllocError>
    ensures { IfOk result (λ v. v.items ≡ map (λ p. p.1) all.items) }
{
    let mut names = Vec::with_capacity(alloc, all.len())?;
    for ranked in all {
        names.push(ranked.name)?;
    }
    Ok(names)
}

// The names by rank and then by name, each once.
pub(crate) fn in_plan_order(
    alloc: Global,
    checked: &Checked,
    names: &[NameArity],
) -> Result<Vec<NameArity>, AllocError>
    ensures { IfOk result (λ v. v.items ≡ canon (by_rank (rules_of (plain_rules checked.now))) names.now) }
{
    let mut all = with_ranks(alloc, checked, names)?;
    sort_unique(&mut all)?;
    without_ranks(alloc, all)
}
