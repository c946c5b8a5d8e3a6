// The rules of a file in the order of the ranks of their heads.
ghost use Rattle.std.specs.Prelude.{◌≡◌, ◌<◌, ◌^◌, length, map, IfOk};
ghost use Rattle.std.specs.List.{filter};
ghost use Rattle.rule_ast.specs.Plain.{plain_rules};
ghost use Rattle.rule_check.specs.Cycles.{IsRanking, rank_of};
ghost use Rattle.rule_check.specs.Graphs.{greatest};
ghost use Rattle.rule_check.specs.Names.{outputs};
ghost use Rattle.rule_check.specs.Sound.{rules_of};
ghost use Rattle.pattern_meaning.specs.PatternRows.{name_of};
ghost use Rattle.pattern_meaning.specs.Found.{is_within, IsOrdered};
ghost use Rattle.pattern_meaning.specs.RuleOrder.{rules_at, ranked_by, ranked_at};

use event_model::{NameArity, PatAtom};
use rule_ast::{Rule, Statement};
use rule_check::Checked;
use std::alloc::{AllocError, Global};

// A rule and the rank of its head.
#[derive(Drop)]
pub(crate) struct Ranked<'a> {
    pub(crate) rule: &'a Rule,
    rank: u32,
}

// The rules by the ranks of their heads, none deeper than the names that are given out.
pub(crate) fn rules_by_rank<'a>(
    alloc: Global,
    checked: &'a Checked,
) -> Result<Vec<Ranked<'a>>, AllocError>
    ensures ordered { let rules = rules_of (plain_rules checked.now) in
        let most = greatest (map (rank_of rules) (outputs (plain_rules checked.now))) in
        IfOk result (λ v. IsOrdered rules most (rules_at v.items)) }
    ensures ranking { IsRanking (rules_of (plain_rules checked.now)) (rank_of (rules_of (plain_rules checked.now))) }
{
    let mut ranked = ranked_rules(alloc, checked)?;
    ranked.sort_by_key(|one| one.rank)?;
    Ok(ranked)
}

// The greatest rank of the names that are given out.
fn deepest(checked: &Checked) -> u32
    ensures { result ≡ greatest (map (rank_of (rules_of (plain_rules checked.now))) (outputs (plain_rules checked.now))) }
{
    let names = checked.shown();
    let mut depth = 0;
    for name in names {
        depth = depth.max(checked.rank(name));
    }
    depth
}

// The rules with the ranks of their heads, none deeper than the names that are given out.
fn ranked_rules<'a>(alloc: Global, checked: &'a Checked) -> Result<Vec<Ranked<'a>>, AllocError>
    ensures ranks { let rules = rules_of (plain_rules checked.now) in
        let most = greatest (map (rank_of rules) (outputs (plain_rules checked.now))) in
        IfOk result (λ v. ranked_at v.items ≡ map (ranked_by rules) (filter (is_within rules most) rules)) }
    ensures ranking { IsRanking (rules_of (plain_rules checked.now)) (rank_of (rules_of (plain_rules checked.now))) }
{
    let most = deepest(checked);
    let mut ranked = Vec::new(alloc);
    for statement in &checked.rules().statements {
        match statement {
            Statement::Rule(rule) => {
                let rank = checked.rank(&name_of(&rule.head)?);
                if rank <= most {
                    ranked.push(Ranked { rule, rank })?;
                }
            }
            Statement::Show(_) => {}
        }
    }
    Ok(ranked)
}

// The name that an atom of a rule is of.
fn name_of(atom: &PatAtom) -> Result<NameArity, AllocError>
    requires { length atom.now.args < 2 ^ 8 }
    ensures { IfOk result (λ n. n ≡ name_of atom.now) }
{
    let name = atom.name.share()?;
    let arity = atom.args.as_slice().len() as u8;
    Ok(NameArity { name, arity })
}
