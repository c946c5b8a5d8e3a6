// Rules that were checked.
ghost use Rattle.std.specs.Prelude.{◌≡◌};
ghost use Rattle.rule_ast.specs.Plain.{plain_rules};
ghost use Rattle.rule_ast.specs.Shaped.{IsShaped};
ghost use Rattle.rule_check.specs.Cycles.{IsRanking, rank_of};
ghost use Rattle.rule_check.specs.Names.{outputs};
ghost use Rattle.rule_check.specs.Sound.{rules_of};
ghost use Rattle.rule_check.specs.Verdict.{IsSound, IsChecked};

use crate::numbers::{Numbers, rank_in};
use event_model::NameArity;
use rule_ast::RuleSet;
use std::marker::Model;

/// Sound rules, which contracts see as the rules, with the names that are given out and the ranks of names.
#[derive(Drop)]
pub struct Checked {
    rules: RuleSet,
    shown: Vec<NameArity>,
    heads: Numbers,
    ranks: Vec<u32>,
}

impl Model for Checked {
    ghost use Rattle.std.specs.Coded.{codes};
    ghost use Rattle.rule_ast.specs.contracts.statements.RuleSet as rule_set;
    ghost use Rattle.rule_ast.specs.declared.statements.RuleSet.{RuleSet};
    ghost use Rattle.rule_ast.specs.Plain.{plain_rules};
    ghost use Rattle.rule_check.specs.Verdict.{IsChecked};

    ghost Value = { RuleSet };

    ghost coded = { Prim.hlevel (codes, rule_set.the_row.coded) };

    ghost view = { λ c. c.rules };

    ghost invariant = { λ c. IsChecked (plain_rules c.rules) c.shown.items c.heads c.ranks.items };
}

impl Checked {
    pub(crate) fn new(
        rules: RuleSet,
        shown: Vec<NameArity>,
        heads: Numbers,
        ranks: Vec<u32>,
    ) -> Checked
        requires { IsChecked (plain_rules rules) shown.items heads ranks.items }
        ensures { result ≡ rules }
    {
        Checked {
            rules,
            shown,
            heads,
            ranks,
        }
    }

    pub fn rules(&self) -> &RuleSet
        ensures same { result.now ≡ self.now }
        ensures shaped { IsShaped (plain_rules self.now) }
        ensures sound { IsSound (plain_rules self.now) }
        ensures ranking { IsRanking (rules_of (plain_rules self.now)) (rank_of (rules_of (plain_rules self.now))) }
    {
        &self.rules
    }

    /// The names whose rows are given out: those of the `show` statements, or all that head rules where there is none.
    pub fn shown(&self) -> &[NameArity]
        ensures { result.now ≡ outputs (plain_rules self.now) }
    {
        &self.shown
    }

    /// 0 for a name that heads no rule, else one more than the greatest rank in the bodies of its rules.
    pub fn rank(&self, name: &NameArity) -> u32
        ensures rank { result ≡ rank_of (rules_of (plain_rules self.now)) name.now }
        ensures ranking { IsRanking (rules_of (plain_rules self.now)) (rank_of (rules_of (plain_rules self.now))) }
    {
        rank_in(&self.heads, &self.ranks, name)
    }
}
