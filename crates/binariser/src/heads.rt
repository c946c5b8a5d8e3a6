// The rules that head each name.
ghost use Rattle.std.specs.Prelude.{◌≡◌, ◌≤◌, ◌++◌, ◌∷◌, [], true, length, map, option_map, unwrap_or, OnOk, IfOk};
ghost use Rattle.std.specs.List.{filter, list_all};
ghost use Rattle.event_model.specs.declared.terms.TheConstants.{MOST_ARGUMENTS};
ghost use Rattle.event_model.specs.declared.atoms.NameArity.{NameArity as NameArity_};
ghost use Rattle.rule_ast.specs.Shaped.{is_shaped_statement};
ghost use Rattle.rule_ast.specs.Plain.{plain_rule, plain_statement};
ghost use Rattle.pattern_meaning.specs.RuleRows.{has_head};
ghost use Rattle.binariser.specs.Heads.{rules_in, rules_for};

use event_model::NameArity;
use indexmap::IndexMap;
use rule_ast::{Rule, Statement};
use std::alloc::{AllocError, Global};

// The rules that head each name, in the order of the file.
#[derive(Drop)]
pub(crate) struct HeadRules<'a> {
    by_name: IndexMap<NameArity, Vec<&'a Rule>>,
}

impl<'a> HeadRules<'a> {
    fn new(alloc: Global) -> HeadRules<'a>
        ensures { (n : NameArity_) → rules_in result n ≡ [] }
    {
        HeadRules {
            by_name: IndexMap::new(alloc),
        }
    }

    // The rules that head a name.
    pub(crate) fn of(&self, name: &NameArity) -> Option<&Vec<&'a Rule>>
        ensures { unwrap_or (option_map (λ rules. map (λ r. plain_rule r.now) rules.now.items) result) [] ≡ rules_in self.now name.now }
    {
        self.by_name.get(name)
    }

    // One rule more.
    fn add(&mut self, alloc: Global, rule: &'a Rule) -> Result<(), AllocError>
        requires { length rule.now.head.args ≤ MOST_ARGUMENTS }
        ensures { OnOk result
            ((n : NameArity_) → rules_in self.new n ≡ rules_in self.old n ++ filter (has_head n) (plain_rule rule.now ∷ [])) }
    {
        let name = NameArity {
            name: rule.head.name.share()?,
            arity: rule.head.args.as_slice().len() as u8,
        };
        match self.by_name.get_mut(&name) {
            Some(rules) => rules.push(rule)?,
            None => {
                let mut rules = Vec::new(alloc);
                rules.push(rule)?;
                self.by_name.insert(name, rules)?;
            }
        }
        Ok(())
    }

    // One statement more.
    fn add_statement(&mut self, alloc: Global, statement: &'a Statement) -> Result<(), AllocError>
        requires { is_shaped_statement (plain_statement statement.now) ≡ true }
        ensures { OnOk result
            ((n : NameArity_) → rules_in self.new n ≡ rules_in self.old n ++ rules_for (plain_statement statement.now ∷ []) n) }
    {
        match statement {
            Statement::Rule(rule) => self.add(alloc, rule),
            Statement::Show(_) => Ok(()),
        }
    }
}

// The rules of these statements, by the names that they head.
pub(crate) fn head_rules<'a>(
    alloc: Global,
    statements: &'a [Statement],
) -> Result<HeadRules<'a>, AllocError>
    requires { list_all is_shaped_statement (map plain_statement statements.now) ≡ true }
    ensures { IfOk result (λ h. (n : NameArity_) → rules_in h n ≡ rules_for (map plain_statement statements.now) n) }
{
    let mut heads = HeadRules::new(alloc);
    for statement in statements {
        heads.add_statement(alloc, statement)?;
    }
    Ok(heads)
}
