// Names numbered in the order in which they are first seen.
ghost use Rattle.std.specs.Prelude.{◌≡◌, [], length, Some, IfOk, OnOk, OnErr};
ghost use Rattle.ordered_lists.specs.Canon.{has};
ghost use Rattle.event_model.specs.EventOrder.{name_cmp};
ghost use Rattle.rule_check.specs.Gathered.{rules_at, AreShaped};
ghost use Rattle.rule_check.specs.Names.{head_names};
ghost use Rattle.rule_check.specs.Numbers.{with_seen, first_seen, AreNarrow, place, rank_by};

use event_model::{Name, NameArity};
use indexmap::IndexSet;
use rule_ast::Rule;
use std::alloc::{AllocError, Global};
use std::marker::Model;

// Names, each with its number.
#[derive(Drop)]
pub(crate) struct Numbers {
    seen: IndexSet<NameArity>,
}

impl Model for Numbers {
    ghost use Rattle.std.specs.Prelude.{List};
    ghost use Rattle.event_model.specs.declared.atoms.NameArity.{NameArity};

    ghost Value = { List NameArity };

    ghost view = { λ n. n.seen.keys };
}

impl Numbers {
    pub(crate) fn new(alloc: Global) -> Numbers
        ensures { result ≡ [] }
    {
        Numbers {
            seen: IndexSet::new(alloc),
        }
    }

    // Gives a name the next number, where it has none.
    pub(crate) fn add(&mut self, name: NameArity) -> Result<(), AllocError>
        ensures ok { OnOk result (self.new ≡ with_seen self.old name) }
        ensures err { OnErr result (self.new ≡ self.old) }
    {
        self.seen.insert(name)?;
        Ok(())
    }

    pub(crate) fn find(&self, name: &NameArity) -> Option<usize>
        ensures { result ≡ place self.now name.now }
    {
        self.seen.get_index_of(name)
    }

    pub(crate) fn has(&self, name: &NameArity) -> bool
        ensures { result ≡ has name_cmp name.now self.now }
    {
        self.seen.contains(name)
    }

    pub(crate) fn len(&self) -> usize
        ensures { result ≡ length self.now }
    {
        self.seen.len()
    }

    pub(crate) fn as_slice(&self) -> &[NameArity]
        ensures { result.now ≡ self.now }
    {
        self.seen.as_slice()
    }
}

// The names that head rules, numbered as they stand in the file.
pub(crate) fn heads_of(alloc: Global, rules: &[&Rule]) -> Result<Numbers, AllocError>
    requires { AreShaped (rules_at rules.now) }
    ensures { IfOk result (λ n. n ≡ first_seen (head_names (rules_at rules.now))) }
{
    let mut heads = Numbers::new(alloc);
    for rule in rules {
        let arity = rule.head.args.as_slice().len() as u8;
        let name = rule.head.name.share()?;
        heads.add(NameArity { name, arity })?;
    }
    Ok(heads)
}

// The number of an atom's name among those that head rules.
pub(crate) fn number_in(
    heads: &Numbers,
    name: &Name,
    arity: usize,
) -> Result<Option<usize>, AllocError>
    requires { AreNarrow heads.now }
    ensures { IfOk result (λ o. o ≡ place heads.now (record { name = name.now; arity = arity })) }
{
    let Ok(arity) = u8::try_from(arity) else {
        return Ok(None);
    };
    let name = NameArity {
        name: name.share()?,
        arity,
    };
    Ok(heads.find(&name))
}

// The rank that stands at a name's number.
pub(crate) fn rank_in(heads: &Numbers, ranks: &[u32], name: &NameArity) -> u32
    requires { length ranks.now ≡ length heads.now }
    ensures { result ≡ rank_by heads.now ranks.now name.now }
{
    match heads.find(name) {
        Some(number) => ranks[number],
        None => 0,
    }
}
