// The steps of the names that have one.
ghost use Rattle.std.specs.Prelude.{◌≡◌, [], ℕ, OnOk, IfOk};
ghost use Rattle.event_model.specs.declared.atoms.NameArity.{NameArity as NameArity_};
ghost use Rattle.pattern_meaning.specs.PatternRows.{name_of};
ghost use Rattle.binariser.specs.Making.{place_in, with_place};

use event_model::{NameArity, PatAtom};
use indexmap::IndexMap;
use rule_ast::StepId;
use std::alloc::{AllocError, Global};
use std::marker::Model;

#[derive(Drop)]
pub(crate) struct Places {
    steps: IndexMap<NameArity, StepId>,
}

impl Model for Places {
    ghost use Rattle.std.specs.Prelude.{List, ℕ};
    ghost use Rattle.event_model.specs.declared.atoms.NameArity.{NameArity};
    ghost use Rattle.binariser.specs.Making.{AreNarrow};

    ghost Value = { List (NameArity × ℕ) };

    ghost view = { λ p. p.steps.entries };

    ghost invariant = { λ p. AreNarrow p.steps.entries };
}

impl Places {
    pub(crate) fn new(alloc: Global) -> Places
        ensures { result ≡ [] }
    {
        Places {
            steps: IndexMap::new(alloc),
        }
    }

    // The step of the name of an atom, or 0 where it has none.
    pub(crate) fn of(&self, atom: &PatAtom) -> Result<StepId, AllocError>
        ensures { IfOk result (λ step. step ≡ place_in self.now (name_of atom.now)) }
    {
        let steps = &self.steps;
        let Ok(arity) = u8::try_from(atom.args.as_slice().len()) else {
            return Ok(0);
        };
        let name = NameArity {
            name: atom.name.share()?,
            arity,
        };
        match steps.get(&name) {
            Some(step) => Ok(*step),
            None => Ok(0),
        }
    }

    // The step of a name.
    pub(crate) fn add(&mut self, name: &NameArity, step: StepId) -> Result<(), AllocError>
        ensures { OnOk result ((n : NameArity_) → place_in self.new n ≡ with_place (place_in self.old) name.now step n) }
    {
        let arity = name.arity;
        let key = NameArity {
            name: name.name.share()?,
            arity,
        };
        self.steps.insert(key, step)?;
        Ok(())
    }
}
