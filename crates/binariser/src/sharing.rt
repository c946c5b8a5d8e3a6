// Atoms and conditions once more, with shared names and arguments.
ghost use Rattle.std.specs.Prelude.{◌≡◌, IfOk};
ghost use Rattle.rule_ast.specs.Plain.{plain_cond};

use event_model::{NameArity, Pat, PatAtom};
use rule_ast::Cond;
use std::alloc::{AllocError, Global};

pub(crate) fn share_name(name: &NameArity) -> Result<NameArity, AllocError>
    ensures { IfOk result (λ n. n ≡ name.now) }
{
    Ok(NameArity {
        name: name.name.share()?,
        arity: name.arity,
    })
}

pub(crate) fn share_atom(atom: &PatAtom) -> Result<PatAtom, AllocError>
    ensures { IfOk result (λ a. a ≡ atom.now) }
{
    Ok(PatAtom {
        name: atom.name.share()?,
        args: atom.args.share()?,
    })
}

fn share_pat(pat: &Pat) -> Result<Pat, AllocError>
    ensures { IfOk result (λ p. p ≡ pat.now) }
{
    match pat {
        Pat::Var(slot) => Ok(Pat::Var(*slot)),
        Pat::Any => Ok(Pat::Any),
        Pat::Num(n) => Ok(Pat::Num(*n)),
        Pat::Sym(name) => Ok(Pat::Sym(name.share()?)),
        Pat::Text(text) => Ok(Pat::Text(text.share()?)),
        Pat::Comp(name, args) => Ok(Pat::Comp(name.share()?, args.share()?)),
    }
}

// An equal condition in cells of its own.
pub(crate) fn copy_cond(alloc: Global, cond: &Cond) -> Result<Cond, AllocError>
    ensures { IfOk result (λ c. plain_cond c ≡ plain_cond cond.now) }
{
    match cond {
        Cond::Value(pat) => Ok(Cond::Value(share_pat(pat)?)),
        Cond::Calc(calc, left, right) => {
            let x = copy_cond(alloc, left)?;
            let y = copy_cond(alloc, right)?;
            Ok(Cond::Calc(*calc, Box::new(alloc, x)?, Box::new(alloc, y)?))
        }
        Cond::Compare(cmp, left, right) => {
            let x = copy_cond(alloc, left)?;
            let y = copy_cond(alloc, right)?;
            Ok(Cond::Compare(*cmp, Box::new(alloc, x)?, Box::new(alloc, y)?))
        }
        Cond::AndAlso(left, right) => {
            let x = copy_cond(alloc, left)?;
            let y = copy_cond(alloc, right)?;
            Ok(Cond::AndAlso(Box::new(alloc, x)?, Box::new(alloc, y)?))
        }
        Cond::OrElse(left, right) => {
            let x = copy_cond(alloc, left)?;
            let y = copy_cond(alloc, right)?;
            Ok(Cond::OrElse(Box::new(alloc, x)?, Box::new(alloc, y)?))
        }
        Cond::Not(inner) => {
            let x = copy_cond(alloc, inner)?;
            Ok(Cond::Not(Box::new(alloc, x)?))
        }
    }
}
