// What of a list isn't in another.
ghost use Rattle.std.specs.Prelude.{◌≡◌, ◌∷◌, ◌++◌, if◌then◌else◌, [], Result, OnOk, IfOk};
ghost use Rattle.std.specs.Fn.{FnReturnsAt};
ghost use Rattle.std.specs.declared.alloc.AllocError.{AllocError};
ghost use Rattle.ordered_lists.specs.Canon.{has, Rising, Exact};
ghost use Rattle.ordered_lists.specs.Members.{without};

use crate::sorted::is_member;
use std::alloc::AllocError;

// Appends an equal of an element that isn't among the others.
fn push_missing<T: Ord + Drop, F: Fn(&T) -> Result<T, AllocError>>(
    item: &T,
    others: &[T],
    share: &F,
    out: &mut Vec<T>,
) -> Result<(), AllocError>
    requires exact { Exact T.cmp }
    requires rising { Rising T.cmp others.now }
    requires callable { F.IsAlwaysCallable share.now }
    requires shares { (x : T) (r : Result T AllocError) → FnReturnsAt F.Fn share.now x r → IfOk r (λ y. y ≡ x) }
    ensures { OnOk result (out.new.items ≡ out.old.items ++ (if has T.cmp item.now others.now then [] else item.now ∷ [])) }
{
    if is_member(item, others) {
        return Ok(());
    }
    out.push(share(item)?)?;
    Ok(())
}

/// Appends those of these elements that aren't among the others. The last argument but one gives an equal of an element, one that
/// shares with it what it can.
pub fn push_all_missing<T: Ord + Drop, F: Fn(&T) -> Result<T, AllocError>>(
    these: &[T],
    others: &[T],
    share: &F,
    out: &mut Vec<T>,
) -> Result<(), AllocError>
    requires exact { Exact T.cmp }
    requires rising { Rising T.cmp others.now }
    requires callable { F.IsAlwaysCallable share.now }
    requires shares { (x : T) (r : Result T AllocError) → FnReturnsAt F.Fn share.now x r → IfOk r (λ y. y ≡ x) }
    ensures { OnOk result (out.new.items ≡ out.old.items ++ without T.cmp these.now others.now) }
{
    for item in these {
        push_missing(item, others, share, out)?;
    }
    Ok(())
}
