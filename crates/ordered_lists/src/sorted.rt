ghost use Rattle.std.specs.Prelude.{◌≡◌, true, not, IsOk, OnOk, OnErr, IfOk};
ghost use Rattle.ordered_lists.specs.Canon.{canon, place, has, Rising, Exact};

use std::alloc::AllocError;

/// Puts a list in order and drops repetitions. Where memory fails, the list stays as it was.
pub fn sort_unique<T: Ord + Drop>(items: &mut Vec<T>) -> Result<(), AllocError>
    requires { Exact T.cmp }
    ensures ok { OnOk result (items.new.items ≡ canon T.cmp items.old.items) }
    ensures err { OnErr result (items.new.items ≡ items.old.items) }
{
    items.sort()?;
    items.dedup();
    Ok(())
}

/// Puts an element at its place in a list in order, where it isn't there yet; answers whether it came in.
/// Memory fails only for an element that isn't there, and the list then stays as it was.
pub fn insert_unique<T: Ord + Drop>(items: &mut Vec<T>, item: T) -> Result<bool, AllocError>
    requires exact { Exact T.cmp }
    requires rising { Rising T.cmp items.old.items }
    ensures came { IfOk result (λ came. came ≡ not (has T.cmp item items.old.items)) }
    ensures placed { OnOk result (items.new.items ≡ place T.cmp item items.old.items) }
    ensures present { has T.cmp item items.old.items ≡ true → IsOk result }
    ensures err { OnErr result (items.new.items ≡ items.old.items) }
{
    match items.binary_search(&item) {
        Ok(_) => Ok(false),
        Err(at) => {
            items.insert(at, item)?;
            Ok(true)
        }
    }
}

/// Whether an element is in a list in order.
pub fn is_member<T: Ord>(item: &T, items: &[T]) -> bool
    requires exact { Exact T.cmp }
    requires rising { Rising T.cmp items.now }
    ensures { result ≡ has T.cmp item.now items.now }
{
    items.binary_search(item).is_ok()
}

#[cfg(test)]
mod tests {
    use super::*;
    use std::test::Fail;

    #[test]
    #[tactic(auto, using(crate::specs::Orders::exact_numbers, crate::specs::Members::stays_rising))]
    fn keeps_each_number_once_in_order(rt: HostRuntime) -> Result<(), Fail> {
        let mut items = vec![in rt.alloc(); 7_u64, 3, 7, 5, 3]?;
        sort_unique(&mut items)?;
        assert_eq!(rt; items.as_slice(), [3, 5, 7].as_slice());
        let came = insert_unique(&mut items, 4)?;
        assert!(rt; came);
        let again = insert_unique(&mut items, 7)?;
        assert!(rt; !again);
        let last = insert_unique(&mut items, 9)?;
        assert!(rt; last);
        assert_eq!(rt; items.as_slice(), [3, 4, 5, 7, 9].as_slice());
        assert!(rt; is_member(&3, &items));
        assert!(rt; !is_member(&6, &items));
        assert!(rt; is_member(&9, &items));
        Ok(())
    }
}
