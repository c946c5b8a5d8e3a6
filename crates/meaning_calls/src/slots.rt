// Sets of slots.
use event_model::{Slot, Slots};

#[test]
fn sets_of_slots(rt: HostRuntime) {
    let none = Slots::empty();
    let zero = none.add(Slot::new(0));
    let last = none.add(Slot::new(63));
    let both = zero.union(&last);
    assert!(rt; !none.has(Slot::new(0)) && zero.has(Slot::new(0)) && !zero.has(Slot::new(63)));
    assert!(rt; both.has(Slot::new(0)) && both.has(Slot::new(63)) && !both.has(Slot::new(1)));
    assert!(rt; both.meet(&last) == last && zero.meet(&last) == none);
    assert!(rt; zero.within(&both) && !both.within(&zero));
}
