// Counts of rows and copies of events, call by call.
use crate::{Change, Copies, Supports};
use ev_bind::{Binding, Row};
use event_model::{Atom, Event, Name, Shared, Span};
use std::test::Fail;

#[test]
fn counts_rise_and_fall(rt: HostRuntime) -> Result<(), Fail> {
    let alloc = rt.alloc();
    let row = Row {
        binding: Binding::empty(),
        span: Span::new(1, 2),
    };
    let mut supports = Supports::new(alloc);
    assert_eq!(rt; supports.add(3, &row, 2)?, Change::Appeared);
    assert_eq!(rt; supports.take(3, &row, 1), Change::Same);
    assert_eq!(rt; supports.count(3, &row), 1);
    assert_eq!(rt; supports.take(3, &row, 1), Change::Vanished);
    let event = Event {
        span: Span::new(2, 5),
        atom: Atom {
            name: Name::new(alloc, "a")?,
            args: Shared::new(alloc, Vec::new(alloc))?,
        },
    };
    let mut copies = Copies::new(alloc);
    assert_eq!(rt; copies.add(&event)?, Change::Appeared);
    assert_eq!(rt; copies.add(&event)?, Change::Same);
    assert_eq!(rt; copies.held(), 1);
    assert_eq!(rt; copies.take(&event), Some(Change::Same));
    copies.drop_below(5);
    assert!(rt; copies.has(&event));
    assert_eq!(rt; copies.take(&event), Some(Change::Vanished));
    assert_eq!(rt; copies.take(&event), None);
    copies.add(&event)?;
    copies.drop_below(6);
    assert!(rt; !copies.has(&event));
    assert_eq!(rt; copies.held(), 0);
    Ok(())
}
