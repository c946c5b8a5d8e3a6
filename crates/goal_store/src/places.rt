// A row in the list of an index, in the order of an edge.
ghost use Rattle.std.specs.Prelude.{◌≡◌};
ghost use Rattle.goal_store.specs.Places.{place_cmp, like_spot};

use ev_bind::Row;
use key_lists::Probe;
use std::cmp::Ordering;

/// A row under its number, by the time of an edge and then as rows are in order. The number tells nothing apart where
/// a row has one number.
#[derive(Drop, PartialEq, Eq, PartialOrd, Ord)]
pub(crate) struct Place {
    pub(crate) edge: u64,
    pub(crate) row: Row,
    pub(crate) number: usize,
}

/// Stands for a place, and doesn't own its row.
#[derive(Clone, Copy, Drop)]
pub(crate) struct Spot<'a> {
    pub(crate) edge: u64,
    pub(crate) row: &'a Row,
    pub(crate) number: usize,
}

impl Probe<Place> for Spot<'_> {
    ghost like = { like_spot };

    fn compare(&self, item: &Place) -> Ordering {
        match item.edge.cmp(&self.edge) {
            Ordering::Less => Ordering::Less,
            Ordering::Greater => Ordering::Greater,
            Ordering::Equal => match item.row.cmp(self.row) {
                Ordering::Less => Ordering::Less,
                Ordering::Greater => Ordering::Greater,
                Ordering::Equal => item.number.cmp(&self.number),
            },
        }
    }
}
