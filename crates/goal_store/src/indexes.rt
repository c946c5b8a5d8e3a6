// The rows of a step by the values at the slots of a key, in the order of an edge.
ghost use Rattle.std.specs.Prelude.{◌≡◌, true, not};
ghost use Rattle.std.specs.List.{filter};
ghost use Rattle.std.specs.Ordering.{is_lt};
ghost use Rattle.ordered_lists.specs.Canon.{has};
ghost use Rattle.key_lists.specs.Lists.{list_in, InOrder};
ghost use Rattle.key_lists.specs.Pieces.{all_lent, left, IsRun};
ghost use Rattle.interval_ops.specs.Operators.{edge_of};
ghost use Rattle.goal_store.specs.Places.{place_cmp, place_at, least_at};
ghost use Rattle.goal_store.specs.declared.places.Place.{Place};
ghost use Rattle.goal_store.specs.Rising.{InOrder-prop};

use crate::places::{Place, Spot};
use ev_bind::{Binding, Row};
use event_model::{Edge, Slots, Span};
use key_lists::{KeyLists, Position, Run};
use std::alloc::{AllocError, Global};

/// Rows under the hash of their key. The lists of two keys with one hash are one list.
#[derive(Drop)]
pub(crate) struct RowIndex {
    key: Slots,
    edge: Edge,
    lists: KeyLists<Place>,
    ghost rising: { InOrder place_cmp lists } by { InOrder-prop place_cmp lists },
}

/// The time of an edge of a span.
pub(crate) fn edge_time(edge: Edge, span: Span) -> u64
    ensures { result ≡ edge_of edge span }
{
    match edge {
        Edge::Start => span.start(),
        Edge::End => span.end(),
    }
}

impl RowIndex {
    ghost use Rattle.std.specs.Prelude.{false, OnOk, OnErr};
    ghost use Rattle.ev_bind.specs.Hashing.{code_of};
    ghost use Rattle.ev_bind.specs.Projections.{project};
    ghost use Rattle.goal_store.specs.Indexed.{Rows, IsIndex, also, less};
    ghost use Rattle.goal_store.specs.Steps.{kind};

    /// No row.
    pub(crate) fn new(alloc: Global, key: Slots, edge: Edge) -> RowIndex
        ensures listed { IsIndex result (λ r n. false) }
        ensures kind { kind result ≡ (key, edge) }
    {
        RowIndex {
            key,
            edge,
            lists: KeyLists::new(alloc),
        }
    }

    /// Lists a row under its number.
    pub(crate) fn insert(&mut self, row: &Row, number: usize) -> Result<(), AllocError>
        ensures ok { (held : Rows) → IsIndex self.old held → OnOk result (IsIndex self.new (also row.now number held)) }
        ensures err { (held : Rows) → IsIndex self.old held → OnErr result (IsIndex self.new held) }
        ensures kind { kind self.new ≡ kind self.old }
    {
        let place = Place {
            edge: edge_time(self.edge, row.span),
            row: row.share()?,
            number,
        };
        self.lists.insert(row.binding.hash_on(&self.key), place)
    }

    /// A row is listed under its number no more.
    pub(crate) fn remove(&mut self, row: &Row, number: usize)
        ensures less { (held : Rows) → IsIndex self.old held → IsIndex self.new (less row.now number held) }
        ensures kind { kind self.new ≡ kind self.old }
    {
        let spot = Spot {
            edge: edge_time(self.edge, row.span),
            row,
            number,
        };
        self.lists
            .remove_like(row.binding.hash_on(&self.key), &spot);
    }

    /// The list in which the rows with this key stand.
    pub(crate) fn places(&self, key: &Binding) -> Run<'_, Place>
        ensures all { all_lent result ≡ list_in self.now.lists (code_of (project self.now.key key.now)) }
        ensures run { IsRun place_cmp result }
    {
        self.lists.run(key.hash_on(&self.key))
    }
}

/// Where the rows begin whose edge isn't below a time.
#[tactic(auto, using(crate::specs::Places::exact_places))]
pub(crate) fn first_at(places: &Run<'_, Place>, low: u64) -> Position
    requires run { IsRun place_cmp places.now }
    ensures { left places.now result ≡ filter (λ x. not (is_lt (place_cmp x (least_at low)))) (all_lent places.now) }
{
    let least = Row {
        binding: Binding::empty(),
        span: Span::new(0, 0),
    };
    let spot = Spot {
        edge: low,
        row: &least,
        number: 0,
    };
    places.from_like(&spot)
}

/// Where a row stands, or would stand, under its number. The hint is tried first.
#[tactic(auto, using(crate::specs::Places::exact_places))]
pub(crate) fn place_of(
    places: &Run<'_, Place>,
    hint: Position,
    edge: Edge,
    row: &Row,
    number: usize,
) -> Position
    requires run { IsRun place_cmp places.now }
    requires one { (p : Place) → has place_cmp p (all_lent places.now) ≡ true → p.number ≡ number → p ≡ place_at edge row.now number }
    ensures { left places.now result ≡ filter (λ x. not (is_lt (place_cmp x (place_at edge row.now number)))) (all_lent places.now) }
{
    if let Some((place, _)) = places.next(hint) {
        if place.number == number {
            return hint;
        }
    }
    let spot = Spot {
        edge: edge_time(edge, row.span),
        row,
        number,
    };
    places.from_like(&spot)
}
