// Lists in pieces, lent to be walked over.
ghost use Rattle.std.specs.Prelude.{◌≡◌, ◌∷◌, [], ℕ, not, slice_get, MatchOption, option_map, ⊤};
ghost use Rattle.std.specs.List.{filter};
ghost use Rattle.std.specs.Ordering.{is_lt};
ghost use Rattle.std.specs.declared.cmp.Ordering.{Ordering};
ghost use Rattle.ordered_lists.specs.Canon.{Exact};
ghost use Rattle.key_lists.specs.Pieces.{all_lent, left, pieces_of, IsRun};

use crate::groups::{Probe, place_from_like};
use crate::pieces::piece_of;
use std::alloc::AllocError;

/// Where an element stands in a list in pieces.
#[derive(Clone, Copy, Debug, Drop)]
pub struct Position {
    pub(crate) piece: usize,
    pub(crate) at: usize,
}

impl Position {
    /// Before all elements.
    pub fn start() -> Position
        ensures { result ≡ record { piece = 0; at = 0 } }
    {
        Position { piece: 0, at: 0 }
    }
}

/// A list in order, lent in its pieces.
pub struct Run<'a, T> {
    pub(crate) first: &'a [T],
    pub(crate) more: &'a [Vec<T>],
}

impl<'a, T> Copy for Run<'a, T> {}

impl<'a, T> Clone for Run<'a, T> {
    ghost is_clone = { λ x y. (y.first.now ≡ x.first.now) × (y.more.now ≡ x.more.now) };

    ghost is_infallible = { λ _. ⊤ };

    fn clone(&self) -> Result<Run<'a, T>, AllocError> {
        Ok(*self)
    }
}

impl<'a, T> Run<'a, T> {
    /// No element.
    pub fn none() -> Run<'a, T>
        ensures all { all_lent result ≡ [] }
        ensures run { (R : T → T → Ordering) → IsRun R result }
    {
        Run {
            first: &[],
            more: &[],
        }
    }

    // The piece under a number.
    fn piece(&self, number: usize) -> Option<&'a [T]>
        ensures { option_map (λ s. s.now) result ≡ slice_get (pieces_of self.now) number }
    {
        if number == 0 {
            return Some(self.first);
        }
        match self.more.get(number - 1) {
            None => None,
            Some(items) => Some(items.as_slice()),
        }
    }

    /// The element at a position, and the position behind it.
    pub fn next(&self, position: Position) -> Option<(&'a T, Position)>
        ensures { MatchOption result (left self.now position ≡ []) (λ p. left self.now position ≡ p.0.now ∷ left self.now p.1) }
    {
        let mut at = position.at;
        for number in position.piece..self.more.len() + 1 {
            if let Some(items) = self.piece(number) {
                if let Some(item) = items.get(at) {
                    let behind = Position {
                        piece: number,
                        at: at + 1,
                    };
                    return Some((item, behind));
                }
            }
            at = 0;
        }
        None
    }
}

impl<'a, T: Ord> Run<'a, T> {
    /// Where the elements begin that aren't below the one that a probe stands for.
    pub fn from_like<P: Probe<T>>(&self, probe: &P) -> Position
        requires exact { Exact T.cmp }
        requires run { IsRun T.cmp self.now }
        ensures { left self.now result ≡ filter (λ x. not (is_lt (T.cmp x (P.like probe.now)))) (all_lent self.now) }
    {
        let number = piece_of(self.more, probe);
        if number == 0 {
            return Position {
                piece: 0,
                at: place_from_like(self.first, probe),
            };
        }
        Position {
            piece: number,
            at: place_from_like(&self.more[number - 1], probe),
        }
    }
}
