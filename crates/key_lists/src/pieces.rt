// A list in order, in pieces that are short enough to move their elements.
ghost use Rattle.std.specs.Prelude.{◌≡◌, ◌<◌, ◌≤◌, ◌+◌, ◌++◌, [], true, not, length, OnOk, OnErr};
ghost use Rattle.std.specs.List.{filter, insert};
ghost use Rattle.std.specs.Vec.{vec_len, vec_capacity};
ghost use Rattle.std.specs.Ordering.{is_eq};
ghost use Rattle.ordered_lists.specs.Canon.{place, Rising, Exact};
ghost use Rattle.key_lists.specs.Pieces.{joined, all_of, begins, is_full, piece_at, AllFull, InPieces, IsCut};

use crate::groups::{Probe, remove_like};
use crate::slack::trim_list;
use ordered_lists::insert_unique;
use std::alloc::{AllocError, Global};
use std::cmp::Ordering;

// A piece with so many elements is parted before one more comes.
const MOST: usize = 128;

// Two pieces side by side that have no more elements become one.
const FEW: usize = 64;

/// The elements of a list, in pieces one behind the other. None but the first is empty.
#[derive(Drop)]
pub(crate) struct Pieces<T> {
    pub(crate) first: Vec<T>,
    pub(crate) more: Vec<Vec<T>>,
}

// Stands for an element itself.
#[derive(Clone, Copy, Drop)]
struct Itself<'a, T> {
    item: &'a T,
}

impl<T: Ord> Probe<T> for Itself<'_, T> {
    ghost like = { λ s. s.item.now };

    fn compare(&self, item: &T) -> Ordering {
        item.cmp(self.item)
    }
}

// Whether a piece begins at the element that a probe stands for, or before it.
fn begins_by<T: Ord, P: Probe<T>>(piece: &[T], probe: &P) -> bool
    ensures { result ≡ begins T.cmp (P.like probe.now) piece.now }
{
    match piece.first() {
        None => true,
        Some(item) => match probe.compare(item) {
            Ordering::Greater => false,
            _ => true,
        },
    }
}

/// The number of the piece in which the element that a probe stands for is, or would be: 0 for the first, and from 1 on for those
/// behind it.
pub(crate) fn piece_of<T: Ord, P: Probe<T>>(more: &[Vec<T>], probe: &P) -> usize
    requires exact { Exact T.cmp }
    requires rising { Rising T.cmp (joined more.now) }
    requires full { AllFull more.now }
    ensures { IsCut T.cmp (P.like probe.now) more.now result }
{
    more.partition_point(|piece| begins_by(piece.as_slice(), probe))
}

// Takes the element that a probe stands for out of a piece; answers whether any is left there.
fn take_out<T: Ord + Drop, P: Probe<T>>(piece: &mut Vec<T>, probe: &P) -> bool
    requires exact { Exact T.cmp }
    requires rising { Rising T.cmp piece.old.items }
    ensures rest { piece.new.items ≡ filter (λ x. not (is_eq (T.cmp (P.like probe.now) x))) piece.old.items }
    ensures some { is_full piece.new.items ≡ result }
{
    remove_like(piece, probe);
    !piece.is_empty()
}

// A piece comes among the others where there is room for it.
fn put_piece<T: Drop>(more: &mut Vec<Vec<T>>, at: usize, piece: Vec<T>)
    requires within { at ≤ vec_len more.old }
    requires room { vec_len more.old < vec_capacity more.old }
    ensures { more.new.items ≡ insert more.old.items at piece }
{
    let _ = more.insert(at, piece);
}

// The elements of another piece come behind those of a piece that has room for them.
fn pour<T: Drop>(piece: &mut Vec<T>, mut behind: Vec<T>)
    requires room { vec_len piece.old + vec_len behind ≤ vec_capacity piece.old }
    ensures { piece.new.items ≡ piece.old.items ++ behind.items }
{
    let _ = piece.append(&mut behind);
}

// Makes one of a piece and the one behind it, where they have few elements and there is memory, so that the number of pieces
// goes down with that of the elements.
fn join<T: Drop>(more: &mut Vec<Vec<T>>, at: usize)
    requires full { AllFull more.old.items }
    ensures all { joined more.new.items ≡ joined more.old.items }
    ensures full { AllFull more.new.items }
{
    if more.len() < 2 || at > more.len() - 2 {
        return;
    }
    let behind = more[at + 1].len();
    if more[at].len() > FEW || behind > FEW - more[at].len() {
        return;
    }
    if more[at].reserve(behind).is_ok() {
        let behind = more.remove(at + 1);
        pour(&mut more[at], behind);
    }
}

// The same for a piece and the one on either side.
fn join_beside<T: Drop>(more: &mut Vec<Vec<T>>, at: usize)
    requires full { AllFull more.old.items }
    ensures all { joined more.new.items ≡ joined more.old.items }
    ensures full { AllFull more.new.items }
{
    join(more, at);
    if at > 0 {
        join(more, at - 1);
    }
}

// Where a piece of so many elements is parted.
fn seam(held: usize, is_last: bool) -> usize
    requires { 2 ≤ held }
    ensures some { 0 < result }
    ensures rest { result < held }
{
    if is_last { held - 1 } else { held / 2 }
}

impl<T: Ord + Drop> Pieces<T> {
    pub(crate) fn new(alloc: Global) -> Pieces<T>
        ensures all { all_of result ≡ [] }
        ensures ordered { InPieces T.cmp result }
    {
        Pieces {
            first: Vec::new(alloc),
            more: Vec::new(alloc),
        }
    }

    pub(crate) fn is_empty(&self) -> bool
        requires ordered { InPieces T.cmp self.now }
        ensures none { result ≡ true → all_of self.now ≡ [] }
    {
        self.first.is_empty() && self.more.is_empty()
    }

    // Puts an element into the piece under a number.
    fn put(&mut self, number: usize, item: T) -> Result<(), AllocError>
        requires exact { Exact T.cmp }
        requires ordered { InPieces T.cmp self.old }
        requires cut { IsCut T.cmp item self.old.more.items number }
        ensures placed { OnOk result (all_of self.new ≡ place T.cmp item (all_of self.old)) }
        ensures full { AllFull self.new.more.items }
        ensures err { OnErr result (all_of self.new ≡ all_of self.old) }
    {
        if number == 0 {
            insert_unique(&mut self.first, item)?;
        } else {
            insert_unique(&mut self.more[number - 1], item)?;
        }
        Ok(())
    }

    // Whether the piece under a number has so many elements that it is parted before one more comes.
    fn is_long(&self, number: usize) -> bool
        requires within { number ≤ length self.now.more.items }
        ensures { result ≡ true → 2 ≤ length (piece_at self.now number) }
    {
        let held = if number == 0 {
            self.first.len()
        } else {
            self.more[number - 1].len()
        };
        held >= MOST
    }

    // Parts the piece under a number. The last piece keeps all elements but one, since most elements come in order and so fill it.
    fn part(&mut self, number: usize) -> Result<(), AllocError>
        requires within { number ≤ length self.old.more.items }
        requires long { 2 ≤ length (piece_at self.old number) }
        requires full { AllFull self.old.more.items }
        ensures all { all_of self.new ≡ all_of self.old }
        ensures full { AllFull self.new.more.items }
    {
        let is_last = number == self.more.len();
        self.more.reserve(1)?;
        if number == 0 {
            let at = seam(self.first.len(), is_last);
            let behind = self.first.split_off(at)?;
            put_piece(&mut self.more, 0, behind);
        } else {
            let at = seam(self.more[number - 1].len(), is_last);
            let behind = self.more[number - 1].split_off(at)?;
            put_piece(&mut self.more, number, behind);
        }
        Ok(())
    }

    /// Puts an element at its place, where it isn't there yet.
    pub(crate) fn insert(&mut self, item: T) -> Result<(), AllocError>
        requires exact { Exact T.cmp }
        requires ordered { InPieces T.cmp self.old }
        ensures placed { OnOk result (all_of self.new ≡ place T.cmp item (all_of self.old)) }
        ensures err { OnErr result (all_of self.new ≡ all_of self.old) }
        ensures ordered { InPieces T.cmp self.new }
    {
        let number = piece_of(&self.more, &Itself { item: &item });
        if self.is_long(number) {
            self.part(number)?;
            let number = piece_of(&self.more, &Itself { item: &item });
            return self.put(number, item);
        }
        self.put(number, item)
    }

    /// Takes out the element that a probe stands for.
    pub(crate) fn remove_like<P: Probe<T>>(&mut self, probe: &P)
        requires exact { Exact T.cmp }
        requires ordered { InPieces T.cmp self.old }
        ensures rest { all_of self.new ≡ filter (λ x. not (is_eq (T.cmp (P.like probe.now) x))) (all_of self.old) }
        ensures ordered { InPieces T.cmp self.new }
    {
        let number = piece_of(&self.more, probe);
        if number == 0 {
            remove_like(&mut self.first, probe);
        } else if take_out(&mut self.more[number - 1], probe) {
            join_beside(&mut self.more, number - 1);
        } else {
            let _ = self.more.remove(number - 1);
            trim_list(&mut self.more);
        }
    }
}
