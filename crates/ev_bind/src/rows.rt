// Rows: what a pattern finds.
ghost use Rattle.std.specs.Prelude.{◌≡◌, IfOk};
ghost use Rattle.std.specs.Cmp.Lexicographic.{slice_cmp};
ghost use Rattle.std.specs.Cmp.{partial_equiv_from_equiv, partial_order_from_agreeing_total};
ghost use Rattle.std.specs.Ordering.{eq_by_cmp, as_partial_cmp};
ghost use Rattle.std.proofs.Common.{ap, refl};
ghost use Rattle.std.proofs.lemmas.Cmp.{eq_by_cmp_equiv};
ghost use Rattle.ev_bind.specs.Bindings.{pair_cmp};
ghost use Rattle.ev_bind.specs.Rows.{row_cmp, exact_rows, row_writes, same_rows};

use crate::bindings::Binding;
use crate::pairs::cmp_pair;
use event_model::{Span, cmp_spans};
use std::alloc::AllocError;
use std::cmp::Ordering;
use std::hash::{Hash, Hasher};

/// A binding of the variables of a pattern, and the span on which it was found.
#[derive(Drop)]
pub struct Row {
    pub binding: Binding,
    pub span: Span,
}

impl Row {
    /// An equal row that shares its binding.
    pub fn share(&self) -> Result<Row, AllocError>
        ensures { IfOk result (λ r. r ≡ self.now) }
    {
        Ok(Row {
            binding: self.binding.share()?,
            span: self.span,
        })
    }
}

// From the left, each by slot and then by term.
fn cmp_bindings(a: &Binding, b: &Binding) -> Ordering
    ensures { result ≡ slice_cmp pair_cmp a.now b.now }
{
    match (a.first(), b.first()) {
        (None, None) => Ordering::Equal,
        (None, Some(_)) => Ordering::Less,
        (Some(_), None) => Ordering::Greater,
        (Some(left), Some(right)) => {
            match cmp_pair(left.slot, &left.term, right.slot, &right.term) {
                Ordering::Less => Ordering::Less,
                Ordering::Equal => cmp_bindings(&left.rest, &right.rest),
                Ordering::Greater => Ordering::Greater,
            }
        }
    }
}

/// By start, end and then the pairs from the left.
pub fn cmp_rows(a: &Row, b: &Row) -> Ordering
    ensures { result ≡ row_cmp a.now b.now }
{
    match cmp_spans(a.span, b.span) {
        Ordering::Less => Ordering::Less,
        Ordering::Equal => cmp_bindings(&a.binding, &b.binding),
        Ordering::Greater => Ordering::Greater,
    }
}

impl Clone for Row {
    ghost use Rattle.std.specs.Prelude.{◌≡◌};

    ghost is_clone = { λ x y. y ≡ x };

    fn clone(&self) -> Result<Row, AllocError> {
        self.share()
    }
}

impl PartialEq for Row {
    ghost eq = { eq_by_cmp row_cmp };

    ghost laws = { partial_equiv_from_equiv (eq_by_cmp_equiv exact_rows.total) };

    // Most rows that differ have different hashes.
    #[tactic(auto, using(crate::specs::Rows::hashes_tell))]
    fn eq(&self, other: &Row) -> bool {
        self.binding.hash() == other.binding.hash() && cmp_rows(self, other).is_eq()
    }
}

impl Eq for Row {
    ghost laws = { eq_by_cmp_equiv exact_rows.total };
}

impl PartialOrd for Row {
    ghost partial_cmp = { as_partial_cmp row_cmp };

    ghost laws = { partial_order_from_agreeing_total row_cmp exact_rows.total (λ _ _. refl) (λ _ _. refl) };

    fn partial_cmp(&self, other: &Row) -> Option<Ordering> {
        Some(cmp_rows(self, other))
    }
}

impl Ord for Row {
    ghost cmp = { row_cmp };

    ghost total = { exact_rows.total };

    ghost matches_partial_cmp = { λ _ _. refl };

    ghost matches_eq = { λ _ _. refl };

    fn cmp(&self, other: &Row) -> Ordering {
        cmp_rows(self, other)
    }
}

impl Hash for Row {
    ghost hash_input = { row_writes };

    ghost respects_eq = { λ x y h. ap row_writes (same_rows x y h) };

    fn hash<H: Hasher>(&self, state: &mut H) {
        state.write_u64(self.binding.hash());
        state.write_u64(self.span.start());
        state.write_u64(self.span.end());
    }
}
