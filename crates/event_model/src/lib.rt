//! Terms, atoms, events and spans as shared values, their order and their canonical text, and what lines of events say.
#![tactic(auto)]

mod atoms;
mod compare;
mod events;
mod inputs;
mod laws;
mod lists;
mod names;
mod operators;
mod slot_sets;
mod terms;
mod texts;

pub use atoms::{Atom, NameArity, PatAtom};
pub use compare::{cmp_atoms, cmp_detections, cmp_events, cmp_name_arities, cmp_spans, cmp_terms};
pub use events::{Detection, Event, Span, TIME_LIMIT};
pub use inputs::{Input, Judgement, MOST_LINE_BYTES, Refusal};
pub use laws::sets_are_their_members;
pub use lists::Shared;
pub use names::Name;
pub use operators::{Edge, Op};
pub use slot_sets::Slots;
pub use terms::{MOST_ARGUMENTS, MOST_DEPTH, MOST_SLOTS, Pat, Pats, Slot, Term, Terms};
pub use texts::{atom_text, term_text};
