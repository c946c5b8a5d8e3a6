//! Terms, atoms, events and spans as shared values, their order, their canonical text, and how they are read.
#![tactic(auto)]

pub use event_model::{
    Atom, Detection, Edge, Event, Name, NameArity, Op, Pat, PatAtom, Pats, Slot, Slots, Span, Term,
    Terms, atom_text, cmp_detections, cmp_terms, term_text,
};
pub use term_reader::{TermFault, read_atom, read_ground};
