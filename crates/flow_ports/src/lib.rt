//! Streams and files, by the bytes that they give and take and by a count of their faults.
#![tactic(auto)]

mod memory;
mod ports;
mod real;
mod sure;
#[cfg(test)]
mod tests;
mod whole;

pub use memory::{MemShelf, MemSink, MemSource};
pub use ports::{Failed, LAST_COUNT, Shelf, Sink, Source};
pub use real::{FileShelf, FromReader, ToWriter};
pub use sure::{SureSink, SureSource};
pub use whole::{WholeFault, read_whole, write_whole};
