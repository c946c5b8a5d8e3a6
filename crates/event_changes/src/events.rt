// How a set of events changes.
use event_model::Event;

/// An event of which a first copy has come, or of which the last copy has gone.
#[derive(Drop)]
pub enum EventChange {
    Came(Event),
    Went(Event),
}
