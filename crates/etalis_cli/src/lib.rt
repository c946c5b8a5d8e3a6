//! The top call: the words' job, with lines from a source and what is written to a sink.
#![tactic(auto)]

mod accepting;
mod feeding;
mod jobs;
mod keeping;
mod laws;
mod notes;
mod refusals;
mod replying;
mod sending;
mod serving;
mod session;
mod status;
mod telling;
mod top;
mod voices;

pub use accepting::{MOST_FILE_BYTES, files_have_one_meaning};
pub use job_words::{Job, Mode, WordsFault, run_words};
pub use jobs::jobs_are_as_written;
pub use laws::what_is_written_stands;
pub use sending::FeedFault;
pub use serving::{INPUT_LIMIT, MOST_PIECE_BYTES, ServeFault, serve, serve_bytes};
pub use session::Session;
pub use status::{Status, exit_code};
pub use top::run;
pub use voices::{Tally, Voice};
