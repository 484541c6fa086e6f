//! How bytes are read and a text is written, so that a reader or a writer that fails is told.
#![tactic(auto)]

pub mod reading;
pub mod retrying;
pub mod tally;
pub mod told;
pub mod writing;

pub use reading::{BYTES_READ, ReadFault, read_bytes};
pub use retrying::Retrying;
pub use tally::Tally;
pub use told::{Sink, Source};
pub use writing::write_out;
