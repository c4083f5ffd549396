//! The text of proofs and of what they claim, as logs of lines.
//!
//! `put_log` appends the text of a log, `put_proof` and `put_claim` the lines of a proof and of a claim, and `LogWriter` writes
//! the same lines to a file, piece by piece.
//!
//! `LogReader` reads a log from a file, part by part: items that may come one after another, the claim once they are those of a
//! whole proof, and the end, with which the file is the text of a log without a defect; or the first text defect of the file. It
//! holds the lines of one item at most. Behind a head of the file it reads the log whose first line stood there, of version 4 or 2.
//! `first_defect` gives the first text defect of a log, or none. `read_log` gives the log of which some bytes are the text, so
//! that `put_log` of it is those bytes again, or their first text defect.
#![tactic(auto)]

mod claim;
mod claims;
mod gatherer;
mod gathering;
mod group;
mod items;
mod laws;
mod log;
mod log_reader;
mod naming;
mod nodes;
mod parts;
mod read;
mod scan;
mod whole;
mod writer;

pub use claim::Claim;
pub use claims::put_claim;
pub use items::put_item;
pub use laws::{
    clean_texts_are_logs, logs_are_accepted, logs_have_no_defect, logs_have_one_text,
    logs_may_be_written,
};
pub use log::Log;
pub use log_reader::{LogPart, LogReader};
pub use naming::log_name;
pub use nodes::put_proof;
pub use read::{LogStop, read_log};
pub use scan::first_defect;
pub use whole::put_log;
pub use writer::LogWriter;

// A crate can name these in a contract only if they are exported.
#[doc(hidden)]
pub use gatherer::{Gathered, Gatherer};
#[doc(hidden)]
pub use group::{Group, Grown, MultHead, Piece, ValueHead};
