//! Files of cases of commands: reading them, putting together the texts that they hold, and comparing what came of a run with what
//! its case says. Nothing is carried out here.
//!
//! It is proved to be safe and to end, whatever the files hold. docs/cases.md describes them.
#![tactic(auto)]

pub mod book;
pub mod came;
pub mod case;
pub mod entry;
pub mod files;
pub mod reading;
pub mod said;
pub mod showing;
pub mod stop;
pub mod texts;
pub mod trial;
pub mod ways;

pub use book::Book;
pub use came::Came;
pub use case::{Case, Step};
pub use entry::Entry;
pub use files::{File, copy_file, copy_files, file_of};
pub use reading::{CaseFile, read_cases};
pub use stop::{Stop, refuse};
pub use trial::Trial;
pub use ways::{Shift, Ways};
