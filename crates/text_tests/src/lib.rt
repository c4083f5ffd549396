//! The tests of files and written logs that are no tables: a file of the operating system, standard output, and items that no
//! text says. Tables are cases, of the programs above `case_tables`.
//!
//! Nothing stands on it, and without its tests it holds nothing.
#![tactic(auto)]

#[cfg(test)]
mod edges;
#[cfg(test)]
mod written_logs;
