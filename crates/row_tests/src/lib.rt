//! The tests of what stands below plants and logs that are no tables: takers and hinters that count or refuse, the deepest proof
//! and the deepest path of a search. Tables are cases, of the programs above `case_tables`.
//!
//! Nothing stands on it, and without its tests it holds nothing.
#![tactic(auto)]

#[cfg(test)]
mod searches;
#[cfg(test)]
mod tables;
#[cfg(test)]
mod trees;
