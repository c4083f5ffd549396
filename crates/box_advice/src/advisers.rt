//! What makes the advisers of a search.
use crate::guide::Guide;
use crate::hinter::Hinter;
use derivations::Derivation;
use row_kit::{Domain, List, Program};
use std::alloc::{AllocError, Global};

/// What advisers are made for: a program that is searched.
///
/// The slots from the number `given` on are those of sums, each with two rows, from the first row on that counts such a slot. Points
/// have the slots of `choices`, and are judged by it: where the program has more, these are of setups, 0 or 1, and their rows follow
/// those of sums; derived rows may stand behind all. Where there are no sums, `given` is the number of slots of `choices`; where there
/// are no setups, `choices` is the program.
#[derive(Clone, Copy)]
pub struct Sought<'a> {
    pub program: &'a Program,
    pub choices: &'a Program,
    pub given: u32,
    /// The point that plans are looked for from; empty where none is known.
    pub start: &'a [u8],
}

/// What makes the advisers of searches, so that a search is proved whoever advises it. It promises nothing of what they advise.
pub trait Advisers {
    /// The guide of a search.
    type Guide: Guide + Drop;

    /// The hinter of a search.
    type Hinter: Hinter + Drop;

    /// The cuts and rows that a search of a program with its sums may declare over domains, one for each slot. They name rows by their
    /// numbers, derived ones behind the program's own.
    fn derived(
        alloc: Global,
        program: &Program,
        domains: &[Domain],
    ) -> Result<List<Derivation>, AllocError>;

    /// The guide and the hinter of a search of at most so many boxes; the guide may leave boxes open though budget is left.
    fn advised(
        alloc: Global,
        sought: &Sought,
        budget: u32,
    ) -> Result<(Self::Guide, Self::Hinter), AllocError>;

    /// The guide and the hinter of a search that leaves boxes open only where its budget is spent. It begins as that of `advised`.
    fn hinted(alloc: Global, sought: &Sought) -> Result<(Self::Guide, Self::Hinter), AllocError>;
}
