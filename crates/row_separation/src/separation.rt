//! Separation at the root of a program.
use crate::bare::{Sums, sums_of, without_sums};
use crate::bound::{Bound, bounded};
use crate::families::{Window, windows};
use crate::history::History;
use crate::rounds::{cut_root, separated, with_rows, without_slack};
use chain_simplex::Basis;
use derivations::Derivation;
use fixed_point::numbered;
use row_finding::Work;
use row_kit::{Domain, List, Program};
use std::alloc::{AllocError, Global};

// The most rounds in a row in which the bound hardly falls, with rows alone and windows, and with all mixtures.
const MOST_STILL: u32 = 2;

const MOST_STILL_WIDE: u32 = 3;

// With fewer derived rows those that went come back in the end.
const FEW_ROWS: usize = 48;

/// How far separation goes at most.
#[derive(Clone, Copy)]
pub struct Effort {
    /// The rounds, of a bound and of a search for broken rows each.
    pub rounds: u32,
    /// The work of all rounds: values that are rounded and entries that are mixed.
    pub work: u64,
    /// The pivots of all bounds.
    pub pivots: u32,
}

/// The derivations that a search of a program declares: the cuts that shrink the domains at its root, and rows that are derived from its
/// rows, each of which was broken where the bound stood with those before it. They name each other by the numbers that they have
/// behind the program's rows, and each is shown over the domains, one for each slot, that the cuts before it leave. None where the
/// domains are not such, or nothing pays.
///
/// The slots of sums, which stand at the end or before those of setups, are not looked at. It takes memory for a copy of the rows, and
/// costs at most the effort.
pub fn separate(
    alloc: Global,
    program: &Program,
    domains: &[Domain],
    effort: Effort,
) -> Result<List<Derivation>, AllocError> {
    if domains.len() != program.root.len() {
        return Ok(List::new(alloc));
    }
    let sums = sums_of(program);
    match without_sums(alloc, program, domains, &sums)? {
        None => Ok(List::new(alloc)),
        Some(bare) => derived(alloc, bare, sums, effort),
    }
}

// Where the rounds stand: from which basis the next bound begins, what is left, what the bound was at first and last, in how many rounds
// it has hardly fallen, and whether all mixtures are tried, or rows alone and windows.
#[derive(Drop)]
struct Progress {
    basis: Basis,
    work: Work,
    pivots: u32,
    first: Option<i128>,
    last: i128,
    still: u32,
    wide: bool,
}

// The derivations of a program whose sums are left out.
fn derived(
    alloc: Global,
    program: Program,
    sums: Sums,
    effort: Effort,
) -> Result<List<Derivation>, AllocError> {
    let mut history = History::new(alloc, numbered(program.rows.len()), sums);
    let windows = windows(alloc, program.rows.as_slice())?;
    let mut progress = Progress {
        basis: Basis::new(alloc, &program)?,
        work: Work { left: effort.work },
        pivots: effort.pivots,
        first: None,
        last: 0,
        still: 0,
        wide: false,
    };
    let mut grown = program;
    for _ in 0..effort.rounds {
        match round(
            alloc,
            grown,
            windows.as_slice(),
            &mut progress,
            &mut history,
        )? {
            None => break,
            Some(next) => grown = next,
        }
    }
    history.take_back(FEW_ROWS);
    history.declared(alloc)
}

// The program after a round; None after the last one.
fn round(
    alloc: Global,
    program: Program,
    windows: &[Window],
    progress: &mut Progress,
    history: &mut History,
) -> Result<Option<Program>, AllocError> {
    let (cut, open) = cut_root(alloc, program, history)?;
    if !open {
        return Ok(None);
    }
    let bound = bounded(alloc, &cut, &progress.basis, progress.pivots, progress.wide)?;
    if !progress.goes_on(&bound) {
        return Ok(None);
    }
    match without_slack(alloc, cut, &bound, history)? {
        None => Ok(None),
        Some(thin) => with_found(alloc, thin, bound, windows, progress, history),
    }
}

// A program without slack rows with those that are found; None after the last round.
fn with_found(
    alloc: Global,
    thin: Program,
    bound: Bound,
    windows: &[Window],
    progress: &mut Progress,
    history: &mut History,
) -> Result<Option<Program>, AllocError> {
    let Bound {
        point,
        mixes,
        basis,
        ..
    } = bound;
    progress.basis = basis;
    let found = separated(
        alloc,
        &thin,
        point,
        mixes,
        windows,
        progress.wide,
        &mut progress.work,
    )?;
    if found.is_empty() {
        return Ok(if progress.widens() { Some(thin) } else { None });
    }
    let next = with_rows(alloc, thin, found, history)?;
    Ok(Some(next))
}

impl Progress {
    // Notes a bound; whether to go on.
    fn goes_on(&mut self, bound: &Bound) -> bool {
        self.pivots = self.pivots.saturating_sub(bound.pivots);
        let first = match self.first {
            None => bound.worth,
            Some(first) => first,
        };
        let fall = self.last.saturating_sub(bound.worth);
        let whole = first.saturating_sub(bound.worth).saturating_abs();
        let small = (whole / 200).saturating_add(first.saturating_abs() / 1_000_000);
        if self.first != None && fall < small {
            self.still = self.still.saturating_add(1);
        } else {
            self.still = 0;
        }
        self.first = Some(first);
        self.last = bound.worth;
        (!self.is_stalled() || self.widens()) && self.pivots > 0 && !self.work.is_over()
    }

    // Whether the bound has hardly fallen for too long.
    fn is_stalled(&self) -> bool {
        let most = if self.wide {
            MOST_STILL_WIDE
        } else {
            MOST_STILL
        };
        self.still >= most
    }

    // Tries all mixtures from now on; false where they are tried already.
    fn widens(&mut self) -> bool {
        let widens = !self.wide;
        self.wide = true;
        self.still = 0;
        widens
    }
}
