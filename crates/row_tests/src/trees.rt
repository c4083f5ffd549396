//! Proofs that are as deep as a log may be, and takers that count.
ghost use Rattle.std.specs.Prelude.{◌≡◌, ◌+◌, ◌≤◌, length, ⊤};
ghost use Rattle.std.proofs.Common.{arith};

use crate::tables::{WIDE, over_rows};
use dual_bound::Cert;
use proof_tree::{Capped, End, Item, List as Cuts, NodeTaker, Proof, TakeStop, cap_of};
use range_prop::RowCut;
use row_kit::{Found, List};
use row_relax::{RowPick, RowProof, Rows};
use std::alloc::{AllocError, Global};
use std::test::Fail;

/// A node that ends so, without cuts.
fn node(alloc: Global, end: End<RowCut, Cert, RowPick, Found>) -> RowProof {
    Proof {
        cuts: Cuts::new(alloc),
        found: None,
        end,
    }
}

/// A certificate without factors.
fn plain(alloc: Global) -> Cert {
    Cert {
        scale: 1,
        mults: List::new(alloc),
    }
}

/// A split of which a certificate closes one part, and a proof the other: one value of its slot less at each of nine rounds.
fn split(alloc: Global, level: u32, rest: RowProof) -> Result<RowProof, AllocError> {
    let closed = Box::new(alloc, node(alloc, End::Dual(plain(alloc))))?;
    let rest = Box::new(alloc, rest)?;
    let slot = level % 512;
    let round = (level / 512).min(8) as u8;
    let end = if slot % 2 == 0 {
        let pick = RowPick {
            slot,
            max: 8 - round,
            floor: None,
        };
        End::Split(pick, plain(alloc), closed, rest)
    } else {
        let pick = RowPick {
            slot,
            max: 246 + round,
            floor: None,
        };
        End::Split(pick, plain(alloc), rest, closed)
    };
    Ok(node(alloc, end))
}

/// A proof in which 4,607 splits are open at its deepest node.
fn deepest(alloc: Global) -> Result<RowProof, AllocError> {
    let mut proof = node(alloc, End::Dual(plain(alloc)));
    for level in 1..4_608u32 {
        proof = split(alloc, level, proof)?;
    }
    Ok(proof)
}

// The cap of the deepest proof over the root, and the mark of the area afterwards.
fn deepest_cap(alloc: Global, rows: &Rows) -> Result<(Capped, u32), AllocError> {
    let proof = deepest(alloc)?;
    let mut area = rows.root_area(alloc)?;
    let cap = cap_of(rows, &mut area, &proof);
    Ok((cap, area.mark()))
}

#[test]
fn the_deepest_proof_fits_the_stack(rt: HostRuntime) -> Result<(), Fail> {
    let alloc = rt.alloc();
    let rows = Rows {
        program: over_rows(alloc, WIDE, List::new(alloc))?.ok_or("bounds")?,
        choices: None,
    };
    let (cap, mark) = deepest_cap(alloc, &rows)?;
    assert!(rt; cap == Capped::AtMost(130_560) && mark == 0);
    Ok(())
}

/// A taker that counts the items.
#[derive(Drop)]
struct Counter;

impl NodeTaker<Rows, u64> for Counter {
    ghost faults = { λ _. 0 };

    ghost ready = { λ _ _. ⊤ };

    ghost took = { λ _ before items _ after. after ≡ before + length items };

    ghost broke = { λ _ before items _ after. after ≤ before + length items };

    ghost took_none = { λ _ before. Prim.omega arith };

    fn put(&mut self, out: &mut u64, _item: &Item<Rows>) -> Result<(), TakeStop> {
        match out.checked_add(1) {
            Some(count) => {
                *out = count;
                Ok(())
            }
            None => Err(TakeStop::Memory),
        }
    }
}

#[test]
fn items_are_counted(rt: HostRuntime) {
    let mut count = u64::MAX - 1;
    assert_eq!(rt; Counter.put(&mut count, &Item::Node), Ok(()));
    let full = Counter.put(&mut count, &Item::Empty);
    assert_eq!(rt; full, Err(TakeStop::Memory));
    assert_eq!(rt; count, u64::MAX);
}
