//! Items of a log.
use dual_bound::{Cert, Mult};
use proof_log::put_item;
use proof_tree::Item;
use row_kit::List;
use std::alloc::{AllocError, Global};
use std::test::Fail;

/// A certificate with the factors of two rows.
fn two_rows(alloc: Global) -> Result<Cert, AllocError> {
    let mults = [
        Mult { row: 1, factor: 5 },
        Mult {
            row: 4,
            factor: 1_099_511_627_776,
        },
    ];
    Ok(Cert {
        scale: 2,
        mults: List::from_slice(alloc, &mults)?,
    })
}

#[test]
fn puts_items(rt: HostRuntime) -> Result<(), Fail> {
    let alloc = rt.alloc();
    let mut text = Vec::new(alloc);
    put_item(alloc, &Item::Pending(two_rows(alloc)?), &mut text)?;
    put_item(alloc, &Item::Empty, &mut text)?;
    let expected = b"pending 2 2\nmult 1 5\nmult 4 1099511627776\nempty\n";
    assert!(rt; text.as_slice() == expected.as_slice());
    Ok(())
}
