//! Hinters and guides that try a search.
use branch_tree::{Advice, Asked, Guide, Hinter};
use dual_bound::{Cert, Mult};
use row_kit::{Area, List, Program};
use std::alloc::{AllocError, Global};

/// Offers nothing.
#[derive(Drop)]
pub struct Silent;

impl Hinter for Silent {
    fn offer(&mut self, _program: &Program, _area: &Area, _point: &mut [u8]) -> bool {
        false
    }
}

/// Says of one point at every box that it is lawful; of 255 in every slot where it has no point of as many slots.
#[derive(Drop)]
pub struct Teller {
    pub point: Vec<u8>,
}

impl Hinter for Teller {
    fn offer(&mut self, _program: &Program, _area: &Area, point: &mut [u8]) -> bool {
        tell(self.point.as_slice(), point);
        true
    }
}

fn tell(told: &[u8], point: &mut [u8]) {
    if told.len() == point.len() {
        point.copy_from_slice(told);
    } else {
        point.fill(255);
    }
}

/// Advises a certificate without a total and a slot that is not there, and may leave every part open.
#[derive(Drop)]
pub struct Liar {
    pub leaves: bool,
}

impl Guide for Liar {
    fn leaves(&mut self, _program: &Program, _area: &Area, _depth: u32) -> bool {
        self.leaves
    }

    fn advise(&mut self, asked: &Asked, point: &mut [u8]) -> Result<Advice, AllocError> {
        point.fill(255);
        lie(asked.alloc)
    }
}

fn lie(alloc: Global) -> Result<Advice, AllocError> {
    Ok(Advice {
        cert: Some(cert_of_no_rows(alloc)?),
        slot: Some(4_000_000_000),
        max: Some(255),
    })
}

// A certificate with a row that no program has, and with a factor of 0.
fn cert_of_no_rows(alloc: Global) -> Result<Cert, AllocError> {
    let mults = [
        Mult {
            row: 45_904,
            factor: 0,
        },
        Mult { row: 3, factor: 1 },
    ];
    Ok(Cert {
        scale: 4_000_000_000,
        mults: List::from_slice(alloc, &mults)?,
    })
}

/// Advises to split the first slot at a value.
#[derive(Drop)]
pub struct Splitter {
    pub max: u8,
}

impl Guide for Splitter {
    fn leaves(&mut self, _program: &Program, _area: &Area, _depth: u32) -> bool {
        false
    }

    fn advise(&mut self, _asked: &Asked, _point: &mut [u8]) -> Result<Advice, AllocError> {
        Ok(Advice {
            cert: None,
            slot: Some(0),
            max: Some(self.max),
        })
    }
}
