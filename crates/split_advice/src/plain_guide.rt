//! The guide of a search that is not advised where to split.
use box_advice::{Advice, Asked, Guide};
use dual_simplex::solve_dual;
use row_kit::{Area, Program};
use std::alloc::AllocError;

/// Advises the certificate of the dual simplex and no slot to split, and leaves no box open.
#[derive(Drop)]
pub struct PlainGuide;

impl Guide for PlainGuide {
    fn leaves(&mut self, _program: &Program, _area: &Area, _depth: u32) -> bool {
        false
    }

    fn advise(&mut self, asked: &Asked, _point: &mut [u8]) -> Result<Advice, AllocError> {
        let cert = solve_dual(asked.alloc, asked.program, asked.area)?;
        Ok(Advice {
            cert: Some(cert),
            slot: None,
            max: None,
        })
    }
}
