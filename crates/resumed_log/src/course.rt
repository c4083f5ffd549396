//! How far the writing of a log has come.

use crate::new_log::Out;
use box_advice::Hinter;
use branch_tree::GoingOn;
use end_advice::EndGuide;
use proof_tree::Capped;

/// How far the writing of a log has come.
#[derive(Drop)]
pub struct Course<'a, H: Hinter + Drop, G: EndGuide + Drop> {
    /// The search that goes on, with its best point.
    pub going: GoingOn<'a>,
    /// Where boxes are to be split.
    pub hinter: H,
    /// Which ends are to be entered, and which boxes.
    pub guide: G,
    /// The log.
    pub out: Out,
    /// How many open ends of the old log were come to.
    pub number: u64,
    /// How many of them might be searched on.
    pub entered: u32,
    /// The greatest of the caps and floors so far, but for those of boxes of one point.
    pub cap: Capped,
}
