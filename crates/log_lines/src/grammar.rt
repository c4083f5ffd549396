//! Which line of a log may stand where.
ghost use Rattle.std.specs.Prelude.{◌≡◌, false, reverse, length, Some, IsTrue, ◌↔◌, IfOk, OnOk, OnErr, MatchOption};
ghost use Rattle.log_lines.specs.declared.grammar.Place.TheVariants as place;
ghost use Rattle.log_lines.specs.Grammar.{Standing, after_part, after_step, is_right, line_defect, new_standing, next, part_place};

use crate::kinds::GRAMMAR;
use crate::limits::over;
use crate::line::Line;
use crate::step::{Step, step_of};
use std::alloc::{AllocError, Global};
use std::marker::Model;

/// What comes next in a log.
#[derive(Clone, Copy, PartialEq, Eq, Debug)]
pub enum Place {
    /// The first line.
    Header,

    /// The line `node` of a part.
    Node,

    /// After a node line or a cut: a cut, a found group or an ending.
    Inside,

    /// After a found group: an ending.
    Ending,

    /// After a floor: its split.
    Floored,

    /// So many value lines, with slots above the last one, of a claim or of a found group.
    Values {
        left: u128,
        above: Option<u128>,
        of_claim: bool,
    },

    /// So many mult lines, with rows above the last one, of a split or of another ending.
    Mults {
        left: u128,
        above: Option<u128>,
        splits: bool,
    },

    /// The claim.
    Claim,

    /// The line `end`.
    End,

    /// Nothing.
    Done,
}

/// What the numbers of a log are at most.
#[derive(Clone, Copy, PartialEq, Eq, Debug)]
pub struct Limits {
    /// Rows are below this.
    pub rows: u32,

    /// The slots of cuts and splits are below this.
    pub slots: u32,

    /// The slots of the points of groups are below this: so many values a point has.
    pub points: u32,

    /// So many splits may be open at a node line.
    pub depth: u32,
}

/// How far the lines of a log have come. Its memory grows with the open splits alone.
#[derive(Drop)]
pub struct Grammar {
    version: u8,
    place: Place,
    sides: Vec<bool>,
}

impl Model for Grammar {
    ghost use Rattle.std.specs.Prelude.{reverse};
    ghost use Rattle.log_lines.specs.Grammar.{Standing};

    ghost Value = { Standing };

    ghost view = { λ g. record { version = g.version; place = g.place; sides = reverse g.sides.items } };
}

impl Grammar {
    /// A log of which no line was taken.
    pub fn new(alloc: Global) -> Grammar
        ensures { result ≡ new_standing }
    {
        Grammar {
            version: 1,
            place: Place::Header,
            sides: Vec::new(alloc),
        }
    }

    /// Takes the next line, or answers the kind of its defect: that it may not stand here, or that a number is too large. After
    /// a defect or want of memory the grammar is as before.
    pub fn take(&mut self, limits: &Limits, line: &Line) -> Result<Option<u8>, AllocError>
        ensures kind { IfOk result (λ kind. kind ≡ line_defect limits.now self.old line.now) }
        ensures moves { IfOk result
            (λ kind. MatchOption kind (next self.old line.now ≡ Some self.new)
            (λ _. self.new ≡ self.old)) }
        ensures err { OnErr result (self.new ≡ self.old) }
    {
        match step_of(self.version, self.place, line) {
            Some(step) => match over(limits, self.sides.len(), line) {
                Some(kind) => Ok(Some(kind)),
                None => {
                    self.go(step)?;
                    Ok(None)
                }
            },
            None => Ok(Some(GRAMMAR)),
        }
    }

    // Takes a step.
    fn go(&mut self, step: Step) -> Result<(), AllocError>
        ensures ok { OnOk result (self.new ≡ after_step self.old step) }
        ensures err { OnErr result (self.new ≡ self.old) }
    {
        match step {
            Step::Begins { version } => {
                self.version = version;
                self.place = Place::Node;
            }
            Step::At { place } => self.place = place,
            Step::Opens => {
                self.sides.push(false)?;
                self.place = Place::Node;
            }
            Step::Ends => self.place = end_part(&mut self.sides),
        }
        Ok(())
    }

    /// The version of the log; 1 before its first line.
    pub fn version(&self) -> u8
        ensures { result ≡ self.now.version }
    {
        self.version
    }

    /// What comes next.
    pub fn place(&self) -> Place
        ensures { result ≡ self.now.place }
    {
        self.place
    }

    /// Whether the last line was taken.
    pub fn is_done(&self) -> bool
        ensures { IsTrue result ↔ (self.now.place ≡ place.Done) }
    {
        matches!(self.place, Place::Done)
    }
}

// Ends the innermost part: what comes after it.
fn end_part(sides: &mut Vec<bool>) -> Place
    ensures sides { reverse sides.new.items ≡ after_part (reverse sides.old.items) }
    ensures place { result ≡ part_place (after_part (reverse sides.old.items)) }
{
    drop_rights(sides);
    if sides.is_empty() {
        return Place::Claim;
    }
    let last = sides.len() - 1;
    sides[last] = true;
    Place::Node
}

// Drops the right parts that have ended too.
fn drop_rights(sides: &mut Vec<bool>)
    ensures same { after_part (reverse sides.new.items) ≡ after_part (reverse sides.old.items) }
    ensures left { is_right (reverse sides.new.items) ≡ false }
{
    'rights: while is_right(sides.as_slice()) {
        sides.pop();
    }
}

// Whether the innermost part is a right one.
fn is_right(sides: &[bool]) -> bool
    ensures { result ≡ is_right (reverse sides.now) }
{
    match sides {
        [.., side] => *side,
        [] => false,
    }
}
