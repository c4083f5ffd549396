//! The gathering of a log's lines into the items of its proof and its claim.
ghost use Rattle.std.specs.Prelude.{◌≡◌, ◌+◌, ◌<◌, ◌^◌, ◌↔◌, List as Items, [], ◌∷◌, ◌++◌, None, Some, IfOk, IsTrue};
ghost use Rattle.log_lines.specs.declared.line.Line.{Line as AnyLine};
ghost use Rattle.log_lines.specs.Grammar.{Standing, new_standing, next};
ghost use Rattle.log_lines.specs.Line.{IsLine};
ghost use Rattle.proof_log.specs.Agree.{IsBody};
ghost use Rattle.proof_log.specs.Behind.{version_behind};
ghost use Rattle.proof_log.specs.declared.group.Group.TheVariants as Group;
ghost use Rattle.proof_log.specs.Gathered.{HasGathered, HasMade, IsGood, LineComes, MovesAs};
ghost use Rattle.proof_log.specs.Gathering.{followed, MayFollow};
ghost use Rattle.row_relax.specs.RowProofs.{RowItem};

use crate::claim::Claim;
use crate::gathering::follow;
use crate::group::{Group, Grown, Piece};
use log_lines::{Grammar, Limits, Line};
use proof_tree::Item;
use row_relax::Rows;
use std::alloc::{AllocError, Global};

/// What a line has made whole.
#[derive(Drop)]
pub enum Gathered {
    /// Nothing: the log goes on.
    On,
    /// The line may not stand here, or a number of it is too large: the kind of its defect.
    Bad(u8),
    /// An item of the proof, which began at a line.
    Item { line: u64, item: Item<Rows> },
    /// The claim, which began at a line.
    Claim { line: u64, claim: Claim },
}

/// Gathers the lines of a log into items and a claim. It holds the lines of one item at most.
#[derive(Drop)]
pub struct Gatherer {
    pub(crate) limits: Limits,
    pub(crate) grammar: Grammar,
    pub(crate) group: Group,
    /// How many lines were taken.
    pub(crate) number: u64,
    /// The line after those of the last item.
    pub(crate) began: u64,
}

impl Gatherer {
    /// A gatherer that has taken no line.
    pub(crate) fn new(alloc: Global, limits: Limits) -> Gatherer
        ensures limits { result.limits ≡ limits }
        ensures grammar { result.grammar ≡ new_standing }
        ensures gathered { HasGathered [] [] None result }
    {
        Gatherer {
            limits,
            grammar: Grammar::new(alloc),
            group: Group::Nothing,
            number: 0,
            began: 2,
        }
    }

    /// A gatherer that has taken the first line of the log that is read behind a head of this version.
    pub(crate) fn headed(alloc: Global, limits: Limits, version: u8) -> Result<Gatherer, AllocError>
        ensures limits { IfOk result (λ gatherer. gatherer.limits ≡ limits) }
        ensures grammar { IfOk result
            (λ gatherer. next new_standing (AnyLine.Header (version_behind version))
            ≡ Some gatherer.grammar) }
        ensures gathered { IfOk result
            (HasGathered (AnyLine.Header (version_behind version) ∷ []) [] None) }
    {
        let mut grammar = Grammar::new(alloc);
        let line = Line::Header {
            version: version_behind(version),
        };
        let _ = grammar.take(&limits, &line)?;
        Ok(Gatherer {
            limits,
            grammar,
            group: Group::Nothing,
            number: 1,
            began: 2,
        })
    }

    /// Takes the next line of a log.
    pub(crate) fn take(&mut self, alloc: Global, line: Line) -> Result<Gathered, AllocError>
        requires line { IsLine line }
        requires gathered { (lines : Items AnyLine) × (items : Items RowItem) × (claim : _)
            × HasGathered lines items claim self.old }
        ensures limits { self.new.limits ≡ self.old.limits }
        ensures moves { IfOk result
            (λ gathered. MovesAs self.old.limits self.old.grammar line self.new.grammar gathered) }
        ensures made { IfOk result
            (λ gathered. (lines : Items AnyLine) (items : Items RowItem) (claim : _)
            → HasGathered lines items claim self.old
            → HasMade (lines ++ line ∷ []) items claim self.new gathered) }
    {
        // No log has as many lines.
        if self.number >= u64::MAX - 1 {
            return Err(AllocError);
        }
        match self.grammar.take(&self.limits, &line)? {
            Some(kind) => Ok(Gathered::Bad(kind)),
            None => {
                self.number += 1;
                self.go_on(alloc, line)
            }
        }
    }

    // Takes a line that the grammar has taken. The header and the end line make nothing.
    fn go_on(&mut self, alloc: Global, line: Line) -> Result<Gathered, AllocError>
        requires room { self.old.number + 1 < 2 ^ 64 }
        requires comes { (before : Standing) × (lines : Items AnyLine)
            × (items : Items RowItem) × (claim : _)
            × LineComes before lines items claim line self.old }
        ensures limits { self.new.limits ≡ self.old.limits }
        ensures grammar { self.new.grammar ≡ self.old.grammar }
        ensures good { IfOk result IsGood }
        ensures made { IfOk result
            (λ gathered. (before : Standing) (lines : Items AnyLine) (items : Items RowItem)
            (claim : _)
            → LineComes before lines items claim line self.old
            → HasMade (lines ++ line ∷ []) items claim self.new gathered) }
    {
        if is_body(line) {
            return self.gather(alloc, line);
        }
        Ok(Gathered::On)
    }

    // Takes a line of an item or of the claim.
    fn gather(&mut self, alloc: Global, line: Line) -> Result<Gathered, AllocError>
        requires body { IsBody line }
        requires room { self.old.number + 1 < 2 ^ 64 }
        requires comes { (before : Standing) × (lines : Items AnyLine)
            × (items : Items RowItem) × (claim : _)
            × LineComes before lines items claim line self.old }
        ensures limits { self.new.limits ≡ self.old.limits }
        ensures grammar { self.new.grammar ≡ self.old.grammar }
        ensures good { IfOk result IsGood }
        ensures made { IfOk result
            (λ gathered. (before : Standing) (lines : Items AnyLine) (items : Items RowItem)
            (claim : _)
            → LineComes before lines items claim line self.old
            → HasMade (lines ++ line ∷ []) items claim self.new gathered) }
    {
        match self.grow(alloc, line)? {
            Grown::More(group) => {
                self.group = group;
                Ok(Gathered::On)
            }
            Grown::Whole(Piece::Item(item)) => {
                let line = self.began;
                self.began = self.number + 1;
                Ok(Gathered::Item { line, item })
            }
            Grown::Whole(Piece::Claim(claim)) => Ok(Gathered::Claim {
                line: self.began,
                claim,
            }),
        }
    }

    // What a line makes of the open group. After it none is open.
    fn grow(&mut self, alloc: Global, line: Line) -> Result<Grown, AllocError>
        requires { MayFollow self.old.limits.points self.old.group line }
        ensures same { self.new ≡ record self.old { group = Group.Nothing } }
        ensures grown { IfOk result
            (λ grown. grown ≡ followed self.old.limits.points self.old.group line) }
    {
        let group = std::mem::replace(&mut self.group, Group::Nothing);
        follow(alloc, self.limits.points as usize, group, line)
    }
}

// The version of the log that is read behind a head of a version.
fn version_behind(version: u8) -> u8
    ensures { result ≡ version_behind version }
{
    if version == 4 { 4 } else { 2 }
}

// Whether a line is neither the header nor the end line.
fn is_body(line: Line) -> bool
    ensures { IsTrue result ↔ IsBody line }
{
    match line {
        Line::Header { version: _ } => false,
        Line::End => false,
        _ => true,
    }
}
