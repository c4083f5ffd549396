//! A log from its bytes.
ghost use Rattle.std.specs.Prelude.{◌≡◌, ◌≢◌, ℕ, List as Items, [], ◌∷◌, ◌++◌, Option, Some, None, Err, IfOk, codes};
ghost use Rattle.stn_edge.specs.Files.{FileMap, file_of};
ghost use Rattle.proof_tree.specs.Built.{IsBuilt};
ghost use Rattle.proof_tree.specs.Form.{AreWhole, MayComeAfter};
ghost use Rattle.proof_tree.specs.Items.{tree_items};
ghost use Rattle.proof_tree.specs.Tree.{tree_of};
ghost use Rattle.log_lines.specs.TextDefect.{log_text_defect};
ghost use Rattle.proof_log.specs.declared.read.LogStop.TheVariants.{Memory as StopMemory};
ghost use Rattle.row_relax.specs.RowProofs.{RowItem};
ghost use Rattle.proof_log.specs.LogReading.{IsPartAfter, IsRead};
ghost use Rattle.proof_log.specs.Reached.{HasReached};

use crate::claim::Claim;
use crate::log::Log;
use crate::log_reader::{LogPart, LogReader};
use log_lines::{Defect, Limits};
use proof_tree::{Built, Item, TreeBuilder};
use row_relax::Rows;
use std::alloc::{AllocError, Global};
use stn_edge::FixedShelf;

/// Why a log was not read.
#[derive(Clone, Copy, PartialEq, Eq, Debug)]
pub enum LogStop {
    /// The first text defect.
    Defect(Defect),
    /// No memory was found.
    Memory,
}

impl From<AllocError> for LogStop {
    ghost from_gives = { λ _ stop. stop ≡ StopMemory };

    fn from(_error: AllocError) -> LogStop {
        LogStop::Memory
    }
}

/// The log of which the bytes are the text, where its numbers keep the limits; else the first text defect. It takes memory by
/// the bytes that it reads.
pub fn read_log(alloc: Global, bytes: &[u8], limits: &Limits) -> Result<Log, LogStop>
    ensures log { IfOk result (λ log. IsRead limits.now bytes.now log) }
    ensures defect { (defect : Defect) → result ≡ Err (LogStop.Defect defect)
        → log_text_defect limits.now bytes.now ≡ Some (defect.line, defect.kind) }
{
    let mut shelf = FixedShelf::new(alloc);
    shelf.put_file("log", bytes)?;
    read_parts(alloc, &mut shelf, *limits)
}

// The same, of the bytes that lie in the file `log`. A read of such a shelf never fails.
fn read_parts(alloc: Global, shelf: &mut FixedShelf, limits: Limits) -> Result<Log, LogStop>
    ensures log { IfOk result (λ log. IsRead limits (file_of shelf.old.files (codes "log")) log) }
    ensures defect { (defect : Defect) → result ≡ Err (LogStop.Defect defect)
        → log_text_defect limits (file_of shelf.old.files (codes "log"))
        ≡ Some (defect.line, defect.kind) }
{
    let mut reader = LogReader::begin(alloc, limits)?;
    let mut built = Built::More(TreeBuilder::new(alloc));
    let mut claim = None;
    'parts: for _ in 0..u64::MAX {
        match reader.next(shelf, "log") {
            Ok(part) => match take_part(built, claim, part)? {
                Reached::Part {
                    built: more,
                    claim: made,
                } => {
                    built = more;
                    claim = made;
                }
                Reached::Log(log) => return Ok(log),
            },
            Err(_) => return Err(LogStop::Memory),
        }
    }
    // No file has as many parts.
    Err(LogStop::Memory)
}

// How far the reading of a log has come.
#[derive(Drop)]
pub enum Reached {
    // A part of the log: what was built of its proof, and its claim once that has come.
    Part {
        built: Built<Rows>,
        claim: Option<Claim>,
    },
    // The whole log.
    Log(Log),
}

// Takes the next part of a log.
fn take_part(built: Built<Rows>, claim: Option<Claim>, part: LogPart) -> Result<Reached, LogStop>
    requires { (told : Option FileMap) × (name : Items ℕ) × (limits : Limits)
        × (items : Items RowItem) × (reader : LogReader)
        × IsPartAfter told name 2 0 limits items claim reader part × IsBuilt items built }
    ensures reached { IfOk result
        (λ reached. (told : Option FileMap) (name : Items ℕ) (limits : Limits)
        → (items : Items RowItem) (reader : LogReader)
        → IsPartAfter told name 2 0 limits items claim reader part → IsBuilt items built
        → HasReached told name limits reader reached) }
    ensures defect { (defect : Defect) → result ≡ Err (LogStop.Defect defect)
        → part ≡ LogPart.Bad defect }
{
    match part {
        LogPart::Item { line: _, item } => {
            let built = grow(built, item)?;
            Ok(Reached::Part { built, claim })
        }
        LogPart::Claim {
            line: _,
            claim: made,
        } => {
            let claim = Some(made);
            Ok(Reached::Part { built, claim })
        }
        LogPart::End { version } => Ok(Reached::Log(whole_log(version, built, claim))),
        LogPart::Bad(defect) => Err(LogStop::Defect(defect)),
    }
}

// Takes the next item into what was built.
fn grow(built: Built<Rows>, item: Item<Rows>) -> Result<Built<Rows>, AllocError>
    requires { (items : Items RowItem) × IsBuilt items built × MayComeAfter items item }
    ensures { IfOk result (λ more. (items : Items RowItem)
        → IsBuilt items built → MayComeAfter items item → IsBuilt (items ++ item ∷ []) more) }
{
    match built {
        Built::More(builder) => builder.take(item),
        Built::Whole(_) => unreachable!(),
    }
}

// The log of a version, of a whole proof and of a claim that has come.
fn whole_log(version: u8, built: Built<Rows>, claim: Option<Claim>) -> Log
    requires whole { (items : Items RowItem) × IsBuilt items built × AreWhole items }
    requires claimed { claim ≢ None }
    ensures version { result.version ≡ version }
    ensures tree { (items : Items RowItem) → IsBuilt items built → AreWhole items
        → items ≡ tree_items (tree_of result.tree) }
    ensures claim { claim ≡ Some result.claim }
{
    match built {
        Built::More(_) => unreachable!(),
        Built::Whole(tree) => match claim {
            Some(claim) => Log {
                version,
                tree,
                claim,
            },
            None => unreachable!(),
        },
    }
}
