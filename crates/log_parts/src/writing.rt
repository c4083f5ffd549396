//! The joined log, written from the logs of the parts.
ghost use Rattle.std.specs.Prelude.{◌≡◌, ◌≢◌, ◌≤◌, ◌<◌, suc, ◌+◌, ◌-◌, ◌*◌, ◌^◌, ℕ, List as Items, [], ◌∷◌, ◌++◌, IsTrue, IfOk, OnOk, OnErr, length};
ghost use Rattle.stn_edge.specs.Files.{OthersStay, MayClear};
ghost use Rattle.stn_model.specs.Sound.{Sound};
ghost use Rattle.row_relax.specs.RowProofs.{RowItem};
ghost use Rattle.proof_log.specs.LogNames.{log_name};
ghost use Rattle.sum_slots.specs.declared.sum.Sum.{Sum};
ghost use Rattle.store_frames.specs.Frames.{ReadsAndWritesOne, WritesOne};
ghost use Rattle.log_parts.specs.Heads.{front_text, joined_version};
ghost use Rattle.log_parts.specs.PartLogs.{IsNoPart, MayReadParts};
ghost use Rattle.log_parts.specs.Stops.{Stops, StopsWriting};
ghost use Rattle.log_parts.specs.laws.Copying.{
  IsFit,
  name_of,
  opening_split,
  split_items,
  items_over,
  HasItems,
  IsBegun,
  HasJoined,
  HasJoinBroken,
  IsFinished,
  IsFinishedInPart,
  HasWritten,
  HasLeft,
  IsClaim,
};
ghost use Rattle.proof_log.specs.declared.claim.Claim.{Claim};
ghost use Rattle.valid_log.specs.SumTexts.{larger_claim};
ghost use Rattle.log_parts.specs.laws.Checked.{MayDeclare, head_limits, part_limits};

use crate::completing::larger_claim;
use crate::copying::{copy_log, put_item};
use crate::heads::Declared;
use crate::joins::Joined;
use derivation_lines::put_derivations;
use dual_bound::Cert;
use log_lines::{Defect, Limits, Line, put_line};
use log_stops::JoinStop;
use proof_log::{Claim, LogWriter, log_name};
use proof_tree::Item;
use row_kit::List;
use row_relax::{RowPick, Rows};
use row_set::program_of;
use setup_lines::put_setups;
use std::alloc::{AllocError, Global};
use stn_edge::{Shelf, Stop};
use stn_model::Plant;
use sum_lines::put_head;
use sum_slots::Sum;

// A part whose log has a text defect.
#[derive(Drop)]
pub(crate) struct BadPart {
    pub part: u32,
    pub defect: Defect,
}

/// The logs of the parts that are joined.
#[derive(Clone, Copy)]
pub struct PartLogs<'a> {
    /// How many levels the plant is parted to: 2^levels parts.
    pub levels: u32,
    /// The limits of what stands behind the heads.
    pub limits: Limits,
    /// How many bytes the head of each log has; none where it has no head.
    pub heads: &'a [u64],
    /// The stem of their names.
    pub stem: &'a str,
}

/// What stands at the front of the joined log.
#[derive(Clone, Copy)]
pub struct JoinedFront<'a> {
    /// The version of its text.
    pub version: u8,
    /// What its head declares.
    pub declared: &'a Declared,
}

// The split of a slot at 0, which was made before any search.
fn split_at(alloc: Global, slot: u32) -> Item<Rows>
    ensures { result ≡ opening_split slot }
{
    let cert = Cert {
        scale: 1,
        mults: List::new(alloc),
    };
    let pick = RowPick {
        slot,
        max: 0,
        floor: None,
    };
    Item::Split(pick, cert)
}

// Puts the node of a split of a slot.
fn open_split<F: Shelf>(
    alloc: Global,
    slot: u32,
    writer: &mut LogWriter,
    files: &mut F,
) -> Result<(), JoinStop>
    requires { IsTrue (F.may_write files.old (name_of writer.old)) }
    ensures named { name_of writer.new ≡ name_of writer.old }
    ensures ok { OnOk result ((front : Items ℕ) (items : Items RowItem)
        → HasItems front writer.old (F.files files.old) items
        → HasItems front writer.new (F.files files.new) (items ++ split_items slot)) }
    ensures err { OnErr result ((front : Items ℕ) (items : Items RowItem)
        → HasItems front writer.old (F.files files.old) items
        → IsBegun front (name_of writer.old) (F.files files.new) (items ++ split_items slot)) }
    ensures frame { WritesOne F.Shelf (name_of writer.old) files.old files.new }
    ensures stops { StopsWriting F.Shelf result files.old files.new }
{
    put_item(writer, files, &Item::Node)?;
    let split = split_at(alloc, slot);
    put_item(writer, files, &split)
}

// Puts the items of the log of a part.
fn copy_part<F: Shelf>(
    alloc: Global,
    logs: PartLogs,
    part: u32,
    writer: &mut LogWriter,
    files: &mut F,
) -> Result<Option<BadPart>, JoinStop>
    requires part { part < 2 ^ logs.levels }
    requires heads { length logs.heads.now ≡ 2 ^ logs.levels }
    requires may_read { IsTrue (F.may_read files.old (log_name logs.stem.now part)) }
    requires may_write { IsTrue (F.may_write files.old (name_of writer.old)) }
    requires apart { name_of writer.old ≢ log_name logs.stem.now part }
    ensures named { name_of writer.new ≡ name_of writer.old }
    ensures joined { IfOk result
        (HasJoined logs.entry.limits (2 ^ logs.entry.levels) logs.entry.stem.now
        logs.entry.heads.now
        (items_over logs.entry.levels 0 part) (F.files files.old) writer.old (F.files files.new)
        writer.new) }
    ensures err { OnErr result (HasJoinBroken logs.entry.limits (2 ^ logs.entry.levels)
        logs.entry.stem.now
        logs.entry.heads.now
        (items_over logs.entry.levels 0 part) (F.files files.old) writer.old (F.files files.new)) }
    ensures frame { ReadsAndWritesOne F.Shelf (name_of writer.old) files.old files.new }
    ensures stops { Stops F.Shelf result files.old files.new }
{
    let name = log_name(alloc, logs.stem, part)?;
    let head = logs.heads[part as usize];
    match copy_log(alloc, logs.limits, head, writer, files, name.as_str())? {
        Some(defect) => Ok(Some(BadPart { part, defect })),
        None => Ok(None),
    }
}

// The first of the right parts of a split of this slot, where the left ones begin with this part.
fn right_part(levels: u32, slot: u32, part: u32) -> u32
    requires most { levels ≤ 8 }
    requires slot { slot < levels }
    requires part { part + 2 ^ (levels - slot) ≤ 2 ^ levels }
    ensures right { result ≡ part + 2 ^ (levels - (slot + 1)) }
    ensures left_within { part + 2 ^ (levels - (slot + 1)) ≤ 2 ^ levels }
    ensures right_within { part + 2 ^ (levels - (slot + 1)) + 2 ^ (levels - (slot + 1))
        ≤ 2 ^ levels }
    ensures one_less { levels - slot ≡ suc (levels - (slot + 1)) }
{
    part + (1 << (levels - (slot + 1)))
}

// Puts the items of the tree over the slots from one on, in which the logs of the parts from one on stand.
#[cycle(tree)]
fn write_tree<F: Shelf>(
    alloc: Global,
    logs: PartLogs,
    slot: u32,
    part: u32,
    writer: &mut LogWriter,
    files: &mut F,
) -> Result<Option<BadPart>, JoinStop>
    requires most { logs.levels ≤ 8 }
    requires heads { length logs.heads.now ≡ 2 ^ logs.levels }
    requires slot { slot ≤ logs.levels }
    requires part { part + 2 ^ (logs.levels - slot) ≤ 2 ^ logs.levels }
    requires may_read { MayReadParts (F.may_read files.old) logs.stem.now logs.levels }
    requires may_write { IsTrue (F.may_write files.old (name_of writer.old)) }
    requires apart { IsNoPart (name_of writer.old) logs.stem.now logs.levels }
    ensures named { name_of writer.new ≡ name_of writer.old }
    ensures joined { IfOk result
        (HasJoined logs.entry.limits (2 ^ logs.entry.levels) logs.entry.stem.now
        logs.entry.heads.now
        (items_over slot (logs.entry.levels - slot) part) (F.files files.old) writer.old
        (F.files files.new) writer.new) }
    ensures err { OnErr result (HasJoinBroken logs.entry.limits (2 ^ logs.entry.levels)
        logs.entry.stem.now
        logs.entry.heads.now
        (items_over slot (logs.entry.levels - slot) part) (F.files files.old) writer.old
        (F.files files.new)) }
    ensures frame { ReadsAndWritesOne F.Shelf (name_of writer.old) files.old files.new }
    ensures stops { Stops F.Shelf result files.old files.new }
{
    if slot == logs.levels {
        return copy_part(alloc, logs, part, writer, files);
    }
    let right = right_part(logs.levels, slot, part);
    open_split(alloc, slot, writer, files)?;
    if let Some(bad) = write_tree(alloc, logs, slot + 1, part, writer, files)? {
        return Ok(Some(bad));
    }
    write_tree(alloc, logs, slot + 1, right, writer, files)
}

// Why the log was not written.
fn write_stop(stop: Stop) -> JoinStop
    ensures fault { result ≡ JoinStop.WriteFault → stop ≡ Stop.Failed }
    ensures no_read { result ≢ JoinStop.ReadFault }
{
    match stop {
        Stop::Failed => JoinStop::WriteFault,
        Stop::Memory => JoinStop::Memory,
    }
}

/// The version of a log that is joined of others which declare these sums, where one of them is of version 4, or none.
pub fn joined_version(newest: bool, sums: &[Sum]) -> u8
    ensures { result ≡ joined_version newest sums.now }
{
    if newest {
        4
    } else if sums.is_empty() {
        2
    } else {
        3
    }
}

// Appends the text in the place of the first line of a log of this version that declares this.
fn put_front(
    alloc: Global,
    version: u8,
    declared: &Declared,
    into: &mut Vec<u8>,
) -> Result<(), AllocError>
    ensures { OnOk result (into.new.items ≡ into.old.items ++ front_text version declared.now) }
{
    if version == 2 {
        put_line(alloc, &Line::Header { version: 2 }, into)?;
    } else {
        put_head(alloc, version, declared.sums.as_slice(), into)?;
        put_setups(alloc, declared.units.as_slice(), into)?;
        put_derivations(alloc, declared.derivations.as_slice(), into)?;
    }
    Ok(())
}

/// The head of a log of version 4 that declares this.
pub fn head_text(alloc: Global, declared: &Declared) -> Result<Vec<u8>, AllocError>
    ensures { IfOk result (λ head. head.items ≡ front_text 4 declared.now) }
{
    let mut front = Vec::new(alloc);
    put_front(alloc, 4, declared, &mut front)?;
    Ok(front)
}

/// Begins the log of this version, which declares this.
pub fn begin_log<F: Shelf>(
    alloc: Global,
    version: u8,
    declared: &Declared,
    files: &mut F,
    name: &str,
) -> Result<LogWriter, JoinStop>
    requires { IsTrue (F.may_write files.old name.now) }
    ensures begun { IfOk result
        (λ writer. HasItems (front_text version declared.now) writer (F.files files.new) []) }
    ensures named { IfOk result (λ writer. name_of writer ≡ name.now) }
    ensures err { OnErr result (MayClear name.now (F.files files.old) (F.files files.new)) }
    ensures others { OthersStay name.now (F.files files.old) (F.files files.new) }
    ensures readable { F.may_read files.new ≡ F.may_read files.old }
    ensures writable { F.may_write files.new ≡ F.may_write files.old }
    ensures reads { F.read_faults files.new ≡ F.read_faults files.old }
    ensures writes { F.write_faults files.old ≤ F.write_faults files.new }
    ensures stops { StopsWriting F.Shelf result files.old files.new }
{
    let mut front = Vec::new(alloc);
    put_front(alloc, version, declared, &mut front)?;
    match LogWriter::begin_with(alloc, files, name, front.as_slice()) {
        Ok(writer) => Ok(writer),
        Err(stop) => Err(write_stop(stop)),
    }
}

/// Writes the claim behind the items, and the end.
pub fn finish_log<F: Shelf>(writer: LogWriter, files: &mut F, claim: &Claim) -> Result<(), JoinStop>
    requires { IsTrue (F.may_write files.old (name_of writer)) }
    ensures ok { OnOk result ((front : Items ℕ) (items : Items RowItem)
        → HasItems front writer (F.files files.old) items
        → IsFinished front (name_of writer) items claim.now (F.files files.new)) }
    ensures err { OnErr result ((front : Items ℕ) (items : Items RowItem)
        → HasItems front writer (F.files files.old) items
        → IsFinishedInPart front (name_of writer) items claim.now (F.files files.new)) }
    ensures others { OthersStay (name_of writer) (F.files files.old) (F.files files.new) }
    ensures readable { F.may_read files.new ≡ F.may_read files.old }
    ensures writable { F.may_write files.new ≡ F.may_write files.old }
    ensures reads { F.read_faults files.new ≡ F.read_faults files.old }
    ensures writes { F.write_faults files.old ≤ F.write_faults files.new }
    ensures stops { StopsWriting F.Shelf result files.old files.new }
{
    match writer.finish(files, claim) {
        Ok(()) => Ok(()),
        Err(stop) => Err(write_stop(stop)),
    }
}

// Writes the joined log with this front and the larger claim, where no log of a part shows a defect now, and answers the claim.
fn write_log<F: Shelf>(
    alloc: Global,
    logs: PartLogs,
    front: JoinedFront,
    larger: &Claim,
    files: &mut F,
    name: &str,
    claim: Claim,
) -> Result<Joined, JoinStop>
    requires most { logs.levels ≤ 8 }
    requires heads { length logs.heads.now ≡ 2 ^ logs.levels }
    requires may_read { MayReadParts (F.may_read files.old) logs.stem.now logs.levels }
    requires may_write { IsTrue (F.may_write files.old name.now) }
    requires apart { IsNoPart name.now logs.stem.now logs.levels }
    ensures written { IfOk result (HasWritten logs.entry.limits logs.entry.levels
        logs.entry.stem.now logs.entry.heads.now name.now
        (front_text front.entry.version front.entry.declared.now)
        larger.now claim (F.files files.old) (F.files files.new)) }
    ensures claim { IfOk result (IsClaim claim) }
    ensures err { OnErr result (HasLeft logs.entry.limits logs.entry.levels
        logs.entry.stem.now logs.entry.heads.now name.now
        (front_text front.entry.version front.entry.declared.now)
        larger.now (F.files files.old) (F.files files.new)) }
    ensures frame { ReadsAndWritesOne F.Shelf name.now files.old files.new }
    ensures stops { Stops F.Shelf result files.old files.new }
{
    let mut writer = begin_log(alloc, front.version, front.declared, files, name)?;
    match write_tree(alloc, logs, 0, 0, &mut writer, files)? {
        Some(BadPart { part, defect }) => Ok(Joined::No { part, defect }),
        None => {
            finish_log(writer, files, larger)?;
            Ok(Joined::Done(claim))
        }
    }
}

/// Writes the joined log of these logs with this front and this claim, where no log of a part shows a defect now. It takes memory for
/// the text of the head and for the plant's program.
pub fn write_joined<F: Shelf>(
    alloc: Global,
    plant: &Plant,
    logs: PartLogs,
    front: JoinedFront,
    files: &mut F,
    name: &str,
    claim: Claim,
) -> Result<Joined, JoinStop>
    requires sound { Sound plant.now }
    requires most { logs.levels ≤ 8 }
    requires declared { MayDeclare plant.now (head_limits plant.now logs.levels) front.version
        front.declared.now }
    requires limits { logs.limits ≡ part_limits plant.now logs.levels front.declared.now }
    requires heads { length logs.heads.now ≡ 2 ^ logs.levels }
    requires may_read { MayReadParts (F.may_read files.old) logs.stem.now logs.levels }
    requires may_write { IsTrue (F.may_write files.old name.now) }
    requires apart { IsNoPart name.now logs.stem.now logs.levels }
    ensures written { IfOk result (λ said. IsFit plant.now front.entry.declared.now.sums claim
        → HasWritten (part_limits plant.now logs.entry.levels front.entry.declared.now)
        logs.entry.levels logs.entry.stem.now logs.entry.heads.now name.now
        (front_text front.entry.version front.entry.declared.now)
        (larger_claim front.entry.declared.now.sums claim) claim
        (F.files files.old) (F.files files.new) said) }
    ensures claim { IfOk result (IsClaim claim) }
    ensures err { OnErr result
        (HasLeft (part_limits plant.now logs.entry.levels front.entry.declared.now)
        logs.entry.levels logs.entry.stem.now logs.entry.heads.now name.now
        (front_text front.entry.version front.entry.declared.now)
        (larger_claim front.entry.declared.now.sums claim) (F.files files.old) (F.files files.new)) }
    ensures others { OthersStay name.now (F.files files.old) (F.files files.new) }
    ensures readable { F.may_read files.new ≡ F.may_read files.old }
    ensures writable { F.may_write files.new ≡ F.may_write files.old }
    ensures reads { F.read_faults files.old ≤ F.read_faults files.new }
    ensures writes { F.write_faults files.old ≤ F.write_faults files.new }
    ensures stops { Stops F.Shelf result files.old files.new }
{
    let program = program_of(alloc, plant)?;
    match larger_claim(alloc, &program, front.declared.sums.as_slice(), &claim)? {
        Some(larger) => write_log(alloc, logs, front, &larger, files, name, claim),
        None => Ok(no_sums()),
    }
}

// The answer where a log that was read again declares sums that do not suit the claims: kind 20 at line 1 of the first part.
fn no_sums() -> Joined
    ensures { (claim : Claim) → IsClaim claim result }
{
    let defect = Defect { line: 1, kind: 20 };
    Joined::No { part: 0, defect }
}
