//! The files that commands read, and their refusals.
ghost use Rattle.std.specs.Prelude.{◌≡◌, ◌≢◌, ◌≤◌, ◌<◌, ◌^◌, length, IsTrue, IfOk, MatchResult, Err, Ok};
ghost use Rattle.stn_edge.specs.Count.{Rose};
ghost use Rattle.stn_model.specs.Sound.{Sound};
ghost use Rattle.plan_text.specs.PlanText.{plan_of_text};
ghost use Rattle.plant_text.specs.Reading.{reading, too_long};
ghost use Rattle.command_replies.specs.Sources.{
  plan_too_long,
  IsReadOf,
  IsPlantRefusal,
  IsPlanRefusal,
  IsRefusedAs,
  Refuses,
  IfRefused,
  IfRefusal,
};

use crate::reply::Reply;
use crate::stopped::Stopped;
use plan_text::{PlanFault, PlanStop, TOO_LONG, read_plan};
use plant_text::{KeyName, PlantFault, PlantStop, TableName, read_plant};
use std::alloc::{AllocError, Global};
use stn_edge::{ReadStop, Shelf, read_all};
use stn_model::{List, Plant, Start};

/// The plant in a file. A file with a fault is refused by its first one. The files are as before.
pub fn plant_in<F: Shelf>(alloc: Global, files: &mut F, name: &str) -> Result<Plant, Stopped>
    requires { IsTrue (F.may_read files.old name.now) }
    ensures read { IfOk result (λ plant. IsReadOf reading (F.files files.old) name.now (Ok plant)) }
    ensures sound { IfOk result Sound }
    ensures refused { IfRefused result
        (Refuses reading IsPlantRefusal (F.files files.old) name.now) }
    ensures fault { result ≡ Err Stopped.ReadFault
        → Rose (F.read_faults files.old) (F.read_faults files.new) }
    ensures unwritten { result ≢ Err Stopped.WriteFault }
    ensures same { F.files files.new ≡ F.files files.old }
    ensures readable { F.may_read files.new ≡ F.may_read files.old }
    ensures writable { F.may_write files.new ≡ F.may_write files.old }
    ensures later { F.read_faults files.old ≤ F.read_faults files.new }
    ensures no_write { F.write_faults files.new ≡ F.write_faults files.old }
{
    match read_all(alloc, files, name, plant_text::MAX_BYTES as u64) {
        Ok(bytes) => plant_of(alloc, bytes.as_slice()),
        Err(ReadStop::TooLong) => Err(long_plant(alloc)),
        Err(ReadStop::Fault) => Err(Stopped::ReadFault),
        Err(ReadStop::Memory) => Err(Stopped::Memory),
    }
}

// The plant of the bytes. Bytes with a fault are refused by their first one.
fn plant_of(alloc: Global, bytes: &[u8]) -> Result<Plant, Stopped>
    ensures read { IfOk result (λ plant. reading bytes.now ≡ Ok plant) }
    ensures sound { IfOk result Sound }
    ensures refused { IfRefused result (IsRefusedAs reading IsPlantRefusal bytes.now) }
    ensures memory { result ≢ Err Stopped.ReadFault }
    ensures unwritten { result ≢ Err Stopped.WriteFault }
{
    match read_plant(alloc, bytes) {
        Ok(plant) => Ok(plant),
        Err(PlantStop::Fault(fault)) => Err(refusal(plant_refusal(alloc, &fault))),
        Err(PlantStop::Memory) => Err(Stopped::Memory),
    }
}

// The refusal of a plant file that is too long.
fn long_plant(alloc: Global) -> Stopped
    ensures refused { IfRefusal result
        (λ reply. IsPlantRefusal too_long reply.status reply.text.items) }
    ensures memory { result ≢ Stopped.ReadFault }
    ensures unwritten { result ≢ Stopped.WriteFault }
{
    let fault = PlantFault {
        kind: 1,
        table: TableName::Top,
        item: 0,
        inner: 0,
        key: KeyName::Whole,
    };
    refusal(plant_refusal(alloc, &fault))
}

/// The plan in a file. A file with a fault is refused by its first one. The files are as before.
pub fn plan_in<F: Shelf>(
    alloc: Global,
    files: &mut F,
    plant: &Plant,
    name: &str,
) -> Result<List<Start>, Stopped>
    requires allowed { IsTrue (F.may_read files.old name.now) }
    requires sound { Sound plant.now }
    ensures read { IfOk result
        (λ plan. IsReadOf (plan_of_text plant.now) (F.files files.old) name.now (Ok plan)) }
    ensures few { IfOk result (λ plan. length plan < 2 ^ 32) }
    ensures refused { IfRefused result
        (Refuses (plan_of_text plant.now) IsPlanRefusal (F.files files.old) name.now) }
    ensures fault { result ≡ Err Stopped.ReadFault
        → Rose (F.read_faults files.old) (F.read_faults files.new) }
    ensures unwritten { result ≢ Err Stopped.WriteFault }
    ensures same { F.files files.new ≡ F.files files.old }
    ensures readable { F.may_read files.new ≡ F.may_read files.old }
    ensures writable { F.may_write files.new ≡ F.may_write files.old }
    ensures later { F.read_faults files.old ≤ F.read_faults files.new }
    ensures no_write { F.write_faults files.new ≡ F.write_faults files.old }
{
    match read_all(alloc, files, name, plan_text::MAX_BYTES as u64) {
        Ok(bytes) => plan_of(alloc, plant, bytes.as_slice()),
        Err(ReadStop::TooLong) => Err(long_plan(alloc)),
        Err(ReadStop::Fault) => Err(Stopped::ReadFault),
        Err(ReadStop::Memory) => Err(Stopped::Memory),
    }
}

// The plan of the bytes. Bytes with a fault are refused by their first one.
fn plan_of(alloc: Global, plant: &Plant, bytes: &[u8]) -> Result<List<Start>, Stopped>
    requires { Sound plant.now }
    ensures read { IfOk result (λ plan. plan_of_text plant.now bytes.now ≡ Ok plan) }
    ensures few { IfOk result (λ plan. length plan < 2 ^ 32) }
    ensures refused { IfRefused result
        (IsRefusedAs (plan_of_text plant.now) IsPlanRefusal bytes.now) }
    ensures memory { result ≢ Err Stopped.ReadFault }
    ensures unwritten { result ≢ Err Stopped.WriteFault }
{
    match read_plan(alloc, plant, bytes) {
        Ok(plan) => Ok(plan),
        Err(PlanStop::Fault(fault)) => Err(refusal(plan_refusal(alloc, &fault))),
        Err(PlanStop::Memory) => Err(Stopped::Memory),
    }
}

// The refusal of a plan file that is too long.
fn long_plan(alloc: Global) -> Stopped
    ensures refused { IfRefusal result
        (λ reply. IsPlanRefusal plan_too_long reply.status reply.text.items) }
    ensures memory { result ≢ Stopped.ReadFault }
    ensures unwritten { result ≢ Stopped.WriteFault }
{
    let fault = PlanFault {
        kind: TOO_LONG,
        line: 0,
    };
    refusal(plan_refusal(alloc, &fault))
}

// The refusal by a reply, where memory for it was found.
fn refusal(reply: Result<Reply, AllocError>) -> Stopped
    ensures { MatchResult reply (λ r. result ≡ Stopped.Refused r) (λ _. result ≡ Stopped.Memory) }
{
    match reply {
        Ok(reply) => Stopped::Refused(reply),
        Err(_) => Stopped::Memory,
    }
}

// The reply to a plant file with this fault.
fn plant_refusal(alloc: Global, fault: &PlantFault) -> Result<Reply, AllocError>
    ensures { IfOk result (λ reply. IsPlantRefusal fault.now reply.status reply.text.items) }
{
    let kind = fault.kind;
    let table = fault.table.word();
    let item = fault.item;
    let inner = fault.inner;
    let key = fault.key.word();
    let line = format!(in alloc; "refused plant {kind} {table} {item} {inner} {key}\n")?;
    let text = Vec::from_slice(alloc, line.as_bytes())?;
    Ok(Reply { status: 3, text })
}

// The reply to a plan file with this fault.
#[tactic(auto, unfolding(crate::specs::Lines::plan_fault_text))]
fn plan_refusal(alloc: Global, fault: &PlanFault) -> Result<Reply, AllocError>
    ensures { IfOk result (λ reply. IsPlanRefusal fault.now reply.status reply.text.items) }
{
    let kind = fault.kind;
    let number = fault.line;
    let line = format!(in alloc; "refused plan {kind} {number}\n")?;
    let text = Vec::from_slice(alloc, line.as_bytes())?;
    Ok(Reply { status: 4, text })
}
