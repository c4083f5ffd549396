//! What no plan of a plant earns more than, by a proof for another one.
ghost use Rattle.std.specs.Prelude.{false, ◌≡◌, ◌+◌, ◌≤◌, length, IfOk};
ghost use Rattle.stn_model.specs.Sound.{Sound};
ghost use Rattle.proof_tree.specs.Tree.{tree_of};
ghost use Rattle.row_relax.specs.Choices.{plain};
ghost use Rattle.row_set.specs.PlantProgram.{IsMadeOf, IsProgramOf};
ghost use Rattle.setup_slots.specs.Larger.{HasPlantSlots};
ghost use Rattle.setup_slots.specs.Several.{AreSetUp, HaveRoom, choices_before};
ghost use Rattle.derivations.specs.Growth.{rows_of};
ghost use Rattle.what_if.specs.Estimate.{AreTaken, CapsPlans, IsCapOver, IsDerivedAnew, IsEstimate, IsWithHeadAnew};
ghost use Rattle.what_if.specs.laws.Rooted.{IsRootCap, plain_proof};

use crate::loosening::{loose, no_mults};
use crate::old::LogHead;
use crate::taking::is_taken;
use derivations::with_derivations_anew;
use proof_tree::{End, List, Proof};
use row_kit::{Domain, Program};
use row_relax::{RowProof, Rows};
use row_set::{plant_root, program_of};
use setup_slots::{SetUp, set_up};
use std::alloc::{AllocError, Global};
use stn_model::Plant;
use sum_slots::with_sums;

/// What no plan of a plant earns more than, by the proof of another plant's log with this head: none says that no plan is feasible.
/// The sums are looked at anew over the plant's own program, and where they can be taken there, so are the setups of its units, as they
/// are for this plant, and the derivations: a cut goes over the rows as they are then, a derived row has its limit anew, and one that is
/// not shown there says nothing. It is the loose cap of the proof over the root of the rows with them. Where a sum is not shown, a slot
/// for it could rule out plans, and it is the cap of scale 1 without multipliers over the plant's own program. It costs what the
/// program, the head and the proof's cap cost; the setups are counted before they are made.
pub fn estimate(
    alloc: Global,
    plant: &Plant,
    head: &LogHead,
    proof: &RowProof,
) -> Result<Option<i128>, AllocError>
    requires { Sound plant.now }
    ensures { IfOk result (IsEstimate plant.now head.now (tree_of proof.now)) }
{
    let program = program_of(alloc, plant)?;
    let ranges = plant_root(alloc, plant)?;
    cap_over(alloc, plant, program, ranges.as_slice(), head, proof)
}

// The cap of the proof of a log with a head, for the program of a plant, whose root this is.
fn cap_over(
    alloc: Global,
    plant: &Plant,
    program: Program,
    ranges: &[Domain],
    head: &LogHead,
    proof: &RowProof,
) -> Result<Option<i128>, AllocError>
    requires sound { Sound plant.now }
    requires made { IsMadeOf plant.now program }
    requires means { IsProgramOf plant.now program }
    requires root { ranges.now ≡ program.root }
    ensures is { IfOk result (IsCapOver plant.now program ranges.now head.now (tree_of proof.now)) }
    ensures caps { IfOk result (CapsPlans plant.now) }
{
    let taken = is_taken(alloc, plant, &program, ranges, head)?;
    if taken {
        let rows = with_head_anew(alloc, plant, program, ranges, head)?;
        root_cap(alloc, rows, proof, head.capped)
    } else {
        plain_cap(alloc, program)
    }
}

// The rows of the program of a plant with a head, whose setups are those of the plant and whose derivations are looked at anew.
fn with_head_anew(
    alloc: Global,
    plant: &Plant,
    program: Program,
    ranges: &[Domain],
    head: &LogHead,
) -> Result<Rows, AllocError>
    requires sound { Sound plant.now }
    requires made { IsMadeOf plant.now program }
    requires root { ranges.now ≡ program.root }
    requires taken { AreTaken plant.now program ranges.now head.now }
    ensures { IfOk result (IsWithHeadAnew plant.now program ranges.now head.now) }
{
    let between = with_sums(alloc, program, ranges, head.sums.as_slice())?;
    let set = set_up_whole(alloc, plant, between, head.units.as_slice())?;
    let program = derived_anew(alloc, set.program, head)?;
    Ok(Rows {
        program,
        choices: set.choices,
    })
}

// A program with the setups of units, for which there is room.
fn set_up_whole(
    alloc: Global,
    plant: &Plant,
    between: Program,
    units: &[u32],
) -> Result<SetUp, AllocError>
    requires sound { Sound plant.now }
    requires slots { HasPlantSlots plant.now between }
    requires room { HaveRoom plant.now units.now between }
    ensures made { IfOk result (λ set. AreSetUp plant.now units.now between set.program) }
    ensures choices { IfOk result (λ set. set.choices ≡ choices_before units.now between) }
{
    match set_up(alloc, plant, between, units)? {
        Some(set) => Ok(set),
        None => unreachable!(),
    }
}

// A program with the derivations of a head, looked at anew over its root; a head below version 4 has none.
fn derived_anew(alloc: Global, wide: Program, head: &LogHead) -> Result<Program, AllocError>
    requires { length wide.rows + rows_of head.now.derivations ≤ 400000 }
    ensures { IfOk result (IsDerivedAnew wide wide.root head.now) }
{
    if !head.capped {
        return Ok(wide);
    }
    let domains = Vec::from_slice(alloc, wide.root.as_slice())?;
    with_derivations_anew(alloc, wide, domains.as_slice(), head.derivations.as_slice())
}

// The loose cap of a proof over the root of rows.
fn root_cap(
    alloc: Global,
    rows: Rows,
    proof: &RowProof,
    capped: bool,
) -> Result<Option<i128>, AllocError>
    ensures { IfOk result (IsRootCap capped rows (tree_of proof.now)) }
{
    let mut area = rows.root_area(alloc)?;
    Ok(loose(alloc, &rows, &mut area, proof, capped))
}

// The cap of the root of a program by scale 1 without multipliers.
fn plain_cap(alloc: Global, program: Program) -> Result<Option<i128>, AllocError>
    ensures { IfOk result (IsRootCap false (plain program) plain_proof) }
{
    let proof = plain_proof(alloc);
    let rows = Rows {
        program,
        choices: None,
    };
    root_cap(alloc, rows, &proof, false)
}

// The proof that says nothing.
fn plain_proof(alloc: Global) -> RowProof
    ensures { tree_of result ≡ plain_proof }
{
    Proof {
        cuts: List::new(alloc),
        found: None,
        end: End::Pending(no_mults(alloc)),
    }
}
