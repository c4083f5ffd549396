//! The program of a part of a plant's choices with what the head of its log declares, over which a large part is searched.
ghost use Rattle.std.specs.Prelude.{◌≡◌, ◌+◌, ◌^◌, ◌<◌, ◌≤◌, length, IfOk};
ghost use Rattle.std.specs.List.{All};
ghost use Rattle.stn_model.specs.Points.{slot_limit};
ghost use Rattle.stn_model.specs.Sound.{Sound};
ghost use Rattle.row_kit.specs.Domain.{IsNormal};
ghost use Rattle.row_set.specs.Parts.{IsPartOf};
ghost use Rattle.sum_slots.specs.Shown.{AreRanges};
ghost use Rattle.derivations.specs.Anew.{IsWithAnew};
ghost use Rattle.derivations.specs.Growth.{rows_of};
ghost use Rattle.plan_told.specs.Heads.{whole_head};
ghost use Rattle.head_choice.specs.Heading.{AreDeclared, IsHeaded};

use crate::declaring::declared;
use crate::widening::{Widened, wide_part};
use box_advice::Advisers;
use derivation_lines::put_derivations;
use derivations::{Derivation, with_derivations_anew};
use row_kit::{Domain, List, Program};
use row_relax::Rows;
use setup_lines::put_setups;
use setup_slots::SetUp;
use std::alloc::{AllocError, Global};
use stn_model::Plant;
use sum_lines::put_head;
use sum_slots::Sum;

// The version of logs that declare sums, setups and derivations.
const HEAD_VERSION: u8 = 4;

/// A part of a plant's choices with sums, setups and derivations, as a search finds it.
#[derive(Drop)]
pub struct Headed {
    // The rows of the program with the sums, the setups and the derivations. Points have the slots of the part and of the sums.
    pub rows: Rows,
    pub sums: List<Sum>,
    // The head of a log that declares these.
    pub head: Vec<u8>,
    // The number of slots of the part.
    pub given: u32,
}

// Derivations, and the text of a head that declares them.
#[derive(Drop)]
pub struct Declared {
    pub derivations: List<Derivation>,
    pub head: Vec<u8>,
}

/// A part of a plant's choices with the sums, the setups and the derivations that are chosen for it, in a head that is judged over domains.
pub fn with_head<A: Advisers>(
    alloc: Global,
    plant: &Plant,
    part: Program,
    judged: List<Domain>,
) -> Result<Headed, AllocError>
    requires sound { Sound plant.now }
    requires part { IsPartOf plant.now part }
    requires ranges { AreRanges part judged }
    requires few_slots { length part.root ≤ slot_limit plant.now }
    requires few_rows { length part.rows ≤ 198464 }
    ensures { IfOk result (IsHeaded plant.now part judged) }
{
    let given = part.root.len();
    let wide = wide_part(alloc, plant, part, judged)?;
    let Declared { derivations, head } = with_declared::<A>(alloc, &wide)?;
    let rows = grown(
        alloc,
        wide.set,
        wide.domains.as_slice(),
        derivations.as_slice(),
    )?;
    Ok(Headed {
        rows,
        sums: wide.sums,
        head,
        given: given as u32,
    })
}

// The derivations that advisers declare for a part with sums and setups, and the text of the head.
fn with_declared<A: Advisers>(alloc: Global, wide: &Widened) -> Result<Declared, AllocError>
    requires same_slots { length wide.now.domains ≡ length wide.now.set.program.root }
    requires normal { All IsNormal wide.now.domains }
    ensures declared { IfOk result
        (λ made. AreDeclared wide.now.set.program wide.now.domains made.derivations) }
    ensures text { IfOk result (λ made. made.head.items
        ≡ whole_head wide.now.sums wide.now.units made.derivations) }
    ensures small { IfOk result (λ made. length made.head.items < 2 ^ 64) }
{
    let derivations = declared::<A>(alloc, &wide.set.program, wide.domains.as_slice())?;
    let head = head_of(
        alloc,
        wide.sums.as_slice(),
        wide.units.as_slice(),
        derivations.as_slice(),
    )?;
    Ok(Declared { derivations, head })
}

// The rows of a program with setups and derivations.
fn grown(
    alloc: Global,
    set: SetUp,
    domains: &[Domain],
    derivations: &[Derivation],
) -> Result<Rows, AllocError>
    requires same_slots { length domains.now ≡ length set.program.root }
    requires normal { All IsNormal domains.now }
    requires few_rows { length set.program.rows + rows_of derivations.now ≤ 400000 }
    ensures anew { IfOk result
        (λ rows. IsWithAnew set.program domains.now derivations.now rows.program) }
    ensures choices { IfOk result (λ rows. rows.choices ≡ set.choices) }
{
    let SetUp { program, choices } = set;
    let program = with_derivations_anew(alloc, program, domains, derivations)?;
    Ok(Rows { program, choices })
}

// The text of a head with these sums, setups and derivations.
fn head_of(
    alloc: Global,
    sums: &[Sum],
    units: &[u32],
    derivations: &[Derivation],
) -> Result<Vec<u8>, AllocError>
    ensures text { IfOk result (λ head. head.items
        ≡ whole_head sums.now units.now derivations.now) }
    ensures small { IfOk result (λ head. length head.items < 2 ^ 64) }
{
    let mut head = Vec::new(alloc);
    put_head(alloc, HEAD_VERSION, sums, &mut head)?;
    put_setups(alloc, units, &mut head)?;
    put_derivations(alloc, derivations, &mut head)?;
    Ok(head)
}
