//! The rows of one part of a plant.
ghost use Rattle.std.specs.Prelude.{◌≡◌, ◌↔◌, ℕ, ◌^◌, ◌<◌, ◌≤◌, List as Items, length, None, IfOk};
ghost use Rattle.stn_model.specs.declared.plant.Plant.{Plant};
ghost use Rattle.stn_model.specs.declared.start.Start.{Start};
ghost use Rattle.stn_model.specs.Feasible.{Feasible};
ghost use Rattle.stn_model.specs.Sound.{Sound};
ghost use Rattle.time_grid.specs.Slots.{slots};
ghost use Rattle.row_set.specs.Parts.{IsPartOf, IsAdmitted};
ghost use Rattle.plant_parts.specs.PlantParts.{digit, cut_domain, cut_root, part_root, IsOfPart, IsOfSomePart};

use row_kit::{Domain, List};
use row_relax::Rows;
use row_set::program_of;
use std::alloc::{AllocError, Global};
use stn_model::Plant;

/// The rows of one part of the plant. There are as many binary digits in the part's number as there are levels, and each stands
/// for one of the first slots, the first digit for the first: where it is 0, no batch may start in the slot, and where it is 1,
/// one must. The other slots may have what they may have in the plant. The error is want of memory. It costs what the plant's
/// program costs, and a walk through the slots.
pub fn part_rows(alloc: Global, plant: &Plant, levels: u32, part: u32) -> Result<Rows, AllocError>
    requires sound { Sound plant.now }
    requires least { 1 ≤ levels }
    requires most { levels ≤ 8 }
    requires slots { levels ≤ length (slots plant.now) }
    requires part { part < 2 ^ levels }
    ensures plain { IfOk result (λ rows. rows.choices ≡ None) }
    ensures part { IfOk result (λ rows. IsPartOf plant.now rows.program) }
    ensures root { IfOk result (λ rows. rows.program.root ≡ part_root plant.now levels part) }

    // The plans that it admits are exactly those of the part.
    ensures exact { IfOk result (λ rows. (plan : Items Start)
        → IsAdmitted plant.now rows.program plan ↔ IsOfPart plant.now levels part plan) }
{
    let mut program = program_of(alloc, plant)?;
    program.root = cut_root(alloc, &program.root, levels, part)?;
    Ok(Rows {
        program,
        choices: None,
    })
}

// What the slots may have in the part, from what they may have in the plant.
fn cut_root(
    alloc: Global,
    whole: &List<Domain>,
    levels: u32,
    part: u32,
) -> Result<List<Domain>, AllocError>
    requires { levels ≤ 8 }
    ensures { IfOk result (λ root. root ≡ cut_root levels part whole.now) }
{
    let mut root = Vec::with_capacity(alloc, whole.len())?;
    for place in 0..whole.len() {
        let own = *whole.get(place);
        root.push(cut_domain(own, levels, part, place))?;
    }
    Ok(List::from_vec(root))
}

// What the slot of this place may have in the part, from what it may have in the plant.
fn cut_domain(own: Domain, levels: u32, part: u32, place: usize) -> Domain
    requires { levels ≤ 8 }
    ensures { result ≡ cut_domain levels part place own }
{
    if place >= levels as usize {
        own
    } else if digit(levels, part, place as u32) == 0 {
        Domain {
            zero: true,
            lo: 1,
            hi: 0,
        }
    } else {
        Domain {
            zero: false,
            lo: own.lo,
            hi: own.hi,
        }
    }
}

/// The digit of the part's number that stands for the slot of this place: 0 where no batch starts there, 1 where one does.
pub fn digit(levels: u32, part: u32, place: u32) -> u32
    requires most { levels ≤ 8 }
    requires place { place < levels }
    ensures { result ≡ digit levels part place }
{
    (part >> (levels - 1 - place)) % 2
}

/// The law of parts: of however many levels, each feasible plan is of exactly one part.
pub fn parts_law()
    ensures some { (plant : Plant) (levels : ℕ) (plan : Items Start)
        → Feasible plant plan → IsOfSomePart plant levels plan }
    ensures one { (plant : Plant) (levels first second : ℕ) (plan : Items Start)
        → first < 2 ^ levels → second < 2 ^ levels
        → IsOfPart plant levels first plan → IsOfPart plant levels second plan → first ≡ second }
{}
