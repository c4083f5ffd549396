//! The rows of the plans that keep the first starts of a plan.
ghost use Rattle.std.specs.Prelude.{◌≡◌, ◌<◌, ◌↔◌, ℕ, nat_lt, if◌then◌else◌, List as Items, map, All, None, IsSome, IfOk, IfSome};
ghost use Rattle.stn_model.specs.declared.start.Start.{Start};
ghost use Rattle.stn_model.specs.Feasible.{Feasible};
ghost use Rattle.stn_model.specs.Sound.{Sound};
ghost use Rattle.time_grid.specs.Slots.{slots, IsGrid};
ghost use Rattle.time_grid.specs.PlanPoint.{HasPoint};
ghost use Rattle.row_kit.specs.Point.{IsLawful};
ghost use Rattle.row_set.specs.Parts.{IsPartOf, IsAdmitted};
ghost use Rattle.row_set.specs.PlantProgram.{slot_domain};
ghost use Rattle.frozen_plan.specs.Frozen.{Agrees, IsAgreedPoint, frozen_root, only};

use row_kit::{Domain, List};
use row_relax::Rows;
use row_set::program_of;
use std::alloc::{AllocError, Global};
use stn_model::{Plant, Start};
use time_grid::Grid;

/// The rows of the plans that agree with the kept starts before a period. None comes exactly where a kept start does not fit or
/// two share a slot: then no feasible plan agrees. Else a slot before the period may have the quanta that are kept there alone,
/// and each other slot what it may have in the plant. The error is want of memory. It costs what the plant's program costs, and
/// a walk through the slots for each kept start.
pub fn freeze(
    alloc: Global,
    plant: &Plant,
    kept: &[Start],
    period: u32,
) -> Result<Option<Rows>, AllocError>
    requires sound { Sound plant.now }
    requires early { All (λ start. start.period < period) kept.now }
    ensures some { IfOk result (λ frozen. IsSome frozen ↔ HasPoint plant.now kept.now) }
    ensures plain { IfOk result (λ frozen. IfSome frozen (λ rows. rows.choices ≡ None)) }
    ensures part { IfOk result (λ frozen. IfSome frozen (λ rows. IsPartOf plant.now rows.program)) }
    ensures root { IfOk result (λ frozen. IfSome frozen (λ rows. rows.program.root
        ≡ frozen_root plant.now period kept.now)) }

    // The plans that it admits are exactly the feasible ones that agree.
    ensures exact { IfOk result (λ frozen. IfSome frozen (λ rows. (plan : Items Start)
        → IsAdmitted plant.now rows.program plan
        ↔ (Feasible plant.now plan × Agrees period kept.now plan))) }

    // Its lawful points are exactly the points of the feasible plans that agree.
    ensures lawful { IfOk result (λ frozen. IfSome frozen (λ rows. (point : Items ℕ)
        → IsLawful rows.program point ↔ IsAgreedPoint plant.now period kept.now point)) }
{
    let grid = Grid::new(alloc, plant)?;
    let mut program = program_of(alloc, plant)?;
    match frozen_root(alloc, plant, &grid, &program.root, kept, period)? {
        Some(root) => {
            program.root = root;
            Ok(Some(Rows {
                program,
                choices: None,
            }))
        }
        None => Ok(None),
    }
}

// What the slots may have where the starts are kept, from what they may have in the plant.
fn frozen_root(
    alloc: Global,
    plant: &Plant,
    grid: &Grid,
    whole: &List<Domain>,
    kept: &[Start],
    period: u32,
) -> Result<Option<List<Domain>>, AllocError>
    requires sound { Sound plant.now }
    requires grid { IsGrid plant.now grid.now }
    requires whole { whole.now ≡ map (slot_domain plant.now) (slots plant.now) }
    ensures some { IfOk result (λ frozen. IsSome frozen ↔ HasPoint plant.now kept.now) }
    ensures root { IfOk result (λ frozen. IfSome frozen
        (λ root. root ≡ frozen_root plant.now period kept.now)) }
{
    let mut point = vec![in alloc; 0u8; grid.slot_count() as usize]?;
    if !grid.point_of(plant, kept, &mut point) {
        return Ok(None);
    }
    let values = point.as_slice();
    let mut root = Vec::with_capacity(alloc, whole.len())?;
    for place in 0..grid.slot_count() {
        let slot = grid.run_period(place);
        let own = *whole.get(place as usize);
        root.push(frozen_domain(own, slot.1, period, values[place as usize]))?;
    }
    Ok(Some(List::from_vec(root)))
}

// What a slot of this start may have: before the period the kept value alone, and else what it may have in the plant.
fn frozen_domain(own: Domain, start: u32, period: u32, value: u8) -> Domain
    ensures { result ≡ (if nat_lt start period then only value else own) }
{
    if start < period { only(value) } else { own }
}

// The domain of one value.
fn only(value: u8) -> Domain
    ensures { result ≡ only value }
{
    if value == 0 {
        Domain {
            zero: true,
            lo: 1,
            hi: 0,
        }
    } else {
        Domain {
            zero: false,
            lo: value,
            hi: value,
        }
    }
}
