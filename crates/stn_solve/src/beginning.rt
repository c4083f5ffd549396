//! How the search of a part with a head begins.
ghost use Rattle.std.specs.Prelude.{◌≡◌, IfOk, IsTrue};
ghost use Rattle.stn_model.specs.Sound.{Sound};
ghost use Rattle.row_kit.specs.Point.{IsLawful};
ghost use Rattle.row_set.specs.Parts.{IsPartOf};
ghost use Rattle.sum_slots.specs.Larger.{completed};
ghost use Rattle.sum_slots.specs.Shown.{AreRanges};
ghost use Rattle.plan_told.specs.Claims.{HaveBytes};
ghost use Rattle.plan_told.specs.Given.{least_found};
ghost use Rattle.head_choice.specs.Heading.{IsHeaded};

use box_advice::Advisers;
use head_choice::{Headed, with_head};
use plan_told::least_found;
use row_kit::{Domain, Found, List, Program, is_lawful};
use std::alloc::{AllocError, Global};
use stn_model::Plant;
use sum_slots::{Sum, complete};

/// A part with its head, the point with which the search of it begins, and its least point, where that is lawful.
#[derive(Drop)]
pub struct Beginning {
    pub headed: Headed,
    pub point: List<u8>,
    pub least: Option<Found>,
}

// A part of a plant's choices with what is chosen for its head, and a point with the values of the sums, where it is lawful.
pub fn begun_at<A: Advisers>(
    alloc: Global,
    plant: &Plant,
    part: Program,
    judged: List<Domain>,
    start: &[u8],
) -> Result<Beginning, AllocError>
    requires sound { Sound plant.now }
    requires part { IsPartOf plant.now part }
    requires ranges { AreRanges part judged }
    ensures headed { IfOk result (λ begun. IsHeaded plant.now part judged begun.headed) }
    ensures point { IfOk result (λ begun. IsLawful part start.now
        → begun.point ≡ completed begun.headed.sums start.now) }
    ensures least { IfOk result (λ begun. begun.least ≡ least_found part) }
{
    let lawful = is_lawful(&part, start);
    let least = least_found(alloc, &part)?;
    let headed = with_head::<A>(alloc, plant, part, judged)?;
    let point = completed(alloc, headed.sums.as_slice(), start, lawful)?;
    Ok(Beginning {
        headed,
        point,
        least,
    })
}

// A lawful point of a part as it is in the part's program with a head: followed by the values of the sums. There is no point where
// it is not lawful.
fn completed(
    alloc: Global,
    sums: &[Sum],
    point: &[u8],
    lawful: bool,
) -> Result<List<u8>, AllocError>
    requires { IsTrue lawful → HaveBytes sums.now point.now }
    ensures { IfOk result (λ whole. IsTrue lawful → whole ≡ completed sums.now point.now) }
{
    if lawful {
        complete(alloc, sums, point)
    } else {
        Ok(List::new(alloc))
    }
}
