//! Which certificate a box takes, and what its cap leaves open.
ghost use Rattle.std.specs.Prelude.{◌≡◌, length, IfOk, true, false, [], Some, unsigned_abs, ◌<◌, ◌^◌};
ghost use Rattle.std.specs.List.{All};
ghost use Rattle.row_kit.specs.Area.{present};
ghost use Rattle.row_kit.specs.Domain.{IsOpen, IsSingle};
ghost use Rattle.dual_bound.specs.Cap.{cert_cap};
ghost use Rattle.dual_bound.specs.Plain.{plain_cert, IsNoWorseThanPlain};
ghost use Rattle.branch_tree.specs.Compared.{is_over};
ghost use Rattle.branch_tree.specs.laws.Ends.{says_more, IsBoxVerdict};
ghost use Rattle.branch_tree.specs.laws.Grounds.{IsGround, program_of, rows_of};

use crate::flooring::pick_left;
use crate::found::is_chosen;
use crate::reached::Ground;
use box_advice::Advice;
use dual_bound::{Cert, cap};
use dual_climb::{climb, polish};
use proof_tree::{Capped, Item};
use row_kit::{Area, List, Program};
use row_relax::Rows;
use std::alloc::{AllocError, Global};

// Scale 1 without multipliers.
fn plain_cert(alloc: Global) -> Cert
    ensures { result ≡ plain_cert }
{
    Cert {
        scale: 1,
        mults: List::new(alloc),
    }
}

// Whether a cap says more than another: that there is no point, or a lesser number.
fn says_more(one: Capped, other: Capped) -> bool
    ensures { result ≡ says_more one other }
{
    match (one, other) {
        (Capped::NoPoint, Capped::AtMost(_)) => true,
        (Capped::AtMost(a), Capped::AtMost(b)) => a < b,
        _ => false,
    }
}

/// Whether a cap leaves something above the best worth, where there is one.
pub fn exceeds(cap: Capped, best: Option<i128>) -> bool
    ensures { result ≡ is_over cap best }
{
    match (cap, best) {
        (Capped::NoPoint, _) => false,
        (Capped::AtMost(most), Some(worth)) => worth < most,
        _ => true,
    }
}

// The one of two certificates whose cap says more; the first where neither's does.
fn lower(program: &Program, area: &Area, one: Cert, other: Option<Cert>) -> Cert
    requires slots { length (present area.now) ≡ length program.now.root }
    requires no_higher { IsNoWorseThanPlain program.now (present area.now) one }
    ensures { IsNoWorseThanPlain program.now (present area.now) result }
{
    match other {
        None => one,
        Some(other) => if says_more(cap(program, area, &other), cap(program, area, &one)) {
            other
        } else {
            one
        },
    }
}

// The certificate whose cap says most: the advised one, that of the split above, scale 1 without multipliers, or, where none
// says more than that, one that is climbed to from there.
fn chosen(
    ground: &Ground,
    area: &Area,
    advised: Option<Cert>,
    held: Option<Cert>,
) -> Result<Cert, AllocError>
    requires ground { IsGround ground.now }
    requires slots { length (present area.now) ≡ length (program_of ground.now).root }
    requires each_open { All IsOpen (present area.now) }
    ensures { IfOk result (IsNoWorseThanPlain (program_of ground.now) (present area.now)) }
{
    let program = &ground.rows.program;
    let plain = plain_cert(ground.alloc);
    let cert = lower(program, area, plain_cert(ground.alloc), advised);
    let cert = lower(program, area, cert, held);
    if says_more(cap(program, area, &cert), cap(program, area, &plain)) {
        return Ok(cert);
    }
    let climbed = climb(ground.alloc, program, area, &plain)?;
    Ok(lower(program, area, cert, Some(climbed)))
}

// The end of a box with points: its only point, where each slot that points have has one value, a certificate that leaves nothing above the best worth, or a split. What it
// holds of a certificate takes some 150 kB of stack, which are to be no part of the frame of each box above one that is judged. The
// area is afterwards as before.
#[inline(never)]
pub(crate) fn judge(
    ground: &Ground,
    area: &mut Area,
    advice: Advice,
    held: Option<Cert>,
    best: Option<i128>,
) -> Result<Item<Rows>, AllocError>
    requires ground { IsGround ground.now }
    requires slots { length (present area.old) ≡ length (program_of ground.now).root }
    requires each_open { All IsOpen (present area.old) }
    ensures verdict { IfOk result (IsBoxVerdict (rows_of ground.now) ground.now.floors
        ground.now.given (present area.old) best) }
    ensures same { area.new ≡ area.old }
{
    let Advice { cert, slot, max } = advice;
    if is_chosen(ground, area) {
        return Ok(Item::Point);
    }
    let cert = chosen(ground, area, cert, held)?;
    if !exceeds(cap(&ground.rows.program, area, &cert), best) {
        return Ok(Item::Dual(cert));
    }
    settle_or_split(ground, area, cert, slot, max, best)
}

// A split with the polished certificate, or the end of a box that the polished certificate closes.
fn settle_or_split(
    ground: &Ground,
    area: &mut Area,
    cert: Cert,
    slot: Option<u32>,
    max: Option<u8>,
    best: Option<i128>,
) -> Result<Item<Rows>, AllocError>
    requires ground { IsGround ground.now }
    requires slots { length (present area.old) ≡ length (program_of ground.now).root }
    requires each_open { All IsOpen (present area.old) }
    requires more { ¬ All IsSingle (present area.old) }
    requires no_higher { IsNoWorseThanPlain (program_of ground.now) (present area.old) cert }
    requires over { is_over (cert_cap (program_of ground.now) (present area.old) cert) best ≡ true }
    ensures verdict { IfOk result (IsBoxVerdict (rows_of ground.now) ground.now.floors
        ground.now.given (present area.old) best) }
    ensures same { area.new ≡ area.old }
{
    let mut cert = cert;
    polish(ground.alloc, &ground.rows.program, area, &mut cert, best)?;
    if !exceeds(cap(&ground.rows.program, area, &cert), best) {
        return Ok(Item::Dual(cert));
    }
    let pick = pick_left(ground, area, &cert, &best, slot, max);
    Ok(Item::Split(pick, cert))
}
