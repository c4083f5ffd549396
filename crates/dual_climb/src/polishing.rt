//! Better certificates by one row's factor at a time.
ghost use Rattle.std.specs.Prelude.{◌≡◌, ℕ, ◌+◌, ◌≤◌, ◌<◌, ◌^◌, ◌↔◌, ◌⊎◌, length, pos, ◌+ℤ◌, ◌≤ℤ◌, IsTrue, IsSome, IfOk, OnErr, Some, true, false};
ghost use Rattle.std.specs.List.{All};
ghost use Rattle.row_kit.specs.Area.{present};
ghost use Rattle.row_kit.specs.Domain.{IsOpen};
ghost use Rattle.dual_bound.specs.Cap.{cert_cap, scaled_cap};
ghost use Rattle.dual_bound.specs.Total.{total_at, IsUsable};
ghost use Rattle.dual_climb.specs.Factors.{cert_of};
ghost use Rattle.dual_climb.specs.Polished.{IsPolishedFrom, IsKeptOrLower, NeverRises, IsReached};
ghost use Rattle.dual_climb.specs.RowBest.{RowBestBy, RowBest};
ghost use Rattle.dual_climb.specs.laws.Held.{IsHeld, CanMove};
ghost use Rattle.dual_climb.specs.laws.Sums.{HaveSameSums, IsLoweredBy};

use crate::factors::{gathered, spread};
use crate::gains::gains_under;
use crate::held::{Held, improve};
use dual_bound::{Cert, MOST_MULTS, usable_total};
use row_kit::{Area, Program};
use std::alloc::{AllocError, Global};

/// Lowers the total of a certificate by one row's factor at a time, each time to the least along the row, and only where that
/// takes the scale or more off the total. It ends where no factor of a row is left that does, or where the cap is at most
/// `stop`. The scale stays; where no factor changes, after want of memory, and where there are more rows than a certificate may name, the
/// certificate is as before.
///
/// A pass looks at the entries of each row once, or twice where the row has a factor, and twice more on a side where the total
/// falls by less than the scale. A row that changes costs its entries some four times for each time that the distance between
/// the two factors can be halved. There are at most as many changes as the fall of the total has scales. It takes memory for a
/// factor of each row and for what each slot gains.
pub fn polish(
    alloc: Global,
    program: &Program,
    area: &Area,
    cert: &mut Cert,
    stop: Option<i128>,
) -> Result<(), AllocError>
    requires slots { length (present area.now) ≡ length program.now.root }
    requires scale { 1 ≤ cert.old.scale }
    requires total { IsSome (total_at program.now (present area.now) cert.old) }
    ensures scale { cert.new.scale ≡ cert.old.scale }
    ensures total { NeverRises (total_at program.now (present area.now) cert.old)
        (total_at program.now (present area.now) cert.new) }
    ensures changes { IsPolishedFrom program.now (present area.now) cert.old cert.new }
    ensures kept { IsKeptOrLower program.now (present area.now) cert.old cert.new }
    ensures err { OnErr result (cert.new ≡ cert.old) }
    ensures best { IfOk result (λ _. RowBest program.now (present area.now) cert.new
        ⊎ IsReached stop (cert_cap program.now (present area.now) cert.new)) }
{
    if program.rows.len() > MOST_MULTS {
        return Ok(());
    }
    let mut held = hold(alloc, program, area, cert)?;
    if descend(program, area, cert.scale, stop, &mut held) {
        cert.mults = gathered(alloc, held.mults.as_slice())?;
    }
    Ok(())
}

// A factor for each row, the lines and the total of a certificate.
pub fn hold(alloc: Global, program: &Program, area: &Area, cert: &Cert) -> Result<Held, AllocError>
    requires slots { length (present area.now) ≡ length program.now.root }
    requires scale { 1 ≤ cert.now.scale }
    requires total { IsSome (total_at program.now (present area.now) cert.now) }
    requires few_rows { length program.now.rows ≤ 50000 }
    ensures area { CanMove program.now (present area.now) cert.now.scale }
    ensures held { IfOk result (λ held. IsHeld program.now (present area.now) cert.now.scale
        held.mults.items held.gains.lines.items held.gains.most.items held.total) }
    ensures total { IfOk result (λ held. total_at program.now (present area.now) cert.now
        ≡ Some held.total) }
    ensures same { IfOk result (λ held. HaveSameSums held.mults.items cert.now.mults) }
{
    let _ = area.slot_count();
    let gains = gains_under(alloc, program, area, cert)?;
    let total = usable_total(program, area, cert);
    let mults = spread(alloc, program.rows.len(), cert.mults.as_slice())?;
    Ok(Held {
        mults,
        gains,
        total,
    })
}

// Passes over the rows until nothing changes or the cap is reached; whether some factor changed.
fn descend(program: &Program, area: &Area, scale: u32, stop: Option<i128>, held: &mut Held) -> bool
    requires area { CanMove program.now (present area.now) scale }
    requires scale { 1 ≤ scale }
    requires held { IsHeld program.now (present area.now) scale held.old.mults.items
        held.old.gains.lines.items held.old.gains.most.items held.old.total }
    ensures held { IsHeld program.now (present area.now) scale held.new.mults.items
        held.new.gains.lines.items held.new.gains.most.items held.new.total }
    ensures never { held.new.total ≤ℤ held.old.total }
    ensures fell { IsTrue result → (held.new.total +ℤ pos scale) ≤ℤ held.old.total }
    ensures same { result ≡ false → held.new.mults.items ≡ held.old.mults.items }
    ensures changes { IsLoweredBy scale program.now (present area.now) scale held.old.mults.items
        held.new.mults.items }
    ensures best { RowBestBy scale program.now (present area.now)
        (cert_of scale held.new.mults.items)
        ⊎ IsReached stop (scaled_cap scale (Some held.new.total)) }
{
    let mut changed = false;
    while pass(program, area, scale, scale, stop, held) {
        changed = true;
    }
    changed
}

// Improves the factor of each row once, where that lowers the total by so much or more, until the cap is reached; whether some
// factor changed.
pub fn pass(
    program: &Program,
    area: &Area,
    scale: u32,
    least_fall: u32,
    stop: Option<i128>,
    held: &mut Held,
) -> bool
    requires area { CanMove program.now (present area.now) scale }
    requires scale { 1 ≤ scale }
    requires some { 1 ≤ least_fall }
    requires fall { least_fall ≤ 2 ^ 20 }
    requires held { IsHeld program.now (present area.now) scale held.old.mults.items
        held.old.gains.lines.items held.old.gains.most.items held.old.total }
    ensures held { IsHeld program.now (present area.now) scale held.new.mults.items
        held.new.gains.lines.items held.new.gains.most.items held.new.total }
    ensures never { held.new.total ≤ℤ held.old.total }
    ensures fell { IsTrue result → (held.new.total +ℤ pos least_fall) ≤ℤ held.old.total }
    ensures changes { IsLoweredBy least_fall program.now (present area.now) scale
        held.old.mults.items held.new.mults.items }
    ensures best { result ≡ false → RowBestBy least_fall program.now (present area.now)
        (cert_of scale held.new.mults.items) ⊎ IsReached stop
        (scaled_cap scale (Some held.new.total)) }
    ensures same { result ≡ false → held.new.mults.items ≡ held.old.mults.items }
{
    let mut changed = false;
    for number in 0..program.rows.len() {
        if improve(program, area, scale, least_fall, stop, held, number) {
            changed = true;
        }
    }
    changed
}
