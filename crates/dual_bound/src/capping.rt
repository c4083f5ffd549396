//! The cap that a certificate gives.
ghost use Rattle.std.specs.Prelude.{◌≡◌, ◌<◌, ◌^◌, length, unsigned_abs, Some};
ghost use Rattle.row_kit.specs.Area.{present};
ghost use Rattle.dual_bound.specs.Total.{total_at};
ghost use Rattle.dual_bound.specs.Cap.{cert_cap, scaled_cap, IsSmallCap, IsFloor, CapHolds};

use crate::cert::Cert;
use crate::totals::total;
use proof_tree::Capped;
use row_kit::{Area, Program};

/// The cap that a certificate gives over an area. It is `Bad` exactly where there is no total, or the scale is 0 and the total
/// is not negative; `NoPoint` exactly where the scale is 0 and the total is negative; and else the greatest whole number that
/// is not above the total over the scale. No point of the area that keeps every row has a value above it, and under `NoPoint`
/// there is no such point. It takes no memory.
pub fn cap(program: &Program, area: &Area, cert: &Cert) -> Capped
    requires { length (present area.now) ≡ length program.now.root }
    ensures cap { result ≡ cert_cap program.now (present area.now) cert.now }
    ensures floor { IsFloor cert.now.scale
        (total_at program.now (present area.now) cert.now) result }
    ensures small { IsSmallCap (10 ^ 30) result }
    ensures holds { CapHolds program.now (present area.now) result }
{
    match total(program, area, cert) {
        None => Capped::Bad,
        Some(total) => scaled(total, cert.scale),
    }
}

/// The cap that a total and a scale give.
pub fn scaled(total: i128, scale: u32) -> Capped
    requires { unsigned_abs total < 2 ^ 118 }
    ensures cap { result ≡ scaled_cap scale (Some total) }
    ensures floor { IsFloor scale (Some total) result }
{
    if scale != 0 {
        Capped::AtMost(total.div_euclid(i128::from(scale)))
    } else if total < 0 {
        Capped::NoPoint
    } else {
        Capped::Bad
    }
}
