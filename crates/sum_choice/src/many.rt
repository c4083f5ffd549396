//! Whether a part of a plant is searched with sums.
ghost use Rattle.std.specs.Prelude.{◌≡◌, ◌-◌, ◌*◌, ◌^◌, min};
ghost use Rattle.row_kit.specs.Points.{points_of};
ghost use Rattle.sum_choice.specs.Headed.{is_headed};

use row_kit::{Domain, Program};

// Where more points are left, sums are declared.
const MOST_POINTS: u64 = 50_000;

/// Whether the slots from the number `levels` on have more than 50,000 points: exactly then the part's log has a head. Parts of a
/// plant that are told apart by as many first slots all have one, or none.
pub fn has_many(part: &Program, levels: u32) -> bool
    ensures { result ≡ is_headed part.now levels }
{
    let root = part.root.as_slice();
    let levels = levels as usize;
    if levels > root.len() {
        return false;
    }
    count_points(&root[levels..]) > MOST_POINTS
}

// The number of points of domains, or the greatest number of 64 bits.
fn count_points(domains: &[Domain]) -> u64
    ensures { result ≡ min (points_of domains.now) (2 ^ 64 - 1) }
{
    let mut count = 1u64;
    for domain in domains {
        count = times(count, domain.count());
    }
    count
}

// The product of two numbers, or the greatest number of 64 bits.
fn times(count: u64, more: u32) -> u64
    ensures { result ≡ min (count * more) (2 ^ 64 - 1) }
{
    count.saturating_mul(u64::from(more))
}
