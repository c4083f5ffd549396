//! Whole values near what slots come to.
ghost use Rattle.std.specs.Prelude.{◌≡◌, ℕ, ◌<◌, length};
ghost use Rattle.row_kit.specs.Domain.{Holds, IsNormal, IsOpen};

use chain_simplex::Amount;
use fixed_point::ONE;
use row_kit::Domain;

/// The value of a domain that is nearest to what a slot comes to: 0 where it is held and the slot is started by less than a half.
pub fn rounded(amount: &Amount, domain: &Domain) -> u8
    requires { IsNormal domain.now }
    ensures { IsOpen domain.now → Holds domain.now result }
{
    if domain.lo > domain.hi || (domain.zero && amount.started < ONE / 2) {
        return 0;
    }
    let quanta = amount.quanta.saturating_add(ONE / 2) / ONE;
    if quanta <= i64::from(domain.lo) {
        domain.lo
    } else if quanta >= i64::from(domain.hi) {
        domain.hi
    } else {
        quanta as u8
    }
}
