//! Areas by calls that do nothing where there is nothing to do.
use row_kit::{Area, Domain};

/// The domain of a slot; that of 0 alone where there is no such slot.
pub fn domain_of(area: &Area, slot: u32) -> Domain {
    if slot < area.slot_count() {
        area.domain(slot)
    } else {
        Domain {
            zero: true,
            lo: 1,
            hi: 0,
        }
    }
}

/// Whether a domain has at most one value.
pub fn is_single(domain: Domain) -> bool {
    if domain.zero {
        domain.lo > domain.hi
    } else {
        domain.lo >= domain.hi
    }
}

/// The least value of a domain that has one.
pub fn least_value(domain: Domain) -> u8 {
    if domain.zero { 0 } else { domain.lo }
}

/// Keeps the values of a domain.
pub fn keep(area: &mut Area, slot: u32, domain: Domain) {
    if slot < area.slot_count() && domain.lo >= 1 {
        area.keep(slot, domain.zero, domain.lo, domain.hi);
    }
}

/// Goes back to a mark.
pub fn back_to(area: &mut Area, mark: u32) {
    if mark <= area.mark() {
        area.back(mark);
    }
}
