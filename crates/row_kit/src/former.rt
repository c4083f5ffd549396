//! What a slot's domain was before.
use crate::domain::Domain;

// What a slot's domain was before a change.
#[derive(Clone, Copy)]
pub struct Former {
    pub slot: u32,
    pub domain: Domain,
}
