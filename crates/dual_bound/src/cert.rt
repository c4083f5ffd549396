//! Certificates: a scale, and factors of rows.
use row_kit::List;

/// A row and its factor, 1 or more. A row without a factor counts as one with factor 0.
#[derive(Clone, Copy, PartialEq, Eq, Debug)]
pub struct Mult {
    pub row: u32,
    pub factor: u64,
}

/// A scale and the factors of rows, in ascending order of rows. With the scale 1 or more its total over an area is at least the
/// scale times the value of each lawful point of the area; with the scale 0 a negative total shows that there is none.
#[derive(Drop)]
pub struct Cert {
    pub scale: u32,
    pub mults: List<Mult>,
}
