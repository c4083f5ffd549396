//! A derivation.
use derived_rows::Derived;
use range_prop::RowCut;

/// A step from a program and domains to the next ones: a cut of a domain, or a row that is added.
#[derive(Drop)]
pub enum Derivation {
    /// A cut: `cut ROW SLOT`.
    Cut(RowCut),
    /// A derived row.
    Row(Derived),
}
