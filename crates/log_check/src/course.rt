//! Where a check stands.
use log_lines::Defect;
use proof_tree::Capped;

/// Where a check stands after the items that it has taken.
#[derive(Clone, Copy)]
pub enum Course {
    /// More items have to come.
    Going,
    /// The proof has ended with this cap.
    Ended(Capped),
    /// This is the first meaning defect.
    Faulty(Defect),
}
