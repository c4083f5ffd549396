//! What reading two logs side by side comes to.

/// How a proof has grown.
#[derive(Clone, Copy, Debug, PartialEq, Eq)]
pub struct Growth {
    /// How many ends of the old proof are open.
    pub ends: u64,
    /// How many of them stand below so many splits that with those their domains allow there could be more than a log may have.
    pub deep: u64,
    /// How many splits of it have a floor above the profit, that counts as a cap.
    pub floors: u64,
    /// How many boxes the old proof counts.
    pub before: u64,
    /// How many boxes the proof counts that goes on from it.
    pub after: u64,
}
