//! What comes of filling in a table or a plant.
use std::alloc::AllocError;

/// It is done, or memory is wanting.
pub type Written = Result<(), AllocError>;
