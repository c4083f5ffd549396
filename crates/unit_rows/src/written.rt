//! What comes of adding rows.
use std::alloc::AllocError;

/// It is done, or memory is wanting.
pub type Written = Result<(), AllocError>;
