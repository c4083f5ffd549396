//! What comes of listing.
use std::alloc::AllocError;

/// It is done, or memory is wanting.
pub type Written = Result<(), AllocError>;
