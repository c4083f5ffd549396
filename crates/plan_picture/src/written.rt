//! What comes of writing.
use std::alloc::AllocError;

/// What comes of appending to a text: it is done, or memory is wanting.
pub type Written = Result<(), AllocError>;
