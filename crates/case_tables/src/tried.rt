//! What comes of trying a case.
use std::alloc::AllocError;

/// What a step gives is printed, or memory is wanting.
pub type Tried = Result<(), AllocError>;
