// Answers of calls that cannot be served.
use thiserror::Error;

/// Memory could not be had. The call left everything as it was, unless it says otherwise.
#[derive(Clone, Copy, Debug, PartialEq, Eq, Error)]
#[error("no memory")]
pub struct NoMemory;

/// Every entry of a table of fixed size is taken.
#[derive(Clone, Copy, Debug, PartialEq, Eq, Error)]
#[error("no entry is free")]
pub struct NoneFree;
