//! The limits of a file's parts.
use kr_base::{NAME_LIMIT, PATH_LIMIT, VALUE_LIMIT};

/// A value has at most this many bytes.
pub(crate) const LONGEST_VALUE: u32 = VALUE_LIMIT as u32;

/// A path has at most this many bytes.
pub(crate) const LONGEST_PATH: u16 = PATH_LIMIT as u16;

/// A resource has at most this many bytes.
pub(crate) const LONGEST_RESOURCE: u16 = NAME_LIMIT as u16;
