//! How long lists may be.

/// How many values there may be up to a size, over all sorts.
pub const MAX_VALUES: usize = 2_000;

/// How many ways there may be to choose values for the variables of an entry.
pub const MAX_INSTANCES: usize = 100_000;
