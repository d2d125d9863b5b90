//! The limits within which a script is read.

/// The greatest height of a tree, the Program's own node counted.
pub const MAX_HEIGHT: u32 = 600;

/// The most parentheses that are open at one point and group or hold the parameters of an arrow that isn't async.
pub const MAX_OPEN: u32 = 1200;

/// A text with fewer bytes than this is too short to be nested too deep: a script of it is within both limits.
pub const SHORT_BYTES: usize = 300;
