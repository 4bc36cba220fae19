//! The limits of a line and of its arguments.

/// The most bytes of a line, without its LF.
pub const MAX_LINE_BYTES: usize = 8192;

/// The highest slot of a credential.
pub const MAX_SLOT: u64 = 255;

/// The most bytes of a nonce.
pub const MAX_NONCE_BYTES: usize = 128;

/// The most bytes of a permission.
pub const MAX_PERMISSION_BYTES: usize = 255;
