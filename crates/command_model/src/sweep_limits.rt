//! How long the streams of a sweep may be, and how far a load program may go.

/// The input, and the output and the errors of each run of a sweep, have at most so many bytes.
pub const STREAM_LIMIT: u64 = 16_777_216;

/// A load program may have at most so many pages mapped.
pub const LOAD_PAGES: u32 = 512;

/// A load program may take at most so many steps at each length.
pub const LOAD_BUDGET: u64 = 1_000_000;
