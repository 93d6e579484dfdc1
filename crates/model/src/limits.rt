// The editions of the file. The first has no check costs.
pub const FIRST_EDITION: usize = 1;

pub const SECOND_EDITION: usize = 2;

// The greatest value of a number that no list's room limits (a size, a cost, a check cost, a loop's bound), the number of regions, and the limits of answers.
pub const MOST_BYTES: usize = 16777215;

pub const MOST_CYCLES: usize = 16777215;

pub const MOST_CHECK: usize = 65535;

pub const MOST_VISITS: usize = 4096;

// How many regions there are, 0 to 31.
pub const MOST_REGIONS: usize = 32;

// The most functions for which Best finds a layout.
pub const MOST_GROUPED: usize = 8;

// The bound's limit: the greatest bound that is given.
pub const MOST_BOUND: u64 = 1_000_000_000_000_000_000;

// The last refusal's number, and the greatest place of one.
pub const LAST_REFUSAL: u32 = 22;

pub const MOST_PLACE: u64 = 18_446_744_073_709_551_615;

// No sentence has more bytes.
pub const MOST_SENTENCE: usize = 128;
