// Document 01 in definitions, on bytes: what a reader must believe. They are in specs/. Here are the numbers that bound the work, for the code that
// has to keep to them: no function.
#![tactic(auto)]

// The largest prime that is covered.
pub const LARGEST_PRIME: u32 = 251;

// The most rows that a machine has, and entries that a row has.
pub const WIDEST: usize = 64;

// The most coefficients that a polynomial has.
pub const COEFFICIENTS: usize = WIDEST + 1;

// The most rows that a candidate list has.
pub const MOST_CANDIDATES: usize = 128;

// Bytes enough for every matrix, and for every candidate list.
pub const MATRIX_ROOM: usize = WIDEST * WIDEST;

pub const CANDIDATE_ROOM: usize = MOST_CANDIDATES * WIDEST;

// The bytes of the stage record at the largest n.
pub const STAGE_RECORD: usize = 2 * WIDEST;

// The first byte of each record of a case file.
pub const MARK: u8 = 255;

// The base to which a case file has the two halves of its allowance.
pub const RADIX: u32 = 128;

// The largest allowance that the two halves hold.
pub const MOST_ALLOWANCE: u32 = RADIX * RADIX - 1;

// The longest case has so many bytes.
pub const LONGEST_CASE: usize = 12682;
