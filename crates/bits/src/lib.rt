// Bit fields of a byte slice: bit 0 is the least significant bit of the first byte, and a field's first bit is its least significant.
// A field is read in `reading` and replaced in `writing`; proofs/ has the laws of both, such as that what was written is read.
#![tactic(auto)]

pub mod reading;
pub mod writing;
