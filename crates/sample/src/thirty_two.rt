// Samples of 32 bits.
ghost use Rattle.std.proofs.Common.{map-id, refl, rules, sym};
ghost use Rattle.kinds.specs.declared.Width.TheVariants.{ThirtyTwo};

use crate::Sample;
use kinds::{Shift, Width};

impl Sample for u32 {
    type Conv = i64;

    type Wide = i64;

    ghost W = { 32 };

    ghost number = { λ x. x };

    ghost numbers = { λ xs. xs };

    ghost integer = { λ z. z };

    ghost wide = { λ z. z };

    ghost WIDTH = { ThirtyTwo };

    const WIDTH: Width = Width::ThirtyTwo;

    ghost BYTES = { 4 };

    const BYTES: usize = 4;

    ghost ZERO = { 0 };

    const ZERO: u32 = 0;

    ghost MID = { 2147483648 };

    const MID: u32 = 2147483648;

    ghost MODULUS = { 4294967296 };

    const MODULUS: u64 = 4294967296;

    fn wrapping_add(self, other: u32) -> u32 {
        u32::wrapping_add(self, other)
    }

    fn wrapping_sub(self, other: u32) -> u32 {
        u32::wrapping_sub(self, other)
    }

    fn low_bits(n: u64) -> u32 {
        (n % Self::MODULUS) as u32
    }

    fn to_number(self) -> u32 {
        self
    }

    fn conv(z: i64) -> i64 {
        z as i64
    }

    fn add_product(self, sum: i64, weight: i64) -> i64 {
        sum + weight * (self as i64)
    }

    fn widened(z: i64) -> i64 {
        z
    }

    fn add_wide_product(self, sum: i64, weight: i64) -> i64 {
        sum + weight * (self as i64)
    }

    fn settle(sum: i64, shift: Shift) -> u32 {
        if sum < 0 {
            0
        } else {
            ((sum as u64 >> shift.0) % 4294967296) as u32
        }
    }

    ghost some_bits = { Prim.search rules };

    ghost numbers_are = { λ xs. sym (map-id xs) };

    ghost width_is = { refl };

    ghost bytes_are = { refl };

    ghost size_is = { refl };

    ghost conv_size_is = { refl };

    ghost conv_align_is = { refl };

    ghost wide_size = { Prim.search rules };

    ghost zero_is = { refl };

    ghost mid_is = { refl };

    ghost modulus_is = { refl };
}
