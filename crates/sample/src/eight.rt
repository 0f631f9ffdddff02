// Samples of 8 bits.
ghost use Rattle.std.proofs.Common.{map-id, refl, rules, sym};
ghost use Rattle.kinds.specs.declared.Width.TheVariants.{Eight};

use crate::Sample;
use kinds::{Shift, Width};

impl Sample for u8 {
    type Conv = i16;

    type Wide = i32;

    ghost W = { 8 };

    ghost number = { λ x. x };

    ghost numbers = { λ xs. xs };

    ghost integer = { λ z. z };

    ghost wide = { λ z. z };

    ghost WIDTH = { Eight };

    const WIDTH: Width = Width::Eight;

    ghost BYTES = { 1 };

    const BYTES: usize = 1;

    ghost ZERO = { 0 };

    const ZERO: u8 = 0;

    ghost MID = { 128 };

    const MID: u8 = 128;

    ghost MODULUS = { 256 };

    const MODULUS: u64 = 256;

    fn wrapping_add(self, other: u8) -> u8 {
        u8::wrapping_add(self, other)
    }

    fn wrapping_sub(self, other: u8) -> u8 {
        u8::wrapping_sub(self, other)
    }

    fn low_bits(n: u64) -> u8 {
        (n % Self::MODULUS) as u8
    }

    fn to_number(self) -> u32 {
        self as u32
    }

    fn conv(z: i64) -> i16 {
        z as i16
    }

    fn add_product(self, sum: i16, weight: i16) -> i16 {
        sum + weight * (self as i16)
    }

    fn widened(z: i16) -> i32 {
        z as i32
    }

    fn add_wide_product(self, sum: i32, weight: i32) -> i32 {
        sum + weight * (self as i32)
    }

    fn settle(sum: i32, shift: Shift) -> u8 {
        if sum < 0 {
            0
        } else {
            ((sum as u32 >> shift.0) % 256) as u8
        }
    }

    ghost some_bits = { Prim.search rules };

    ghost numbers_are = { λ xs. sym (map-id xs) };

    ghost width_is = { refl };

    ghost bytes_are = { refl };

    ghost size_is = { refl };

    ghost conv_size_is = { refl };

    ghost conv_align_is = { refl };

    ghost wide_size = { Prim.search rules };

    ghost zero_is = { refl };

    ghost mid_is = { refl };

    ghost modulus_is = { refl };
}
