// Samples of 16 bits.
ghost use Rattle.std.proofs.Common.{map-id, refl, rules, sym};
ghost use Rattle.kinds.specs.declared.Width.TheVariants.{Sixteen};

use crate::Sample;
use kinds::{Shift, Width};

impl Sample for u16 {
    type Conv = i32;

    type Wide = i32;

    ghost W = { 16 };

    ghost number = { λ x. x };

    ghost numbers = { λ xs. xs };

    ghost integer = { λ z. z };

    ghost wide = { λ z. z };

    ghost WIDTH = { Sixteen };

    const WIDTH: Width = Width::Sixteen;

    ghost BYTES = { 2 };

    const BYTES: usize = 2;

    ghost ZERO = { 0 };

    const ZERO: u16 = 0;

    ghost MID = { 32768 };

    const MID: u16 = 32768;

    ghost MODULUS = { 65536 };

    const MODULUS: u64 = 65536;

    fn wrapping_add(self, other: u16) -> u16 {
        u16::wrapping_add(self, other)
    }

    fn wrapping_sub(self, other: u16) -> u16 {
        u16::wrapping_sub(self, other)
    }

    fn low_bits(n: u64) -> u16 {
        (n % Self::MODULUS) as u16
    }

    fn to_number(self) -> u32 {
        self as u32
    }

    fn conv(z: i64) -> i32 {
        z as i32
    }

    fn add_product(self, sum: i32, weight: i32) -> i32 {
        sum + weight * (self as i32)
    }

    fn widened(z: i32) -> i32 {
        z
    }

    fn add_wide_product(self, sum: i32, weight: i32) -> i32 {
        sum + weight * (self as i32)
    }

    fn settle(sum: i32, shift: Shift) -> u16 {
        if sum < 0 {
            0
        } else {
            ((sum as u32 >> shift.0) % 65536) as u16
        }
    }

    ghost some_bits = { Prim.search rules };

    ghost numbers_are = { λ xs. sym (map-id xs) };

    ghost width_is = { refl };

    ghost bytes_are = { refl };

    ghost size_is = { refl };

    ghost conv_size_is = { refl };

    ghost conv_align_is = { refl };

    ghost wide_size = { Prim.search rules };

    ghost zero_is = { refl };

    ghost mid_is = { refl };

    ghost modulus_is = { refl };
}
