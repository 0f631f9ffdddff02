// What the width of a sample decides: its accumulator, the sums and differences that wrap, and what becomes of a sum.
#![tactic(auto)]

ghost use Rattle.std.specs.Prelude.{◌≡◌, List, ℕ, ℤ, pos, map, ◌+◌, ◌-◌, ◌/◌, ◌%◌, ◌^◌, ◌≤◌, ◌<◌, ◌+ℤ◌, ◌*ℤ◌};
ghost use Rattle.std.specs.Mem.{type_size};
ghost use prog.Memory.{align};
ghost use denote.Param.{layout};
ghost use Rattle.kinds.specs.Widths.{bits_of};
ghost use Rattle.kinds.specs.declared.Width.{Width};
ghost use Rattle.rule.specs.Numbers.{accumulator, Inside};
ghost use Rattle.rule.specs.Prediction.{settle};

use kinds::{SampleCount, Shift, Width};

mod eight;
mod sixteen;
mod thirty_two;

pub trait Sample: Copy {
    // The accumulator has twice a sample's bits.
    type Conv: Copy;

    // A sum in a register's width, 32 bits or more. Narrower sums of the order-6 way get packed into vectors, and each prediction then
    // waits for the unpacking.
    type Wide: Copy;

    // The bits of a sample.
    ghost W: { ℕ };

    // The numbers that values stand for.
    ghost number: { Self → ℕ };

    ghost numbers: { List Self → List ℕ };

    ghost integer: { Self.Conv → ℤ };

    ghost wide: { Self.Wide → ℤ };

    ghost WIDTH: { Width };

    const WIDTH: Width;

    ghost BYTES: { ℕ };

    const BYTES: usize;

    ghost ZERO: { Self };

    const ZERO: Self;

    // MID, the centre.
    ghost MID: { Self };

    const MID: Self;

    ghost MODULUS: { ℕ };

    // How many samples there are.
    const MODULUS: u64;

    fn wrapping_add(self, other: Self) -> Self
        ensures { number result ≡ (number self + number other) % 2 ^ W };

    fn wrapping_sub(self, other: Self) -> Self
        ensures { number result ≡ (number self + (2 ^ W - number other)) % 2 ^ W };

    // The low bits of a number.
    fn low_bits(n: u64) -> Self
        ensures { number result ≡ n % 2 ^ W };

    fn to_number(self) -> u32
        ensures value { result ≡ number self }
        ensures below { number self < 2 ^ W };

    // A whole number of the accumulator's.
    fn conv(z: i64) -> Self::Conv
        requires { Inside W z }
        ensures { integer result ≡ z };

    // The sum with one weight's term more.
    fn add_product(self, sum: Self::Conv, weight: Self::Conv) -> Self::Conv
        requires { (x : ℕ) → x < 2 ^ W → Inside W (integer weight *ℤ pos x) × Inside W (integer sum +ℤ integer weight *ℤ pos x) }
        ensures value { integer result ≡ integer sum +ℤ integer weight *ℤ pos (number self) }
        ensures below { number self < 2 ^ W };

    fn widened(z: Self::Conv) -> Self::Wide
        ensures { wide result ≡ integer z };

    // `add_product` in a register's width.
    fn add_wide_product(self, sum: Self::Wide, weight: Self::Wide) -> Self::Wide
        requires { (x : ℕ) → x < 2 ^ W → Inside W (wide weight *ℤ pos x) × Inside W (wide sum +ℤ wide weight *ℤ pos x) }
        ensures value { wide result ≡ wide sum +ℤ wide weight *ℤ pos (number self) }
        ensures below { number self < 2 ^ W };

    // What becomes of a sum: nothing is left of a negative one, and only here do numbers wrap.
    fn settle(sum: Self::Wide, shift: Shift) -> Self
        requires { shift.0 < accumulator W }
        ensures { number result ≡ settle W shift.0 (wide sum) };

    ghost some_bits: { 0 < W };

    ghost numbers_are: { (xs : List Self) → numbers xs ≡ map number xs };

    ghost width_is: { bits_of WIDTH ≡ W };

    ghost bytes_are: { BYTES ≡ W / 8 };

    // The bytes that a value takes in memory.
    ghost size_is: { type_size Self.row ≡ W / 8 };

    // The bytes that the accumulator takes, and what its place is a multiple of.
    ghost conv_size_is: { type_size Self.Conv.row ≡ W / 4 };

    ghost conv_align_is: { align (layout Self.Conv.row) ≡ W / 4 };

    // A register's number takes few bytes.
    ghost wide_size: { type_size Self.Wide.row ≤ 8 };

    ghost zero_is: { number ZERO ≡ 0 };

    ghost mid_is: { number MID ≡ 2 ^ (W - 1) };

    ghost modulus_is: { MODULUS ≡ 2 ^ W };
}

// The samples that start the decoding of a piece, in the first `count` places of a fixed array; the places past them are never read.
#[derive(Clone, Copy)]
pub struct State<S> {
    pub samples: [S; 32],
    pub count: SampleCount,
}
