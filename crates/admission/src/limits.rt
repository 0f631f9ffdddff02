// The numbers of a width, and the tests of a configuration that look at one number alone.
ghost use Rattle.std.specs.Prelude.{◌≡◌};
ghost use Rattle.kinds.specs.Widths.{bits_of};
ghost use Rattle.rule.specs.Numbers.{greatest, accumulator, limit};
ghost use Rattle.rule.specs.Refusals.{order_fits, shift_fits};

use kinds::{Order, Shift, Width};

// M, the greatest sample.
pub fn greatest_sample(width: Width) -> u64
    ensures { result ≡ greatest (bits_of width) }
{
    match width {
        Width::Eight => u64::from(u8::MAX),
        Width::Sixteen => u64::from(u16::MAX),
        Width::ThirtyTwo => u64::from(u32::MAX),
    }
}

// A, the accumulator's bits.
pub fn accumulator_bits(width: Width) -> u32
    ensures { result ≡ accumulator (bits_of width) }
{
    match width {
        Width::Eight => 16,
        Width::Sixteen => 32,
        Width::ThirtyTwo => 64,
    }
}

// 2^(A-1)-1, the greatest number of the accumulator.
pub fn accumulator_limit(width: Width) -> u64
    ensures { result ≡ limit (bits_of width) }
{
    match width {
        Width::Eight => i16::MAX as u64,
        Width::Sixteen => i32::MAX as u64,
        Width::ThirtyTwo => i64::MAX as u64,
    }
}

// Test 1.
pub fn is_order(order: Order) -> bool
    ensures { result ≡ order_fits order.0 }
{
    (1..=32).contains(&order.0)
}

// Test 2.
pub fn is_shift(width: Width, shift: Shift) -> bool
    ensures { result ≡ shift_fits (bits_of width) shift.0 }
{
    shift.0 < accumulator_bits(width)
}
