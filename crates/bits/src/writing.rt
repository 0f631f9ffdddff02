// Writes a bit field, one bit a turn.
ghost use Rattle.std.specs.Prelude.{◌≡◌, ◌+◌, ◌^◌, ◌≤◌, ◌<◌};
ghost use Rattle.bits.specs.Fields.{replaced, with_bit, with_field};

fn power(p: usize) -> u64
    requires { p ≤ 8 }
    ensures { result ≡ 2 ^ p }
{
    1u64 << p
}

// A byte with bit p replaced: the bits below it, x, the bits above it.
fn replace(byte: u8, p: usize, x: u64) -> u8
    requires { (p < 8) × (x < 2) }
    ensures { result ≡ replaced byte p x }
{
    let one = power(p);
    let two = power(p + 1);
    let bits = byte as u64;
    (bits % one + x * one + bits / two * two) as u8
}

// Replaces bit i after the bit place `at`; past the end it changes nothing.
fn put_bit(bytes: &mut [u8], at: usize, i: usize, x: u64)
    requires { x < 2 }
    ensures { bytes.new ≡ with_bit bytes.old (at + i) x }
{
    let past = at % 8 + i % 8;
    let place = at / 8 + i / 8 + past / 8;
    if bytes.len() <= place {
        return;
    }
    bytes[place] = replace(bytes[place], past % 8, x);
}

// Replaces the `width` bits at `at` by the low bits of `value`, and no other bit.
pub fn write_uint(bytes: &mut [u8], at: usize, width: usize, value: u64)
    ensures { bytes.new ≡ with_field bytes.old at width value }
{
    let mut left = value;
    for i in 0..width {
        put_bit(bytes, at, i, left % 2);
        left /= 2;
    }
}
