// Numbers as a line has them, by their 64 bits, and as the port has them. No cast loses: a number that does not fit becomes one that the
// case does not have.
ghost use Rattle.std.specs.Prelude.{◌≤◌};

pub(crate) fn place(n: u64) -> usize {
    n as usize
}

pub(crate) fn count(n: usize) -> u64 {
    n as u64
}

// A field of 32 bits. Nothing is as large as the greatest.
pub(crate) fn word(n: u64) -> u32 {
    u32::try_from(n).unwrap_or(u32::MAX)
}

pub(crate) fn word_bits(n: u32) -> u64 {
    u64::from(n)
}

pub(crate) fn signed(bits: u64) -> i64 {
    bits.cast_signed()
}

pub(crate) fn signed_bits(z: i64) -> u64 {
    z.cast_unsigned()
}

// The least weight stands for what is none, so that sums differ.
fn weight(bits: u64) -> i32 {
    i32::try_from(signed(bits)).unwrap_or(i32::MIN)
}

pub(crate) fn weight_bits(weight: i32) -> u64 {
    signed_bits(i64::from(weight))
}

// The 32 numbers from a place on, as weights.
pub(crate) fn weights(numbers: [u64; 256], from: usize) -> [i32; 32]
    requires { from ≤ 224 }
{
    let mut list = [0; 32];
    for (place, bits) in list.iter_mut().zip(&numbers[from..]) {
        *place = weight(*bits);
    }
    list
}
