// Reads a bit field, one bit a turn.
ghost use Rattle.std.specs.Prelude.{◌≡◌, ◌+◌, ◌*◌, ◌≤◌, ◌<◌, length};
ghost use Rattle.bits.specs.Fields.{bit_at, field_at, found};

// Bit i after the bit place `at`. Whole bytes and odd bits are added apart, so that no place is too large for the sums.
fn bit(bytes: &[u8], at: usize, i: usize) -> u64
    requires { at + i < 8 * length bytes.now }
    ensures { result ≡ bit_at bytes.now (at + i) }
{
    let past = at % 8 + i % 8;
    let byte = bytes[at / 8 + i / 8 + past / 8];
    ((byte >> (past % 8)) % 2) as u64
}

// The number in the `width` bits at `at`.
fn number(bytes: &[u8], at: usize, width: usize) -> u64
    requires { (at + width ≤ 8 * length bytes.now) × (width ≤ 64) }
    ensures { result ≡ field_at bytes.now at width }
{
    let mut sum: u64 = 0;
    for i in 0..width {
        sum += bit(bytes, at, i) << i;
    }
    sum
}

// A field of at most 64 bits, if the bytes hold all of it.
#[tactic(auto, unfolding(crate::specs::Fields::found))]
pub fn read_uint(bytes: &[u8], at: usize, width: usize) -> Option<u64>
    ensures { result ≡ found bytes.now at width }
{
    if 64 < width {
        return None;
    }
    let room = bytes.len().checked_sub(at / 8)?;
    if room < (at % 8 + width).div_ceil(8) {
        return None;
    }
    Some(number(bytes, at, width))
}
