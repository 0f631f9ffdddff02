// One little-endian entry of a byte slice, read and written, of any width up to eight bytes.
#![tactic(auto)]

ghost use Rattle.std.specs.Prelude.{◌≡◌, ◌+◌, ◌≤◌, length};
ghost use Rattle.entries.specs.Entries.{entry_at, with_entry};

pub mod samples;
pub mod weights;

// The entry in the `width` bytes from place `at` on, read from its last byte, the most significant, to its first.
pub fn read_entry(bytes: &[u8], at: usize, width: usize) -> u64
    requires { (at + width ≤ length bytes.now) × (width ≤ 8) }
    ensures { result ≡ entry_at width bytes.now at }
{
    let mut value = 0;
    for i in (0..width).rev() {
        value = value * 256 + u64::from(bytes[at + i]);
    }
    value
}

// Writes the low `width` bytes of the value from place `at` on, and no other byte.
pub fn write_entry(bytes: &mut [u8], at: usize, width: usize, value: u64)
    requires { at + width ≤ length bytes.old }
    ensures { bytes.new ≡ with_entry width bytes.old at value }
{
    let mut left = value;
    for i in 0..width {
        bytes[at + i] = (left % 256) as u8;
        left /= 256;
    }
}
