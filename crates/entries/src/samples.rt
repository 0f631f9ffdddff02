// Samples as little-endian entries.
ghost use Rattle.std.specs.Prelude.{◌≡◌, ◌++◌, ◌*◌, ◌/◌, ◌≤◌, length, drop};
ghost use Rattle.entries.specs.Entries.{entries, bytes_of_all};

use sample::Sample;

// The entries of `from` into the first places of `to`.
pub fn load<S: Sample>(from: &[u8], to: &mut [S])
    requires { length from.now / (S.W / 8) ≤ length to.old }
    ensures { S.numbers to.new ≡ entries (S.W / 8) from.now ++ drop (length from.now / (S.W / 8)) (S.numbers to.old) }
{
    for i in 0..from.len() / S::BYTES {
        to[i] = S::low_bits(crate::read_entry(from, S::BYTES * i, S::BYTES));
    }
}

// The bytes of the entries of `from` into the first places of `to`.
pub fn store<S: Sample>(from: &[S], to: &mut [u8])
    requires { S.W / 8 * length from.now ≤ length to.old }
    ensures { to.new ≡ bytes_of_all (S.W / 8) (S.numbers from.now) ++ drop (S.W / 8 * length from.now) to.old }
{
    for (i, sample) in from.iter().enumerate() {
        crate::write_entry(to, S::BYTES * i, S::BYTES, u64::from(sample.to_number()));
    }
}
