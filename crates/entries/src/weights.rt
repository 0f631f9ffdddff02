// Signed entries of 32 bits, as weights are: the bytes of an entry, read as two's complement.
ghost use Rattle.std.specs.Prelude.{◌≡◌, ◌++◌, ◌/◌, ◌≤◌, length, drop};
ghost use Rattle.std.specs.Int.{w32};
ghost use Rattle.entries.specs.Entries.{signed_entries};

// The signed entries of `from` into the first places of `to`.
pub fn load_i32(from: &[u8], to: &mut [i32])
    requires { length from.now / 4 ≤ length to.old }
    ensures { to.new ≡ signed_entries w32 4 from.now ++ drop (length from.now / 4) to.old }
{
    for i in 0..from.len() / 4 {
        to[i] = (crate::read_entry(from, 4 * i, 4) as u32).cast_signed();
    }
}
