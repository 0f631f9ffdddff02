// The library's own version, so that a caller can hold it against that of the header that it was compiled with.
#![tactic(auto)]

ghost use Rattle.std.specs.Prelude.{◌≡◌};

// A million for each major version, a thousand for each minor one: 1.0.0, as include/claspotter.h has it.
#[unsafe(no_mangle)]
pub extern "C" fn claspotter_version() -> u32
    ensures { result ≡ 1000000 }
{
    1_000_000
}
