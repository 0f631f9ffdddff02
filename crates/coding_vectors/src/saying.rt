// What a line says of a row.
ghost use Rattle.std.specs.Prelude.{◌<◌, ◌^◌};

fn mixed(sum: u64, x: u64) -> u64
    ensures { result < 2 ^ 32 }
{
    (sum % 4294967291 * 65599 + x % 4294967296) % 4294967291
}

// The check sum of a row.
pub(crate) fn sum(row: &[u64]) -> u64 {
    row.iter().fold(7, |sum, x| mixed(sum, *x))
}

// Whether a row is the trace's again.
pub(crate) fn verdict(row: &[u64], trace: &[u64]) -> &'static str {
    if row == trace { "whole" } else { "BROKEN" }
}
