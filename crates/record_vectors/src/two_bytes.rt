// Every buffer of two bytes: how many get each answer, and a checksum of what they are read as and written back as.
ghost use Rattle.std.specs.Prelude.{◌^◌, ◌<◌};

use record::{DeltaEncoding, Reading};
use std::io;

// How many buffers of two bytes there are.
const BUFFERS: u64 = 65536;

// The n-th of them.
fn buffer(n: u64) -> [u8; 2] {
    [(n % 256) as u8, (n / 256 % 256) as u8]
}

// A number that tells the records of two bytes apart.
fn digest(encoding: DeltaEncoding) -> u64
    ensures { result < 65536 }
{
    match encoding {
        DeltaEncoding::NoOp => 1,
        DeltaEncoding::Consecutive {
            order,
            secondary_uses_delta,
        } => 16 + (order.0 % 8) as u64 * 2 + u64::from(secondary_uses_delta),
        DeltaEncoding::Lookback {
            window_n_log,
            state_n_log,
            secondary_uses_delta,
        } => {
            1024 + u64::from(window_n_log % 32) * 32
                + u64::from(state_n_log % 16) * 2
                + u64::from(secondary_uses_delta)
        }
        DeltaEncoding::Conv1 { .. } => 2,
    }
}

// How many buffers get each answer, by its number.
fn tally(variants: bool) -> [u64; 12] {
    let mut found = [0u64; 12];
    for n in 0..BUFFERS {
        let answer = kinds::number(record_reading::read_from(&buffer(n), variants));
        if let Some(count) = found.get_mut(answer as usize) {
            *count = count.saturating_add(1);
        }
    }
    found
}

// What was read, and what two bytes of FF become when that is written.
fn written_back(reading: &Reading) -> u64
    ensures { result < 2 ^ 40 }
{
    let mut back = [255; 2];
    let written = record_writing::write_to(reading.delta, &mut back).unwrap_or(0);
    let there = digest(reading.delta.encoding) + (reading.bits % 64) as u64 * 65536;
    let back = u64::from(u16::from_le_bytes(back)) + (written % 64) as u64 * 65536;
    there + back * 17
}

// The same of what a buffer of two bytes is read as, which is looked at where it stands: a record is long.
fn there_and_back(n: u64, variants: bool) -> u64
    ensures { result < 2 ^ 40 }
{
    match &record_reading::read_from(&buffer(n), variants) {
        Ok(reading) => written_back(reading),
        Err(_) => written_back(&Reading::default()),
    }
}

fn checksum(variants: bool) -> u64 {
    let mut sum = 0;
    for n in 0..BUFFERS {
        sum = (sum * 31 + there_and_back(n, variants)) % 1000003;
    }
    sum
}

fn say(rt: &impl Print, title: &str, variants: bool) -> io::Result<()> {
    print!(rt; "{title}")?;
    let found = tally(variants);
    for answer in [0, 1, 7, 8, 9] {
        print!(rt; " {}", found[answer])?;
    }
    println!(rt; " {}", checksum(variants))
}

pub(crate) fn run(rt: &impl Print) -> io::Result<()> {
    say(rt, "all", true)?;
    say(rt, "all old", false)
}
