// Runs the record's reader and writer on the smallest, the largest and the just refused values, on every truncation, and on every buffer
// of two bytes; and codes with records that were read. A line that begins with w is a write into a buffer of FF bytes: room, answer, bits,
// the buffer after it; behind it what reading the buffer gives. A line that begins with r is a read: answer, bits, the record. A t line has
// the answers at each number of bytes from 0 on.
#![tactic(auto)]

use kinds::{Order, Refusal, Shift};
use record::{DeltaEncoding, DeltaRecord, Reading};
use std::io;

mod coding;
mod two_bytes;

const NO_WEIGHTS: [i32; 32] = [0; 32];

fn on_or_off(flag: bool) -> &'static str {
    if flag { "on" } else { "off" }
}

fn say_bytes(rt: &impl Print, bytes: &[u8]) -> io::Result<()> {
    for byte in bytes {
        print!(rt; " {byte:02x}")?;
    }
    Ok(())
}

// Every place that is not 0, so that one past the order shows.
fn say_weights(rt: &impl Print, weights: &[i32]) -> io::Result<()> {
    for (place, weight) in weights.iter().enumerate() {
        if *weight != 0 {
            print!(rt; " {place}: {weight}")?;
        }
    }
    Ok(())
}

fn say_encoding(rt: &impl Print, encoding: DeltaEncoding) -> io::Result<()> {
    match encoding {
        DeltaEncoding::NoOp => print!(rt; " nothing"),
        DeltaEncoding::Consecutive {
            order: Order(order),
            secondary_uses_delta,
        } => print!(rt; " consecutive {order} {}", on_or_off(secondary_uses_delta)),
        DeltaEncoding::Lookback {
            window_n_log,
            state_n_log,
            secondary_uses_delta,
        } => {
            print!(rt;
                " lookback {window_n_log} {state_n_log} {}",
                on_or_off(secondary_uses_delta)
            )
        }
        DeltaEncoding::Conv1 {
            quantization: Shift(shift),
            bias,
            order: Order(order),
        } => print!(rt; " conv1 {shift} {bias} {order}"),
    }
}

// Beside a refusal no bits and the empty record.
fn say_reading(rt: &impl Print, read: Result<Reading, Refusal>) -> io::Result<()> {
    let Reading { delta, bits } = read.unwrap_or_default();
    print!(rt; " {} {bits}", kinds::number(read))?;
    say_encoding(rt, delta.encoding)?;
    say_weights(rt, &delta.weights)?;
    println!(rt)
}

fn read(rt: &impl Print, bytes: &[u8], variants: bool) -> io::Result<()> {
    print!(rt; "r")?;
    say_bytes(rt, bytes)?;
    print!(rt; "{}", if variants { " :" } else { " old:" })?;
    say_reading(rt, record_reading::read_from(bytes, variants))
}

fn write_into(
    rt: &impl Print,
    encoding: DeltaEncoding,
    weights: [i32; 32],
    buffer: &mut [u8],
) -> io::Result<()> {
    let written = record_writing::write_to(DeltaRecord { encoding, weights }, buffer);
    print!(rt; "w")?;
    say_encoding(rt, encoding)?;
    let bits = written.unwrap_or(0);
    print!(rt; " {} : {} {bits}", buffer.len(), kinds::number(written))?;
    say_bytes(rt, buffer)?;
    print!(rt; "\n ")?;
    say_reading(rt, record_reading::read_from(buffer, true))
}

fn write(
    rt: &impl Print,
    encoding: DeltaEncoding,
    weights: [i32; 32],
    room: usize,
) -> io::Result<()> {
    let mut buffer = [255u8; 144];
    match buffer.get_mut(..room) {
        Some(buffer) => write_into(rt, encoding, weights, buffer),
        None => Ok(()),
    }
}

// The answers to the first n bytes of a written record, for each n from 0 to one byte past its end.
fn say_answers(rt: &impl Print, bytes: &[u8], end: usize) -> io::Result<()> {
    for n in 0..end.min(bytes.len() + 1) {
        let answer = record_reading::read_from(&bytes[..n], true);
        print!(rt; " {}", kinds::number(answer))?;
    }
    Ok(())
}

fn truncate(rt: &impl Print, encoding: DeltaEncoding, weights: [i32; 32]) -> io::Result<()> {
    let mut buffer = [0u8; 144];
    let written = record_writing::write_to(DeltaRecord { encoding, weights }, &mut buffer);
    print!(rt; "t")?;
    say_encoding(rt, encoding)?;
    print!(rt; " :")?;
    say_answers(rt, &buffer, written.unwrap_or(0) / 8 + 3)?;
    println!(rt)
}

fn consecutive(order: usize, flag: bool) -> DeltaEncoding {
    DeltaEncoding::Consecutive {
        order: Order(order),
        secondary_uses_delta: flag,
    }
}

fn lookback(window: u32, state: u32, flag: bool) -> DeltaEncoding {
    DeltaEncoding::Lookback {
        window_n_log: window,
        state_n_log: state,
        secondary_uses_delta: flag,
    }
}

fn conv1(shift: u32, bias: i64, order: usize) -> DeltaEncoding {
    DeltaEncoding::Conv1 {
        quantization: Shift(shift),
        bias,
        order: Order(order),
    }
}

// Two weights and then a third at every place, which a record of order 1 or 2 must not show.
fn weights(first: i32, second: i32, others: i32) -> [i32; 32] {
    let mut w = [others; 32];
    w[0] = first;
    w[1] = second;
    w
}

fn write_nothing(rt: &impl Print) -> io::Result<()> {
    for room in [0, 1, 3] {
        write(rt, DeltaEncoding::NoOp, NO_WEIGHTS, room)?;
    }
    Ok(())
}

fn write_consecutives(rt: &impl Print) -> io::Result<()> {
    for (order, flag, room) in [
        (0, false, 0),
        (0, true, 1),
        (1, false, 0),
        (1, false, 1),
        (3, true, 2),
        (7, true, 1),
        (8, false, 0),
        (usize::MAX, false, 1),
    ] {
        write(rt, consecutive(order, flag), NO_WEIGHTS, room)?;
    }
    Ok(())
}

fn write_lookbacks(rt: &impl Print) -> io::Result<()> {
    for (window, state, flag, room) in [
        (0, 0, false, 0),
        (0, 1, false, 2),
        (1, 0, false, 1),
        (1, 0, false, 2),
        (1, 1, true, 3),
        (1, 2, false, 2),
        (24, 4, false, 2),
        (24, 15, true, 2),
        (24, 16, false, 0),
        (25, 0, false, 2),
        (25, 26, false, 0),
        (u32::MAX, u32::MAX, true, 2),
    ] {
        write(rt, lookback(window, state, flag), NO_WEIGHTS, room)?;
    }
    Ok(())
}

fn refuse_conv1s(rt: &impl Print) -> io::Result<()> {
    for (shift, order, room) in [
        (0, 0, 14),
        (32, 33, 0),
        (32, 1, 0),
        (u32::MAX, 1, 14),
        (0, 1, 13),
    ] {
        write(rt, conv1(shift, 0, order), weights(1, 5, -5), room)?;
    }
    Ok(())
}

fn write_conv1s(rt: &impl Print) -> io::Result<()> {
    let one = weights(1, 5, -5);
    let two = weights(-1, 2, 77);
    let least = [i32::MIN; 32];
    let greatest = [i32::MAX; 32];
    write(rt, conv1(0, 0, 1), one, 14)?;
    write(rt, conv1(0, 0, 1), one, 16)?;
    write(rt, conv1(31, -1, 2), two, 18)?;
    write(rt, conv1(31, i64::MIN, 32), least, 137)?;
    write(rt, conv1(31, i64::MIN, 32), least, 138)?;
    write(rt, conv1(31, i64::MAX, 32), greatest, 140)?;
    write(rt, conv1(5, 1, usize::MAX), greatest, 140)
}

fn read_all(rt: &impl Print, cases: &[&[u8]], variants: bool) -> io::Result<()> {
    for bytes in cases {
        read(rt, bytes, variants)?;
    }
    Ok(())
}

fn read_small(rt: &impl Print) -> io::Result<()> {
    let cases: [&[u8]; 8] = [
        b"", b"\x00", b"\xf0", b"\x01", b"\xb1", b"\xf1", b"\x02", b"\xf2",
    ];
    read_all(rt, &cases, true)
}

fn read_lookbacks(rt: &impl Print) -> io::Result<()> {
    let cases: [&[u8]; 6] = [
        b"\x02\x00",
        b"\x02\xc0",
        b"\x02\x22",
        b"\x72\x09",
        b"\x82\x01",
        b"\x02\x04",
    ];
    read_all(rt, &cases, true)
}

fn read_unknown(rt: &impl Print) -> io::Result<()> {
    let cases: [&[u8]; 3] = [b"\x04", b"\x0f", b"\xf4\x00"];
    read_all(rt, &cases, true)
}

fn read_conv1s(rt: &impl Print) -> io::Result<()> {
    let cases: [&[u8]; 2] = [
        b"\x03\x00\x00\x00\x00\x00\x00\x00\x00\x41\x00\x00\x00\x20",
        b"\xf3\xff\xff\xff\xff\xff\xff\xff\xff\xc2\xff\xff\xff\x9f\x00\x00\x00\x20",
    ];
    read_all(rt, &cases, true)
}

fn read_old(rt: &impl Print) -> io::Result<()> {
    let cases: [&[u8]; 5] = [b"", b"\xff", b"\x08", b"\x01", b"\x04"];
    read_all(rt, &cases, false)
}

fn truncations(rt: &impl Print) -> io::Result<()> {
    truncate(rt, DeltaEncoding::NoOp, NO_WEIGHTS)?;
    truncate(rt, consecutive(7, true), NO_WEIGHTS)?;
    truncate(rt, lookback(24, 15, true), NO_WEIGHTS)?;
    truncate(rt, conv1(0, 0, 1), NO_WEIGHTS)?;
    truncate(rt, conv1(31, -1, 2), weights(-1, 2, 0))?;
    truncate(rt, conv1(31, i64::MIN, 32), [i32::MIN; 32])
}

fn main(rt: HostRuntime) -> io::Result<()> {
    write_nothing(&rt)?;
    write_consecutives(&rt)?;
    write_lookbacks(&rt)?;
    refuse_conv1s(&rt)?;
    write_conv1s(&rt)?;
    read_small(&rt)?;
    read_lookbacks(&rt)?;
    read_unknown(&rt)?;
    read_conv1s(&rt)?;
    read_old(&rt)?;
    truncations(&rt)?;
    two_bytes::run(&rt)?;
    coding::run(&rt)
}
