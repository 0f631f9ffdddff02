// Records read, and 8-bit samples coded with them. The record knows no width, so a shift or weights that 8 bits do not admit are read
// without complaint, and refused by the coder's own tests. A line that begins with c has the reader's answer and bits; then, for a Conv1
// record, the coder's answer and the three samples after the call.
use kinds::Configuration;
use record::{DeltaEncoding, DeltaRecord, Reading};
use std::io;

// The coder's answer and the samples after the call; nothing where the array has fewer weights than the order says.
fn code(rt: &impl Print, delta: DeltaRecord) -> io::Result<()> {
    let DeltaEncoding::Conv1 {
        quantization,
        bias,
        order,
    } = delta.encoding
    else {
        return Ok(());
    };
    let Some(weights) = delta.weights.get(..order.0) else {
        return Ok(());
    };
    let config = Configuration {
        order,
        shift: quantization,
        bias,
        weights,
    };
    let mut samples = [10u8, 12, 11];
    let coded = encoding::by_value::encode_in_place(config, &mut samples);
    let [first, second, third] = samples;
    print!(rt; " {} {first} {second} {third}", kinds::number(coded.said))
}

fn read_and_code(rt: &impl Print, bytes: &[u8]) -> io::Result<()> {
    let read = record_reading::read_from(bytes, true);
    let Reading { delta, bits } = read.unwrap_or_default();
    print!(rt; "c {} {bits}", kinds::number(read))?;
    code(rt, delta)?;
    println!(rt)
}

pub(crate) fn run(rt: &impl Print) -> io::Result<()> {
    // weight 1, bias 0, shift 0: the table's T1
    read_and_code(rt, &[0x03, 0, 0, 0, 0, 0, 0, 0, 0, 0x41, 0, 0, 0, 0x20])?;
    // the same with shift 31, which 8 bits refuse
    read_and_code(rt, &[0xf3, 0x01, 0, 0, 0, 0, 0, 0, 0, 0x41, 0, 0, 0, 0x20])?;
    // weight 129, which 8 bits refuse
    read_and_code(rt, &[0x03, 0, 0, 0, 0, 0, 0, 0, 0, 0x41, 0x20, 0, 0, 0x20])?;
    // order 4 for three samples
    read_and_code(
        rt,
        &[
            0x03, 0, 0, 0, 0, 0, 0, 0, 0, 0x07, 0, 0, 0, 0x20, 0, 0, 0, 0x20, 0, 0, 0, 0x20, 0, 0,
            0, 0x20,
        ],
    )?;
    // the last byte is missing
    read_and_code(rt, &[0x03, 0, 0, 0, 0, 0, 0, 0, 0, 0x41, 0, 0, 0])
}
