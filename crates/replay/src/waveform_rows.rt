// The original's answers to the calls of waveform.rs, for all waveforms but sine, and the refusals of a sine: a row is
// 17 u64, compared bit for bit: the answer, the phase after, and eight numbers, the first of which are written.
use crate::fields;
use waveform::Radians;

pub const ROW: usize = 136;

// Whether the call's answer and what it leaves are the row's. A single sample is compared with the first of the eight
// numbers; it leaves no phase.
pub fn is_equal(row: &[u8]) -> bool {
    let op = words::u64_at(row, 0);
    if op < 2 {
        return is_block(op, row);
    }
    let at = fields::float_at(row, 24);
    let got = if op == 2 {
        waveform::sample(fields::waveform_of(row, 8), at, fields::float_at(row, 32))
    } else {
        sine::sine(at)
    };
    let mut slots = [fields::UNWRITTEN; 8];
    slots[0] = got.unwrap_or(0.0);
    (op < 4)
        & fields::says(got.map(|_| 0), words::u64_at(row, 56))
        & (words::u64_at(row, 64) == 0)
        & fields::are(row, 72, &slots)
}

// Call 0 is the inner loop alone; only a block reduces the phase after it.
fn is_block(op: u64, row: &[u8]) -> bool {
    let lent = words::u64_at(row, 48).min(8) as usize;
    let start = Radians(fields::float_at(row, 24));
    let step = Radians(fields::float_at(row, 32));
    let shape = fields::waveform_of(row, 8);
    let scale = fields::float_at(row, 40);
    let mut slots = [fields::UNWRITTEN; 8];
    let mut after = filling::fill(&mut slots[0..lent], shape, start, step, scale);
    if op == 1 {
        after = waveform::reduced(after);
    }
    (words::u64_at(row, 56) == 0)
        & (words::f64_bits(after.0) == words::u64_at(row, 64))
        & fields::are(row, 72, &slots)
}
