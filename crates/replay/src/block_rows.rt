// The original's answers to the calls of oscillator.rs and lfo.rs: a row is ten u64 and one for each sample. The
// answer, the phase after the call and every sample are compared bit for bit; but the samples of a sine, which is ours,
// must lie within 0.000001 of the original's, times the depth.
use crate::fields;
use crate::fields::Words;
use crate::nearness::Finding;
use lfo::LfoBlock;
use oscillator::OscillatorBlock;
use waveform::{Radians, Waveform};

// The bytes of a row before its samples.
pub const ROW: usize = 80;

// The byte of a row where the number of samples asked for is kept: as many words follow the first bytes.
pub const MORE: usize = 56;

// A frequency that a call refuses if it uses it.
const UNHEARD: f64 = -1.0;

// As many samples are lent as the row says, at most 1,000.
pub fn compared(row: &[u8]) -> Finding {
    let mut out = [fields::UNWRITTEN; 1000];
    let lent = words::u64_at(row, MORE).min(1000) as usize;
    judged(row, &mut out[0..lent])
}

// The depth scales the allowed difference of every sample. A call that was refused has left every number as it was: no
// sine is heard.
fn judged(row: &[u8], out: &mut [f64]) -> Finding {
    let told = is_called(row, out) & (out.len() as u64 == words::u64_at(row, MORE));
    let has_sine = (words::u64_at(row, 8) == 0) & (words::u64_at(row, 64) % 256 == 0);
    let heard = if has_sine {
        fields::measured(row, ROW, Words::always(row, 40), out)
    } else {
        Finding::from(fields::are(row, ROW, out))
    };
    Finding::from(told).and(heard)
}

// Whether the call's answer and the phase that it leaves are the row's.
fn is_called(row: &[u8], out: &mut [f64]) -> bool {
    let op = words::u64_at(row, 0);
    if (op == 1) | (op == 4) {
        return is_modulated(op, row, out);
    }
    let got = oscillator_of(op, row).process(words::u32_at(row, 24), out);
    let answer = got.answer;
    (op < 6)
        & fields::says(answer, words::u64_at(row, 64))
        & (words::f64_bits(got.block.phase.0) == words::u64_at(row, 72))
}

// Calls 2 and 3 set settings over some that would be refused; call 5 clears a note's frequency that would be refused.
fn oscillator_of(op: u64, row: &[u8]) -> OscillatorBlock {
    let frequency = fields::float_at(row, 32);
    let shape = fields::waveform_of(row, 8);
    let start = Radians(fields::float_at(row, 48));
    let mut block = match op {
        2 | 3 => OscillatorBlock::new(UNHEARD, Waveform::Pulse(2.0)),
        _ => OscillatorBlock::new(frequency, shape),
    };
    block.phase = start;
    match op {
        0 => block,
        2 => block.set_waveform(shape).set_midi_frequency(frequency),
        3 => block
            .set_waveform(shape)
            .set_midi_frequency(frequency)
            .reset(),
        _ => block.set_midi_frequency(UNHEARD).clear_midi_frequency(),
    }
}

fn is_modulated(op: u64, row: &[u8], out: &mut [f64]) -> bool {
    let frequency = fields::float_at(row, 32);
    let depth = fields::float_at(row, 40);
    let start = Radians(fields::float_at(row, 48));
    let mut block = LfoBlock::new(frequency, depth, fields::waveform_of(row, 8));
    block.phase = start;
    if op == 4 {
        block = block.reset();
    }
    let got = block.process(words::u32_at(row, 24), out);
    let answer = got.answer;
    fields::says(answer, words::u64_at(row, 64))
        & (words::f64_bits(got.block.phase.0) == words::u64_at(row, 72))
}
