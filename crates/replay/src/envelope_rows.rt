// The original's answers to the calls of envelope.rs: a row is 24 u64, compared bit for bit: the answer, the state
// after the call, and eight numbers, the first of which are lent to `process`.
use crate::fields;
use answers::Answer;
use envelope::{Adsr, Envelope, EnvelopeBlock, EnvelopeStage, Processed};

pub const ROW: usize = 192;

// Whether the call's answer, the state that it leaves and the eight numbers are the row's.
pub fn is_equal(row: &[u8]) -> bool {
    let lent = words::u64_at(row, 48).min(8) as usize;
    let mut slots = [fields::UNWRITTEN; 8];
    let op = words::u64_at(row, 0);
    let block = given(row);
    let adsr = block.adsr;
    let got = match op {
        0 => block.note_on(),
        1 => block.note_off(),
        2 => block.reset(),
        3 => block.process(words::u32_at(row, 40), &mut slots[0..lent]),
        _ => Processed {
            answer: Ok(0),
            block: EnvelopeBlock::new(adsr.attack, adsr.decay, adsr.sustain, adsr.release),
        },
    };
    let answer = got.answer;
    let after = got.block.envelope;
    (op < 5)
        & fields::says(answer, words::u64_at(row, 88))
        & is_state(row, after)
        & fields::are(row, 128, &slots)
}

fn is_state(row: &[u8], after: Envelope) -> bool {
    let stage = after.stage;
    let number = match stage {
        EnvelopeStage::Idle => 0,
        EnvelopeStage::Attack => 1,
        EnvelopeStage::Decay => 2,
        EnvelopeStage::Sustain => 3,
        EnvelopeStage::Release => 4,
    };
    let told = [after.level, after.stage_time, after.release_level];
    (number == words::u64_at(row, 96)) & fields::are(row, 104, &told)
}

fn given(row: &[u8]) -> EnvelopeBlock {
    let stage = match words::u64_at(row, 56) {
        0 => EnvelopeStage::Idle,
        1 => EnvelopeStage::Attack,
        2 => EnvelopeStage::Decay,
        3 => EnvelopeStage::Sustain,
        _ => EnvelopeStage::Release,
    };
    EnvelopeBlock {
        adsr: Adsr {
            attack: fields::float_at(row, 8),
            decay: fields::float_at(row, 16),
            sustain: fields::float_at(row, 24),
            release: fields::float_at(row, 32),
        },
        envelope: Envelope {
            stage,
            level: fields::float_at(row, 64),
            stage_time: fields::float_at(row, 72),
            release_level: fields::float_at(row, 80),
        },
    }
}
