// The original's answers to the calls of phase.rs: a row is nine u32, compared bit for bit.
use crate::fields;
use answers::{Answer, Changed, Refusal};
use phase::{Cycles, PhaseAccumulator};

pub const ROW: usize = 36;

// Whether the call's answer and what it leaves are the row's.
pub fn is_equal(row: &[u8]) -> bool {
    let given = PhaseAccumulator {
        phase: Cycles(words::f32_of(words::u32_at(row, 4))),
        increment: Cycles(words::f32_of(words::u32_at(row, 8))),
    };
    let op = words::u32_at(row, 0);
    match op {
        2 => is_shown(row, given.increment(), given),
        3 => {
            let got = given.next();
            let answer = got.answer;
            is_outcome(
                row,
                answer,
                got.cycles.0,
                got.accumulator.phase.0,
                got.accumulator.increment.0,
            )
        }
        4 => is_shown(row, given.phase(), given),
        _ => (op < 8) & is_changed(op, row, given),
    }
}

// A getter hands back no state: the row has the given one, and +0 where the getter is refused.
fn is_shown(row: &[u8], got: Result<Cycles, Refusal>, given: PhaseAccumulator) -> bool {
    let cycles = got.unwrap_or(Cycles(0.0));
    is_outcome(
        row,
        got.map(|_| 0),
        cycles.0,
        given.phase.0,
        given.increment.0,
    )
}

fn is_changed(op: u32, row: &[u8], given: PhaseAccumulator) -> bool {
    let a = words::f32_of(words::u32_at(row, 12));
    let got = match op {
        0 => given.set_frequency(a, words::f32_of(words::u32_at(row, 16))),
        1 => given.set_increment(Cycles(a)),
        5 => given.set_phase(Cycles(a)),
        6 => given.reset(),
        _ => Changed {
            answer: Ok(0),
            state: PhaseAccumulator::new(),
        },
    };
    is_outcome(
        row,
        got.answer,
        0.0,
        got.state.phase.0,
        got.state.increment.0,
    )
}

// Whether the answer, the value and the state after are the row's.
fn is_outcome(row: &[u8], answer: Answer, value: f32, phase: f32, increment: f32) -> bool {
    fields::says(answer, words::u32_at(row, 20) as u64)
        & (words::f32_bits(value) == words::u32_at(row, 24))
        & (words::f32_bits(phase) == words::u32_at(row, 28))
        & (words::f32_bits(increment) == words::u32_at(row, 32))
}
