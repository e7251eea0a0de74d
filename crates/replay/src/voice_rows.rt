// The original's answers to the calls of voice.rs: a row is 31 u32, compared bit for bit: the answer, the value that
// the call gives, and the state after with its held keys, whose pairs are 0 beyond their count.
use crate::fields;
use answers::{Answer, Changed};
use std::array;
use voice::VoiceState;
use voice::keys::{Keys, NoteOff};

pub const ROW: usize = 124;

// The number of a row for no active note.
const NONE: u32 = 256;

// What a row says of a lift: 0 no change, 1 released, or this and the note that the voice fell back to.
const FELL_BACK: u64 = 256;

// Whether the call's answer and what it leaves are the row's.
pub fn is_equal(row: &[u8]) -> bool {
    let op = words::u32_at(row, 0);
    match op {
        1 => is_lifted(row),
        3 | 4 => is_shown(op, row),
        _ => (op < 6) & is_changed(op, row),
    }
}

fn is_changed(op: u32, row: &[u8]) -> bool {
    let got = match op {
        0 => given(row).note_on(byte_at(row, 56, 0), byte_at(row, 60, 0)),
        2 => given(row).reset(),
        _ => Changed {
            answer: Ok(0),
            state: VoiceState::new(),
        },
    };
    is_outcome(row, got.answer, 0, got.state)
}

fn is_lifted(row: &[u8]) -> bool {
    let got = given(row).note_off(byte_at(row, 56, 0));
    let answer = got.answer;
    let after = got.voice;
    let off = got.off;
    let said = match off {
        NoteOff::NoChange => 0,
        NoteOff::Released => 1,
        NoteOff::FellBack(note, _) => FELL_BACK + note as u64,
    };
    is_outcome(row, answer, said, after) & is_heard(row, off)
}

// Whether the velocity that a fall back says is the one that sounds after it.
fn is_heard(row: &[u8], off: NoteOff) -> bool {
    match off {
        NoteOff::FellBack(_, velocity) => {
            words::f32_bits(voice::velocity_of(velocity)) == words::u32_at(row, 116)
        }
        _ => true,
    }
}

// A getter hands back no state: the row has the given one, and 0 where the getter is refused.
fn is_shown(op: u32, row: &[u8]) -> bool {
    let voice = given(row);
    let got = match op {
        4 => voice.held_note_count().map(|count| count as u64),
        _ => voice.is_active().map(u64::from),
    };
    is_outcome(row, got.map(|_| 0), got.unwrap_or(0), voice)
}

// Whether the answer, the value (a yes or no, what a lift says, or a number of keys) and the state after are the row's.
fn is_outcome(row: &[u8], answer: Answer, value: u64, after: VoiceState) -> bool {
    let keys = after.keys;
    fields::says(answer, words::u32_at(row, 64) as u64)
        & (value == words::u32_at(row, 68) as u64)
        & is_keys(row, keys)
        & (words::f32_bits(after.velocity) == words::u32_at(row, 116))
        & (words::f32_bits(after.frequency) == words::u32_at(row, 120))
}

fn is_keys(row: &[u8], keys: Keys) -> bool {
    let active = keys.active;
    let notes = keys.notes;
    let velocities = keys.velocities;
    let code = match active {
        None => NONE,
        Some(note) => note as u32,
    };
    let gate = if keys.gate { 1 } else { 0 };
    (code == words::u32_at(row, 72))
        & (gate == words::u32_at(row, 76))
        & (keys.count as u64 == words::u32_at(row, 80) as u64)
        & (bytes_at(row, 84) == notes)
        & (bytes_at(row, 100) == velocities)
}

fn given(row: &[u8]) -> VoiceState {
    let code = words::u32_at(row, 4);
    let active = if code < NONE { Some(code as u8) } else { None };
    VoiceState {
        keys: Keys {
            active,
            gate: words::u32_at(row, 8) == 1,
            notes: bytes_at(row, 16),
            velocities: bytes_at(row, 32),
            count: words::u32_at(row, 12) as usize,
        },
        velocity: words::f32_of(words::u32_at(row, 48)),
        frequency: words::f32_of(words::u32_at(row, 52)),
    }
}

fn bytes_at(row: &[u8], at: usize) -> [u8; 16] {
    array::from_fn(|i| byte_at(row, at, i))
}

fn byte_at(row: &[u8], at: usize, i: usize) -> u8 {
    (words::u32_at(row, at.wrapping_add(i)) % 256) as u8
}
