// The original's renders, driven span by span: a row is 45 u64, then its score, its samples and its shelf. The answer,
// the state after, every sample and every word of the shelf are compared bit for bit; but where a sine is heard, which
// is ours, a sample must only be within 0.000001 times its scale, which the row has. A re-render's row has, before the
// samples that it must leave, its old score and the samples and the shelf that it starts with. A row has no summary:
// that of the call is held to its own samples.
use crate::fields::Words;
use crate::nearness::Finding;
use crate::{fields, summary};
use envelope::Adsr;
use render::Rendered;
use sections::Buffers;
use state::{Keying, Settings};
use std::ops::Range;
use tremolo::Lfo;

// The bytes of a row before its score.
pub const ROW: usize = 360;

// The byte of a row where the number of words that follow is kept.
pub const MORE: usize = 8;

// The byte of a row where its keying is kept: 0 struck, 1 joined.
const KEYING: usize = 104;

// The calls that a row names.
#[derive(Clone, Copy)]
enum Call {
    Render,
    Continue,
    Rerender,
}

// A number that names no call.
#[derive(Clone, Copy)]
struct NoCall;

impl TryFrom<u64> for Call {
    type Error = NoCall;

    fn try_from(number: u64) -> Result<Call, NoCall> {
        match number {
            0 => Ok(Call::Render),
            1 => Ok(Call::Continue),
            2 => Ok(Call::Rerender),
            _ => Err(NoCall),
        }
    }
}

// The call's answer, its state and its summary; then its samples and its shelf. As many samples and words are lent as
// the row says, at most 10,000 and 52, and a summary of so many samples, of at most three sections.
pub fn compared(row: &[u8]) -> Finding {
    let samples = words::u64_at(row, 112).min(10000) as usize;
    let words = words::u64_at(row, 128).min(52) as usize;
    let sections = samples.div_ceil(4096);
    let mut out = [fields::UNWRITTEN; 10000];
    let mut shelf = [fields::UNKEPT; 52];
    let mut magnitudes = [fields::UNWRITTEN; 3];
    let mut numbers = [fields::UNKEPT; 3];
    let mut lent = Buffers {
        heard: &mut out[..samples],
        stored: &mut shelf[..words],
        magnitudes: &mut magnitudes[..sections],
        numbers: &mut numbers[..sections],
    };
    let is_right = match Call::try_from(words::u64_at(row, 0)) {
        Ok(call) => is_called(call, row, &mut lent) & is_summed(call, row, &lent),
        Err(NoCall) => false,
    };
    Finding::from(is_right).and(held(row, &lent))
}

// Whether the call's answer and the state after it are the row's. A row with a keying that is none names no call.
fn is_called(call: Call, row: &[u8], lent: &mut Buffers) -> bool {
    let Some(settings) = settings_of(row) else {
        return false;
    };
    let score = bytes_at(row, ROW, 120);
    match call {
        Call::Render => is_outcome(row, render::render(settings, score, lent)),
        Call::Continue => {
            let entry: [u64; 13] = fields::at(row, 144);
            let state = shelf::state_of(&entry);
            let position = words::u64_at(row, 136);
            is_outcome(
                row,
                render::continue_render(settings, score, state, position, lent.heard),
            )
        }
        Call::Rerender => is_rerendered(row, settings, score, lent),
    }
}

// A re-render hands back no state. It finds samples and a shelf, which lie after the old score.
fn is_rerendered(row: &[u8], settings: Settings, score: &[u8], lent: &mut Buffers) -> bool {
    let first = past(row, past(row, ROW, 120), 136);
    fields::put(row, first, lent.heard);
    fields::put(row, first.wrapping_add(lent.heard.len() << 3), lent.stored);
    let answer = rerender::rerender(settings, old_score(row), score, lent);
    fields::says(answer, words::u64_at(row, 248))
}

fn is_summed(call: Call, row: &[u8], lent: &Buffers) -> bool {
    summary::is_right(lent.heard, made(call, row), lent.magnitudes, lent.numbers)
}

// A row ends with the shelf; before it lie the samples, and before them, where a sine is heard, their scales.
fn held(row: &[u8], lent: &Buffers) -> Finding {
    let size = lent.heard.len() << 3;
    let more = words::u64_at(row, MORE) as usize;
    let end = ROW.wrapping_add(more << 3);
    let first = end.wrapping_sub(lent.stored.len() << 3);
    let samples = first.wrapping_sub(size);
    let heard = if has_sine(row) {
        let scales = Words::along(row, samples.wrapping_sub(size));
        fields::measured(row, samples, scales, lent.heard)
    } else {
        Finding::from(fields::are(row, samples, lent.heard))
    };
    Finding::from(fields::are(row, first, lent.stored)).and(heard)
}

// A sine is heard where the call was done, and the oscillator is one, or the LFO at a depth other than 0, of either
// sign. A call that was refused has left every number as it was.
fn has_sine(row: &[u8]) -> bool {
    let is_swayed = (words::u64_at(row, 72) == 0) & (words::u64_at(row, 96) << 1 != 0);
    let is_done = words::u64_at(row, 248) % 256 == 0;
    is_done & ((words::u64_at(row, 24) == 0) | is_swayed)
}

// The samples of the sections that the call has made and keeps a summary of: of a re-render from the section on where
// its scores first differ, and as many as the row's answer counts, none where the call was refused. A continuing call
// keeps no summary.
fn made(call: Call, row: &[u8]) -> Range<usize> {
    let count = (words::u64_at(row, 248) / 0x1_0000_0000) as usize;
    match call {
        Call::Render => 0..count,
        Call::Continue => 0..0,
        Call::Rerender => {
            let start = score::first_difference(old_score(row), bytes_at(row, ROW, 120)).map_or(
                0,
                |position| position as usize / 4096 * 4096,
            );
            start..start.wrapping_add(count)
        }
    }
}

// The old score of a re-render, which comes after the new one.
fn old_score(row: &[u8]) -> &[u8] {
    bytes_at(row, past(row, ROW, 120), 136)
}

// The bytes of the score at byte `at`: as many as the word at `size_at` says, at most as many as are left.
fn bytes_at(row: &[u8], at: usize, size_at: usize) -> &[u8] {
    let left = &row[at.min(row.len())..];
    let size = words::u64_at(row, size_at) as usize;
    &left[..size.min(left.len())]
}

// The byte after the score at byte `at` and the zeros that pad it to whole words.
fn past(row: &[u8], at: usize, size_at: usize) -> usize {
    let size = words::u64_at(row, size_at) as usize;
    at.wrapping_add(size.wrapping_add(7) >> 3 << 3)
}

// None where the row's keying is none.
fn settings_of(row: &[u8]) -> Option<Settings> {
    let keying = match words::u64_at(row, KEYING) {
        0 => Keying::Struck,
        1 => Keying::Joined,
        _ => return None,
    };
    Some(Settings {
        rate: words::u32_at(row, 16),
        waveform: fields::waveform_of(row, 24),
        adsr: Adsr {
            attack: fields::float_at(row, 40),
            decay: fields::float_at(row, 48),
            sustain: fields::float_at(row, 56),
            release: fields::float_at(row, 64),
        },
        lfo: Lfo {
            waveform: fields::waveform_of(row, 72),
            frequency: fields::float_at(row, 88),
            depth: fields::float_at(row, 96),
        },
        keying,
    })
}

fn is_outcome(row: &[u8], got: Rendered) -> bool {
    let answer = got.answer;
    let state = got.state;
    let entry = shelf::encode(state);
    fields::says(answer, words::u64_at(row, 248)) & fields::are(row, 256, &entry)
}
