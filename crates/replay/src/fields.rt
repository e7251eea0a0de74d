// The fields of a row, which differ from part to part of `replay`: floats by their bits, answers by their numbers,
// waveforms by their codes; and the samples and words that a call has written, compared with those of a row.
use crate::nearness::Finding;
use answers::{Answer, Numbers, Refusal};
use waveform::Waveform;

// What each float holds before a call: no sample is that high.
pub const UNWRITTEN: f64 = 42.0;

// What each word of a shelf and each number of a summary holds before a call: no entry has that stage, and no sample
// that number.
pub const UNKEPT: u64 = 0x2a2a_2a2a_2a2a_2a2a;

// What a row keeps in a word: a float, by its bits, or a number.
pub trait Field: Copy {
    fn of_bits(bits: u64) -> Self;

    fn bits(self) -> u64;
}

impl Field for f64 {
    fn of_bits(bits: u64) -> f64 {
        words::f64_of(bits)
    }

    fn bits(self) -> u64 {
        words::f64_bits(self)
    }
}

impl Field for u64 {
    fn of_bits(bits: u64) -> u64 {
        bits
    }

    fn bits(self) -> u64 {
        self
    }
}

// Words of a row, each so many bytes after the one before; 0 beyond the row's end.
#[derive(Clone, Copy)]
pub struct Words<'a> {
    row: &'a [u8],
    at: usize,
    step: usize,
}

impl<'a> Words<'a> {
    // Word after word from a byte on.
    pub fn along(row: &'a [u8], first: usize) -> Words<'a> {
        Words {
            row,
            at: first,
            step: 8,
        }
    }

    // The word at a byte, again and again.
    pub fn always(row: &'a [u8], at: usize) -> Words<'a> {
        Words { row, at, step: 0 }
    }
}

impl Iterator for Words<'_> {
    type Item = u64;

    fn next(&mut self) -> Option<u64> {
        let word = words::u64_at(self.row, self.at);
        self.at = self.at.wrapping_add(self.step);
        Some(word)
    }
}

pub fn float_at(row: &[u8], at: usize) -> f64 {
    words::f64_of(words::u64_at(row, at))
}

// Whether a row's word is the answer, packed as include/gavberin.h says: bits 0 to 7 the number, 8 to 31 the place, 32
// to 63 the count.
pub fn says(answer: Answer, word: u64) -> bool {
    let numbers = Numbers::from(answer);
    (numbers.number as u64 == word % 0x100)
        & (numbers.place as u64 == word / 0x100 % 0x100_0000)
        & (numbers.count as u64 == word / 0x1_0000_0000)
}

// Whether a call's single number and its answer are those of a row, by their bits; a refused call gives +0 there.
pub fn gives(got: Result<f64, Refusal>, told: u64, bits: u64) -> bool {
    says(got.map(|_| 0), told) & (words::f64_bits(got.unwrap_or(0.0)) == bits)
}

// The waveform of the code at a byte of the row; a pulse's duty is the word after it.
pub fn waveform_of(row: &[u8], at: usize) -> Waveform {
    match words::u64_at(row, at) {
        0 => Waveform::Sine,
        1 => Waveform::Square,
        2 => Waveform::Sawtooth,
        3 => Waveform::Triangle,
        6 => Waveform::RoundedTriangle,
        _ => Waveform::Pulse(float_at(row, at.wrapping_add(8))),
    }
}

// Fills `kept` with what the row has from a byte on.
pub fn put<T: Field>(row: &[u8], first: usize, kept: &mut [T]) {
    for (x, word) in kept.iter_mut().zip(Words::along(row, first)) {
        *x = T::of_bits(word);
    }
}

// So many floats or words from a byte on.
pub fn at<T: Field, const N: usize>(row: &[u8], first: usize) -> [T; N] {
    let mut kept = [T::of_bits(0); N];
    put(row, first, &mut kept);
    kept
}

// Whether `kept` is what the row has from a byte on, by the bits.
pub fn are<T: Field>(row: &[u8], first: usize, kept: &[T]) -> bool {
    kept.iter()
        .zip(Words::along(row, first))
        .all(|(x, word)| x.bits() == word)
}

// Whether the samples, in which a sine is heard, are near those from a byte of the row on: each may differ by 0.000001
// times its scale. The largest difference is found too.
pub fn measured(row: &[u8], first: usize, scales: Words, samples: &[f64]) -> Finding {
    samples
        .iter()
        .zip(Words::along(row, first))
        .zip(scales)
        .fold(Finding::from(true), |found, ((ours, theirs), scale)| {
            found.and(Finding::of_sine(*ours, words::f64_of(theirs), words::f64_of(scale)))
        })
}
