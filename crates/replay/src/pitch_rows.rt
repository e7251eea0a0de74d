// The original's pitches: a row is four u64, compared bit for bit, in f32 and widened.
use crate::fields;

pub const ROW: usize = 32;

pub fn is_equal(row: &[u8]) -> bool {
    let word = words::u64_at(row, 0);
    let told = words::u64_at(row, 8);
    let note = (word % 256) as u8;
    let narrow = pitch::midi_note_to_frequency(note);
    let wide = pitch::midi_note_to_frequency_f64(note);
    (word < 256)
        & fields::says(narrow.map(|_| 0), told)
        & (words::f32_bits(narrow.unwrap_or(0.0)) as u64 == words::u64_at(row, 16))
        & fields::gives(wide, told, words::u64_at(row, 24))
}
