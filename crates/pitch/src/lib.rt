// The pitch of a note in Hz: `midi_note_to_frequency` of the original's voice.rs, as a table of its answers
// (specs/Patterns.antt). Left out: any other tuning, and `powf`.
#![tactic(auto)]

ghost use Rattle.std.specs.Prelude.{◌≡◌};
ghost use Rattle.pitch.specs.Pitch.{frequency_of, midi_note_to_frequency_of, midi_note_to_frequency_f64_of};

use answers::Refusal;

mod table;

// The frequency in Hz of a note from 0 to 127, as an f32.
pub fn midi_note_to_frequency(note: u8) -> Result<f32, Refusal>
    ensures { result ≡ midi_note_to_frequency_of note }
{
    answers::value_if(domain::is_midi(note), Refusal::Argument, frequency_of(note))
}

// The frequency in Hz of a note from 0 to 127, widened to an f64.
pub fn midi_note_to_frequency_f64(note: u8) -> Result<f64, Refusal>
    ensures { result ≡ midi_note_to_frequency_f64_of note }
{
    midi_note_to_frequency(note).map(f64::from)
}

// The frequency in Hz of a note that the caller has judged; +0 above 127.
pub fn frequency_of(note: u8) -> f32
    ensures { result ≡ frequency_of note }
{
    if note < 128 {
        return table::PITCHES[note as usize];
    }
    0.0
}

// The frequency in Hz of a note that the caller has judged, widened to an f64; +0 above 127.
pub fn frequency_of_f64(note: u8) -> f64
    ensures { result ≡ frequency_of note }
{
    f64::from(frequency_of(note))
}
