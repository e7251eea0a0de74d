// oscillator.rs of the original: a block of a waveform at the block's own frequency, or at the frequency of a note.
// State goes in by value and is handed back. Left out, as 01 says: `Block`, parameter names and modulation, and with
// them the pitch offset; noise and its seed; the simd path.
#![tactic(auto)]

ghost use Rattle.std.specs.Prelude.{◌≡◌};
ghost use Rattle.answers.specs.Outcome.{leaves};
ghost use Rattle.oscillator.specs.Oscillator.{new_of, with_midi, with_waveform, with_phase, process_of};
ghost use Rattle.waveform.specs.Waveform.{radians};
ghost use Rattle.floats.specs.Double.{zero64};

use answers::Answer;
use blocks::Tone;
use waveform::{Radians, Waveform};

#[derive(Clone, Copy)]
pub struct OscillatorBlock {
    pub frequency: f64,
    pub midi_frequency: Option<f64>,
    pub phase: Radians,
    pub waveform: Waveform,
}

// The answer of the block call, and the block after it.
#[derive(Clone, Copy)]
pub struct Processed {
    pub answer: Answer,
    pub block: OscillatorBlock,
}

impl OscillatorBlock {
    // Phase 0, and the settings as given: the block call judges the settings that it uses.
    pub fn new(frequency: f64, waveform: Waveform) -> OscillatorBlock
        ensures { result ≡ new_of frequency waveform }
    {
        OscillatorBlock {
            frequency,
            midi_frequency: None,
            phase: Radians(0.0),
            waveform,
        }
    }

    // Sets a note's frequency in Hz, which sounds in place of the block's own.
    pub fn set_midi_frequency(self, frequency: f64) -> OscillatorBlock
        ensures { result ≡ with_midi self (Some frequency) }
    {
        OscillatorBlock {
            midi_frequency: Some(frequency),
            ..self
        }
    }

    pub fn clear_midi_frequency(self) -> OscillatorBlock
        ensures { result ≡ with_midi self None }
    {
        OscillatorBlock {
            midi_frequency: None,
            ..self
        }
    }

    pub fn set_waveform(self, waveform: Waveform) -> OscillatorBlock
        ensures { result ≡ with_waveform self waveform }
    {
        OscillatorBlock { waveform, ..self }
    }

    // Sets the phase to 0; the settings and the note's frequency stay.
    pub fn reset(self) -> OscillatorBlock
        ensures { result ≡ with_phase self (radians zero64) }
    {
        OscillatorBlock {
            phase: Radians(0.0),
            ..self
        }
    }

    // Writes a value of the waveform into every element of out, then reduces the phase. A note's frequency sounds where
    // it is set, else the block's own.
    pub fn process(self, rate: u32, out: &mut [f64]) -> Processed
        ensures { leaves result out.new ≡ process_of self rate out.old }
    {
        let tone = Tone {
            frequency: self.midi_frequency.unwrap_or(self.frequency),
            depth: 1.0,
            phase: self.phase,
            waveform: self.waveform,
        };
        let ran = blocks::run(tone, domain::HIGHEST_TONE, rate, out);
        Processed {
            answer: ran.answer,
            block: OscillatorBlock {
                phase: ran.phase,
                ..self
            },
        }
    }
}
