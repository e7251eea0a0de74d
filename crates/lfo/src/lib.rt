// lfo.rs of the original: a block of a waveform at 0 to 100 Hz, times a depth. State goes in by value and is handed
// back. Left out, as 01 says: `Block`, parameter names and modulation, noise and its seed, the simd path.
#![tactic(auto)]

ghost use Rattle.std.specs.Prelude.{◌≡◌};
ghost use Rattle.answers.specs.Outcome.{leaves};
ghost use Rattle.lfo.specs.Lfo.{new_of, with_phase, process_of};
ghost use Rattle.waveform.specs.Waveform.{radians};
ghost use Rattle.floats.specs.Double.{zero64};

use answers::Answer;
use blocks::Tone;
use waveform::{Radians, Waveform};

#[derive(Clone, Copy)]
pub struct LfoBlock {
    pub frequency: f64,
    pub depth: f64,
    pub phase: Radians,
    pub waveform: Waveform,
}

// The answer of the block call, and the block after it.
#[derive(Clone, Copy)]
pub struct Processed {
    pub answer: Answer,
    pub block: LfoBlock,
}

impl LfoBlock {
    // Phase 0, and the settings as given: the block call judges them.
    pub fn new(frequency: f64, depth: f64, waveform: Waveform) -> LfoBlock
        ensures { result ≡ new_of frequency depth waveform }
    {
        LfoBlock {
            frequency,
            depth,
            phase: Radians(0.0),
            waveform,
        }
    }

    // Sets the phase to 0; the settings stay.
    pub fn reset(self) -> LfoBlock
        ensures { result ≡ with_phase self (radians zero64) }
    {
        LfoBlock {
            phase: Radians(0.0),
            ..self
        }
    }

    // Writes a value of the waveform times the depth into every element of out, then reduces the phase.
    pub fn process(self, rate: u32, out: &mut [f64]) -> Processed
        ensures { leaves result out.new ≡ process_of self rate out.old }
    {
        let tone = Tone {
            frequency: self.frequency,
            depth: self.depth,
            phase: self.phase,
            waveform: self.waveform,
        };
        let ran = blocks::run(tone, domain::HIGHEST_LFO, rate, out);
        Processed {
            answer: ran.answer,
            block: LfoBlock {
                phase: ran.phase,
                ..self
            },
        }
    }
}
