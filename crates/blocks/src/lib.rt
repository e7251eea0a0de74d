// What the block calls of the oscillator and of the LFO share (oscillator.rs and lfo.rs of the original): the judging,
// the inner loop over the output, and the reduction of the phase after it. The two calls differ in their highest
// frequency, and the oscillator's depth is 1. Left out, as 01 says: parameters and their modulation, noise, and the
// simd path.
#![tactic(auto)]

ghost use Rattle.std.specs.Prelude.{◌≡◌};
ghost use Rattle.answers.specs.Outcome.{leaves};
ghost use Rattle.answers.specs.Value.{value_or};
ghost use Rattle.blocks.specs.Block.{is_tone, refusals_of, run_of};

use answers::{Answer, Refusal};
use waveform::{Radians, Waveform};

// What a block call sounds: a frequency in Hz, a depth, the phase at which the block starts, and a waveform.
#[derive(Clone, Copy)]
pub struct Tone {
    pub frequency: f64,
    pub depth: f64,
    pub phase: Radians,
    pub waveform: Waveform,
}

// The answer of a run, and the phase after it.
#[derive(Clone, Copy)]
pub struct Ran {
    pub answer: Answer,
    pub phase: Radians,
}

// Writes a sample into every element of out, then reduces the phase.
pub fn run(tone: Tone, highest: f64, rate: u32, out: &mut [f64]) -> Ran
    ensures { leaves result out.new ≡ run_of tone highest rate out.old }
{
    let answer = judged(tone, highest, rate, out.len());
    let mut phase = tone.phase;
    if answer.is_ok() {
        let step = waveform::increment(tone.frequency, rate);
        let last = filling::fill(out, tone.waveform, tone.phase, step, tone.depth);
        phase = waveform::reduced(last);
    }
    Ran { answer, phase }
}

// 6 before 9, or done with the count.
fn judged(tone: Tone, highest: f64, rate: u32, count: usize) -> Answer
    ensures { result ≡ value_or (refusals_of tone highest rate) count }
{
    let usable = domain::is_rate(rate) & waveform::is_waveform(tone.waveform);
    answers::value_if(usable, Refusal::Setting, ())?;
    answers::value_if(is_tone(tone, highest), Refusal::Argument, count)
}

// Whether the depth, the frequency (0 to highest, in Hz) and the start phase are accepted.
fn is_tone(tone: Tone, highest: f64) -> bool
    ensures { result ≡ is_tone tone highest }
{
    domain::is_depth(tone.depth)
        & floats::is_within(0.0, highest, tone.frequency)
        & domain::is_radians(tone.phase.0)
}
