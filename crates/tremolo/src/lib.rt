// The tremolo of 02's request R-7: an LFO that makes the sound louder and softer. Here are its settings, the factor of
// one sample, and the pass that multiplies the samples of a lent part. The LFO's phase is a field of the state.
#![tactic(auto)]

ghost use Rattle.std.specs.Prelude.{◌≡◌};
ghost use Rattle.waveform.specs.Waveform.{radians};
ghost use Rattle.waveform.specs.Filled.{phase_from};
ghost use Rattle.tremolo.specs.Tremolo.{is_lfo, lfo_at, factor_of, is_flat, multiplied_of};

use waveform::{Radians, Waveform};

// The choice of waveform, the frequency in Hz, and the depth: 0 is no tremolo, at 1 the sound sinks to silence.
#[derive(Clone, Copy)]
pub struct Lfo {
    pub waveform: Waveform,
    pub frequency: f64,
    pub depth: f64,
}

// Whether a render accepts these settings: a waveform, 0 to 100 Hz, a depth from 0 to 1.
pub fn is_lfo(lfo: Lfo) -> bool
    ensures { result ≡ is_lfo lfo }
{
    let waveform = lfo.waveform;
    waveform::is_waveform(waveform)
        & floats::is_within(0.0, domain::HIGHEST_LFO, lfo.frequency)
        & domain::is_depth(lfo.depth)
}

// What the sample at an LFO's phase is multiplied by; the step is how far a sample moves that phase.
pub fn factor(lfo: Lfo, step: Radians, phase: Radians) -> f64
    ensures { result ≡ factor_of lfo.depth (lfo_at lfo step.0 phase.0) }
{
    let waveform = lfo.waveform;
    let depth = lfo.depth;
    let value = waveform::wave_at(waveform, phase, step) * depth;
    1.0 - depth / 2.0 + value / 2.0
}

// Whether the factor is known to be 1 at this phase and at every later one: depth 0, and finite values of the LFO.
pub fn is_flat(lfo: Lfo, step: Radians, phase: Radians) -> bool
    ensures { result ≡ is_flat lfo step.0 phase.0 }
{
    let waveform = lfo.waveform;
    floats::is_within(0.0, 0.0, lfo.depth)
        & waveform::is_waveform(waveform)
        & floats::is_within(0.0, 16.0, step.0)
        & domain::is_radians(phase.0)
}

// The phase after so many samples, added up sample by sample, unless a step is too small to change it.
pub fn advance(phase: Radians, step: Radians, samples: usize) -> Radians
    ensures { result ≡ radians (phase_from step.0 phase.0 samples) }
{
    let mut angle = phase.0;
    let next = angle + step.0;
    if words::f64_bits(next) == words::f64_bits(angle) {
        return phase;
    }
    for _ in 0..samples {
        angle = angle + step.0;
    }
    Radians(angle)
}

// Multiplies each sample of a part by the factor of the LFO's waveform at that sample, whose values are not yet times
// the depth; nothing, if there are not as many values as samples.
pub fn multiply(depth: f64, values: &[f64], part: &mut [f64])
    ensures { part.new ≡ multiplied_of depth values.now part.old }
{
    if values.len() != part.len() {
        return;
    }
    let base = 1.0 - depth / 2.0;
    for (i, x) in part.iter_mut().enumerate() {
        *x = *x * (base + values[i] * depth / 2.0);
    }
}
