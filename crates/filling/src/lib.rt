// The inner loop of a block: writes the samples of a waveform into a lent part of the output, in the way that is
// fastest for the note. Low notes are made by straight lines between corrections, high notes without a branch, a sine
// from its table.
#![tactic(auto)]

ghost use Rattle.std.specs.Prelude.{◌≡◌, cond, ◌+◌, ◌^◌, pos, T, length, Float};
ghost use Rattle.floats.specs.Range.{within};
ghost use Rattle.floats.specs.Double.{◌⊗◌, zero64, one};
ghost use Rattle.sine.specs.Sine.{steps, whole_part, float};
ghost use Rattle.sine.specs.Whole.{whole_reading};
ghost use Rattle.waveform.specs.Waveform.{normal_of, inv_tau};
ghost use Rattle.waveform.specs.Filled.{Filled, FilledBy};
ghost use Rattle.waveform.specs.declared.Waveform.TheVariants.{Sine};
ghost use Rattle.high_notes.specs.Remainders.{made_of};
ghost use Rattle.high_notes.specs.Inner.{AllFractions};
ghost use Rattle.filling.specs.Lent.{value_in};

use waveform::{Radians, Waveform, in_cycles, normalised};

// In cycles a sample: where a cycle has 32 samples or fewer, straight lines between corrections are not faster.
const HIGH_NOTE: f64 = 0.03125;

// 2^60 radians, beyond which no step of at most 16 takes a phase.
const FAR: f64 = 1152921504606846976.0;

// 2^52.
const LARGE: f64 = 4503599627370496.0;

// The whole wave that `sine` makes, or any table of as many numbers.
type WholeWave = [f64; 4097];

// Writes value * scale for each sample, and gives the phase after the last. That phase is not reduced: a render lends
// parts of its output, and 01 says "The end of a caller's buffer reduces nothing".
pub fn fill(
    out: &mut [f64],
    waveform: Waveform,
    start: Radians,
    step: Radians,
    scale: f64,
) -> Radians
    ensures { Filled waveform start.0 step.0 scale out.old out.new result }
{
    if let Waveform::Sine = waveform {
        return fill_sine(out, start, step, scale);
    }
    if HIGH_NOTE <= in_cycles(step) {
        return high_notes::fill(out, waveform, start, step, scale);
    }
    low_notes::fill(out, waveform, start, step, scale)
}

// The quarter wave is made once, before the loop.
fn fill_sine(out: &mut [f64], start: Radians, step: Radians, scale: f64) -> Radians
    ensures { Filled Sine start.0 step.0 scale out.old out.new result }
{
    let wave = sine::quarter_wave();
    let mut angle = start.0;
    for sample in out.iter_mut() {
        *sample = sine::reading_in(&wave, normalised(Radians(angle))) * scale;
        angle += step.0;
    }
    Radians(angle)
}

// `fill` with a lent table: a sine is read from a table of 4,097 numbers, and made by `fill` where the length is
// another. With the numbers of `sine::whole_wave` in the table, the bits are those of `fill`.
pub fn fill_in(
    wave: &[f64],
    out: &mut [f64],
    waveform: Waveform,
    start: Radians,
    step: Radians,
    scale: f64,
) -> Radians
    ensures { FilledBy (value_in wave.now waveform step.0) start.0 step.0 scale out.old out.new result }
{
    let Ok(table) = <&WholeWave>::try_from(wave) else {
        return fill(out, waveform, start, step, scale);
    };
    if let Waveform::Sine = waveform {
        return fill_wave(table, out, start, step, scale);
    }
    fill(out, waveform, start, step, scale)
}

// First the remainders of the phases over TAU go into the output, as for a high note. Of phases that rise from 0 or
// above, the remainders in cycles are from 0 to 1, and no reading has to be tested.
fn fill_wave(
    wave: &WholeWave,
    out: &mut [f64],
    start: Radians,
    step: Radians,
    scale: f64,
) -> Radians
    ensures { FilledBy (λ (p : Float). whole_reading wave.now (normal_of p)) start.0 step.0 scale out.old out.new result }
{
    let end = high_notes::fill_remainders(out, start, step);
    if floats::is_within(0.0, FAR, start.0) & floats::is_within(0.0, 16.0, step.0) {
        read_pairs(wave, out, scale);
        return end;
    }
    read_wave(wave, out, scale);
    end
}

// The readings of the remainders of phases.
fn read_wave(wave: &WholeWave, out: &mut [f64], scale: f64)
    ensures { out.new ≡ made_of (λ (x : Float). whole_reading wave.now (x ⊗ inv_tau) ⊗ scale) out.old (length out.old) }
{
    for x in out.iter_mut() {
        *x = sine::whole_reading(wave, in_cycles(Radians(*x))) * scale;
    }
}

// The readings of remainders that are from 0 to 1 in cycles, two at a time, which two lanes of a processor do at once.
fn read_pairs(wave: &WholeWave, out: &mut [f64], scale: f64)
    requires { AllFractions out.old }
    ensures { out.new ≡ made_of (λ (x : Float). whole_reading wave.now (x ⊗ inv_tau) ⊗ scale) out.old (length out.old) }
{
    for pair in 0..out.len() / 2 {
        let i = pair * 2;
        let first = reading_at(wave, in_cycles(Radians(out[i]))) * scale;
        let second = reading_at(wave, in_cycles(Radians(out[i + 1]))) * scale;
        out[i] = first;
        out[i + 1] = second;
    }
    if out.len() % 2 == 1 {
        let last = out.len() - 1;
        out[last] = reading_at(wave, in_cycles(Radians(out[last]))) * scale;
    }
}

// The reading at u cycles. The low digits of the sum are the table's point; point 4,096 is read as point 0.
fn reading_at(wave: &WholeWave, u: f64) -> f64
    requires { T (within zero64 one u) }
    ensures { result ≡ whole_reading wave.now u }
{
    let p = u * 4096.0;
    let sum = raised(p);
    let i = (f64::to_bits(sum) % 4096) as usize;
    sine::line(wave[i], wave[i + 1], p - (sum - LARGE))
}

// 2^52 plus the whole part of p. From 2^52 on a float has no digits below 1, so that p + 2^52 is rounded to a whole
// number; where that number is above p + 2^52 it is one too many.
fn raised(p: f64) -> f64
    requires { T (within zero64 steps p) }
    ensures { result ≡ float (pos (2 ^ 52 + whole_part p)) }
{
    let sum = p + LARGE;
    sum - one_if(p < sum - LARGE)
}

fn one_if(test: bool) -> f64
    ensures { result ≡ cond test one zero64 }
{
    if test {
        return 1.0;
    }
    0.0
}
