// waveform.rs of the original: one sample of a waveform. `sample` and `value_at` take the phase and dt, the step of the
// phase in one sample, in cycles; a block counts both in radians, which `normalised` and `in_cycles` turn into cycles.
// Left out, as 01 says: noise and the simd paths. The rounded triangle is ours.
#![tactic(auto)]

ghost use Rattle.std.specs.Prelude.{ℕ, ◌≡◌, ◌*◌, ◌%◌, ◌^◌, T};
ghost use Rattle.std.specs.Float.{binary64};
ghost use Rattle.std.specs.Float.Ieee.{of_bits, lt, le};
ghost use Rattle.std.specs.Float.Ieee.Scale.{finite};
ghost use Rattle.std.specs.Float.Ieee.Positive.{num, den};
ghost use Rattle.waveform.specs.Waveform.{is_waveform, value_of, sample_of, remainder_of, normal_of, reduce_of, increment_of, radians, tau, inv_tau};
ghost use Rattle.waveform.specs.Filled.{value_at};
ghost use Rattle.floats.specs.Double.{◌⊗◌};
ghost use Rattle.floats.specs.Range.{nonneg};

use answers::Refusal;

// TAU and INV_TAU have the bits of the original's constants; TWO_TAU is exactly twice TAU.
pub const TAU: f64 = 6.283185307179586;

const INV_TAU: f64 = 0.15915494309189535;

pub const TWO_TAU: f64 = 12.566370614359172;

// 2^50, the units of the fixed point in a radian.
const UNITS: f64 = 1125899906842624.0;

// TAU * 2^50, which is a whole number.
const TAU_IN_FIXED_POINT: u64 = 0x19_21fb_5444_2d18;

// A number of radians, as a type of its own, so that no number of cycles (a plain f64 here) is taken for radians.
#[derive(Clone, Copy)]
pub struct Radians(pub f64);

// A pulse carries its own duty: the fraction of the cycle, 0 to 1, in which the pulse is high.
#[derive(Clone, Copy)]
pub enum Waveform {
    Sine,
    Square,
    Sawtooth,
    Triangle,
    Pulse(f64),
    RoundedTriangle,
}

// One sample; phase (0 to 1) and dt (0 to 4) are in cycles. The duty is refused with 6, else phase or dt with 9.
pub fn sample(waveform: Waveform, phase: f64, dt: f64) -> Result<f64, Refusal>
    ensures { result ≡ sample_of waveform phase dt }
{
    if !is_waveform(waveform) {
        return Err(Refusal::Setting);
    }
    answers::value_if(
        domain::is_phase(phase, dt),
        Refusal::Argument,
        value_at(waveform, phase, dt),
    )
}

// False only for a pulse whose duty is outside 0 to 1 or a NaN.
pub fn is_waveform(waveform: Waveform) -> bool
    ensures { result ≡ is_waveform waveform }
{
    match waveform {
        Waveform::Pulse(duty) => domain::is_duty(duty),
        _ => true,
    }
}

// The value that `sample` gives when it accepts; defined for every phase, dt and duty.
pub fn value_at(waveform: Waveform, phase: f64, dt: f64) -> f64
    ensures { result ≡ value_of waveform phase dt }
{
    match waveform {
        Waveform::Sine => sine::reading(phase),
        Waveform::Square => polyblep::square(phase, dt),
        Waveform::Sawtooth => polyblep::saw(phase, dt),
        Waveform::Triangle => polyblep::triangle(phase, dt),
        Waveform::Pulse(duty) => polyblep::pulse(phase, dt, duty),
        Waveform::RoundedTriangle => polyblep::rounded(phase, dt),
    }
}

// The value at (phase % TAU) * INV_TAU, with dt = step * INV_TAU.
pub fn wave_at(waveform: Waveform, phase: Radians, step: Radians) -> f64
    ensures { result ≡ value_at waveform step.0 phase.0 }
{
    value_at(waveform, normalised(phase), in_cycles(step))
}

// (phase % TAU) * INV_TAU: the phase as a fraction of its cycle.
pub fn normalised(phase: Radians) -> f64
    ensures { result ≡ normal_of phase.0 }
{
    in_cycles(remainder(phase))
}

// The one place where radians become cycles.
pub fn in_cycles(x: Radians) -> f64
    ensures { result ≡ x.0 ⊗ inv_tau }
{
    x.0 * INV_TAU
}

// The phase modulo TAU, never negative: TAU itself where a negative remainder is so small that the sum rounds to TAU.
pub fn reduced(phase: Radians) -> Radians
    ensures { result ≡ radians (reduce_of phase.0) }
{
    let rest = remainder(phase);
    if rest.0 < 0.0 {
        return Radians(rest.0 + TAU);
    }
    rest
}

// phase % TAU, to the bit, fast for a phase from 0 up to 16,384: below TAU it is the phase, below 2 TAU the phase
// less TAU, and from there phase and TAU are whole multiples of 2^-50, so that integers give the remainder. Nothing is
// rounded.
pub fn remainder(phase: Radians) -> Radians
    ensures { result ≡ radians (remainder_of phase.0) }
{
    let x = phase.0;
    if (0.0 <= x) & (x < 16384.0) {
        if x < TAU {
            return phase;
        }
        if x < TWO_TAU {
            return Radians(x - TAU);
        }
        return Radians((in_fixed_point(x) % TAU_IN_FIXED_POINT) as f64 / UNITS);
    }
    Radians(far_remainder(x))
}

// x % TAU without `%` of floats. That is a call of C's `fmod`, and a program that is linked against a newer C library
// than that of the machine does not start there.
fn far_remainder(x: f64) -> f64
    ensures { result ≡ remainder_of x }
{
    if !floats::is_finite(x) {
        return x - x;
    }
    if x < 0.0 {
        return -size_remainder(-x);
    }
    size_remainder(x)
}

// x % TAU of a finite x that is not negative.
fn size_remainder(x: f64) -> f64
    requires { T (nonneg x) }
    ensures { result ≡ remainder_of x }
{
    if x < TAU {
        return x;
    }
    units_left(x) as f64 / UNITS
}

// The remainder of x * 2^50, a whole number, by TAU * 2^50: the digits of x are doubled as often as its exponent says.
fn units_left(x: f64) -> u64
    requires { T (le tau x) × T (finite x) }
    ensures { (n : ℕ) × (num x * 2 ^ 50 ≡ n * den x) × (result ≡ n % 0x19_21fb_5444_2d18) }
{
    let bits = f64::to_bits(x);
    let field = bits / 0x10_0000_0000_0000;
    let digits = 0x10_0000_0000_0000 + bits % 0x10_0000_0000_0000;
    let mut left = digits % TAU_IN_FIXED_POINT;
    for doubled in 1025..field {
        left = left * 2 % TAU_IN_FIXED_POINT;
    }
    left
}

// x * 2^50, from the bits of x: from 4 on, the lowest bit of an f64 is worth 2^-50 or more, so the product is whole.
fn in_fixed_point(x: f64) -> u64
    requires { T (le tau x) × T (lt x (of_bits binary64 0x40d0_0000_0000_0000)) }
    ensures { num x * 2 ^ 50 ≡ result * den x }
{
    let bits = f64::to_bits(x);
    let field = bits / 0x10_0000_0000_0000;
    let digits = 0x10_0000_0000_0000 + bits % 0x10_0000_0000_0000;
    digits << (field - 1025)
}

// How far the phase moves in one sample, in radians; frequency and rate are in Hz.
pub fn increment(frequency: f64, rate: u32) -> Radians
    ensures { result ≡ radians (increment_of frequency rate) }
{
    Radians(frequency / rate as f64 * TAU)
}
