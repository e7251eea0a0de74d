// polyblep.rs of the original, in f64: corrections for the steps (`poly_blep`) and the corners (`poly_blamp`) of a
// naive waveform, and four corrected waveforms. The calls of 01 judge their arguments; the functions under them take
// any number, and a waveform's inner loop uses these. The simd half is in `lanes`. Ours is the rounded triangle, whose
// correction has the constant of integration that the original's lacks.
#![tactic(auto)]

ghost use Rattle.std.specs.Prelude.{◌≡◌};
ghost use Rattle.polyblep.specs.Polyblep.{side_of, knee_after, knee_before, blep_of, blamp_of, rounded_blamp_of, fract_of, naive_pulse_of, naive_saw_of, rise_of, fall_of, naive_triangle_of, saw_of, square_of, pulse_of, triangle_of, rounded_of};
ghost use Rattle.polyblep.specs.Calls.{poly_blep_of, poly_blamp_of, polyblep_saw_of, polyblep_square_of, polyblep_pulse_of, polyblamp_triangle_of};

use answers::Refusal;

// 1.0 / 3.0
pub const THIRD: f64 = 0.3333333333333333;

// The levels of a square and a pulse: HIGH before the edge, LOW from the edge on.
pub const HIGH: f64 = 1.0;

pub const LOW: f64 = -1.0;

// Where a phase lies from a step: x samples after it, x samples before it (x at most 0), or a sample or more away.
#[derive(Clone, Copy)]
pub enum Side {
    After(f64),
    Before(f64),
    Away,
}

// The correction at a step: t is the phase from the step and dt the phase of one sample, both in cycles.
pub fn poly_blep(t: f64, dt: f64) -> Result<f64, Refusal>
    ensures { result ≡ poly_blep_of t dt }
{
    answers::value_if(domain::is_phase(t, dt), Refusal::Argument, blep(t, dt))
}

// The correction at a corner, that at a step integrated but for its constant; t and dt are in cycles.
pub fn poly_blamp(t: f64, dt: f64) -> Result<f64, Refusal>
    ensures { result ≡ poly_blamp_of t dt }
{
    answers::value_if(domain::is_phase(t, dt), Refusal::Argument, blamp(t, dt))
}

pub fn polyblep_saw(phase: f64, dt: f64) -> Result<f64, Refusal>
    ensures { result ≡ polyblep_saw_of phase dt }
{
    answers::value_if(
        domain::is_phase(phase, dt),
        Refusal::Argument,
        saw(phase, dt),
    )
}

pub fn polyblep_square(phase: f64, dt: f64) -> Result<f64, Refusal>
    ensures { result ≡ polyblep_square_of phase dt }
{
    answers::value_if(
        domain::is_phase(phase, dt),
        Refusal::Argument,
        square(phase, dt),
    )
}

pub fn polyblep_pulse(phase: f64, dt: f64, duty: f64) -> Result<f64, Refusal>
    ensures { result ≡ polyblep_pulse_of phase dt duty }
{
    answers::value_if(
        domain::is_phase(phase, dt) & domain::is_duty(duty),
        Refusal::Argument,
        pulse(phase, dt, duty),
    )
}

pub fn polyblamp_triangle(phase: f64, dt: f64) -> Result<f64, Refusal>
    ensures { result ≡ polyblamp_triangle_of phase dt }
{
    answers::value_if(
        domain::is_phase(phase, dt),
        Refusal::Argument,
        triangle(phase, dt),
    )
}

pub fn blep(t: f64, dt: f64) -> f64
    ensures { result ≡ blep_of t dt }
{
    match side_of(t, dt) {
        Side::After(x) => 2.0 * x - x * x - 1.0,
        Side::Before(x) => x * x + 2.0 * x + 1.0,
        Side::Away => 0.0,
    }
}

pub fn blamp(t: f64, dt: f64) -> f64
    ensures { result ≡ blamp_of t dt }
{
    match side_of(t, dt) {
        Side::After(x) => knee_after(x) * dt,
        Side::Before(x) => knee_before(x) * dt,
        Side::Away => 0.0,
    }
}

// `blamp` with the constant of integration: without rounding, a third of dt at the corner and 0 one sample away.
pub fn rounded_blamp(t: f64, dt: f64) -> f64
    ensures { result ≡ rounded_blamp_of t dt }
{
    match side_of(t, dt) {
        Side::After(x) => (knee_after(x) + THIRD) * dt,
        Side::Before(x) => (knee_before(x) + THIRD) * dt,
        Side::Away => 0.0,
    }
}

// The bracket of a corner's correction, x samples after the corner.
pub fn knee_after(x: f64) -> f64
    ensures { result ≡ knee_after x }
{
    let x2 = x * x;
    let x3 = x2 * x;
    x2 - x3 * THIRD - x
}

// Before the corner, where x is at most 0.
pub fn knee_before(x: f64) -> f64
    ensures { result ≡ knee_before x }
{
    let x2 = x * x;
    let x3 = x2 * x;
    x3 * THIRD + x2 + x
}

pub fn saw(phase: f64, dt: f64) -> f64
    ensures { result ≡ saw_of phase dt }
{
    naive_saw(phase) - blep(phase, dt)
}

pub fn square(phase: f64, dt: f64) -> f64
    ensures { result ≡ square_of phase dt }
{
    let rise = blep(phase, dt);
    let fall = blep(fract(phase + 0.5), dt);
    naive_pulse(phase, 0.5) + rise - fall
}

pub fn pulse(phase: f64, dt: f64, duty: f64) -> f64
    ensures { result ≡ pulse_of phase dt duty }
{
    let rise = blep(phase, dt);
    let fall = blep(fract(phase - duty + 1.0), dt);
    naive_pulse(phase, duty) + rise - fall
}

pub fn triangle(phase: f64, dt: f64) -> f64
    ensures { result ≡ triangle_of phase dt }
{
    let low = blamp(phase, dt);
    let high = blamp(fract(phase + 0.5), dt);
    naive_triangle(phase) + 8.0 * low - 8.0 * high
}

// The rounded triangle: half the triangle's factor, which is what a change of slope of 8 asks for.
pub fn rounded(phase: f64, dt: f64) -> f64
    ensures { result ≡ rounded_of phase dt }
{
    let low = rounded_blamp(phase, dt);
    let high = rounded_blamp(fract(phase + 0.5), dt);
    naive_triangle(phase) + 4.0 * low - 4.0 * high
}

// The side of the step at phase 0, which is also the step at phase 1, with the distance from it in samples.
fn side_of(t: f64, dt: f64) -> Side
    ensures { result ≡ side_of t dt }
{
    if t < dt {
        Side::After(t / dt)
    } else if t > 1.0 - dt {
        Side::Before((t - 1.0) / dt)
    } else {
        Side::Away
    }
}

// 1 before the edge, -1 from the edge on.
pub fn naive_pulse(phase: f64, edge: f64) -> f64
    ensures { result ≡ naive_pulse_of phase edge }
{
    if phase < edge { HIGH } else { LOW }
}

// The naive triangle: from -1 at phase 0 up to 1 at phase 0.5, and down to -1 at phase 1.
pub fn naive_triangle(phase: f64) -> f64
    ensures { result ≡ naive_triangle_of phase }
{
    if phase < 0.5 {
        rise(phase)
    } else {
        fall(phase)
    }
}

// The naive sawtooth: from -1 at phase 0 up to 1 at phase 1.
pub fn naive_saw(phase: f64) -> f64
    ensures { result ≡ naive_saw_of phase }
{
    2.0 * phase - 1.0
}

// The naive triangle below phase 0.5.
pub fn rise(phase: f64) -> f64
    ensures { result ≡ rise_of phase }
{
    4.0 * phase - 1.0
}

// The naive triangle from phase 0.5 on.
pub fn fall(phase: f64) -> f64
    ensures { result ≡ fall_of phase }
{
    3.0 - 4.0 * phase
}

fn fract(x: f64) -> f64
    ensures { result ≡ fract_of x }
{
    x - floats::floor(x)
}
