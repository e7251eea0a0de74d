// The simd half of polyblep.rs, in f64: the two corrections, and the four calls that apply them, on four numbers at a
// time. Each of the four is a lane. A lane chooses between the two values of a correction: the test for the side before
// the step comes last and wins, where the single form (`polyblep`) takes the first test that holds. Renders keep the
// single form. Left out: the simd paths of waveform.rs, oscillator.rs and lfo.rs.
#![tactic(auto)]

ghost use Rattle.std.specs.Prelude.{◌≡◌, if◌then◌else◌, Float};
ghost use Rattle.std.specs.Float.Ieee.{lt};
ghost use Rattle.floats.specs.Double.{◌⊖◌, ◌⊘◌, one};
ghost use Rattle.answers.specs.Order.{unless};
ghost use Rattle.answers.specs.declared.Refusal.TheVariants.{Argument};
ghost use Rattle.polyblep.specs.Polyblep.{value_at, fract_of};
ghost use Rattle.lanes.specs.Lanes.{lane_side, blep_lane, blamp_lane, both};
ghost use Rattle.lanes.specs.Calls.{are_phases, are_finite, are_taken, lanes_or, poly_blep_simd_of, poly_blamp_simd_of, apply_polyblep_saw_of, apply_polyblep_square_of, apply_polyblep_pulse_of, apply_polyblamp_triangle_of};

use answers::{Answer, Refusal};

// Four numbers beside their answer.
#[derive(Clone, Copy)]
pub struct Lanes {
    pub answer: Answer,
    pub values: [f64; 4],
}

// The corrections at a step: a lane has the phase t from the step and the phase dt of one sample, both in cycles.
pub fn poly_blep_simd(t: [f64; 4], dt: [f64; 4]) -> Lanes
    ensures { result ≡ poly_blep_simd_of t dt }
{
    lanes_if(are_phases(t, dt), [0.0; 4], both(t, dt, blep_lane))
}

// The corrections at a corner.
pub fn poly_blamp_simd(t: [f64; 4], dt: [f64; 4]) -> Lanes
    ensures { result ≡ poly_blamp_simd_of t dt }
{
    lanes_if(are_phases(t, dt), [0.0; 4], both(t, dt, blamp_lane))
}

// Four samples of a sawtooth, corrected at its step.
pub fn apply_polyblep_saw(samples: [f64; 4], phases: [f64; 4], phase_inc: f64) -> Lanes
    ensures { result ≡ apply_polyblep_saw_of samples phases phase_inc }
{
    let ok = are_taken(samples, phases, phase_inc);
    let corrected = both(samples, phases, |x, p| x - blep_lane(p, phase_inc));
    lanes_if(ok, samples, corrected)
}

// Four samples of a square, corrected where it rises and where it falls, half a cycle on.
pub fn apply_polyblep_square(samples: [f64; 4], phases: [f64; 4], phase_inc: f64) -> Lanes
    ensures { result ≡ apply_polyblep_square_of samples phases phase_inc }
{
    let ok = are_taken(samples, phases, phase_inc);
    let corrected = both(samples, phases, |x, p| {
        x + blep_lane(p, phase_inc) - blep_lane(fract(p + 0.5), phase_inc)
    });
    lanes_if(ok, samples, corrected)
}

// Four samples of a pulse, corrected where it rises and where it falls, at the duty.
pub fn apply_polyblep_pulse(
    samples: [f64; 4],
    phases: [f64; 4],
    phase_inc: f64,
    duty_cycle: f64,
) -> Lanes
    ensures { result ≡ apply_polyblep_pulse_of samples phases phase_inc duty_cycle }
{
    let ok = are_taken(samples, phases, phase_inc) & domain::is_duty(duty_cycle);
    let corrected = both(samples, phases, |x, p| {
        x + blep_lane(p, phase_inc) - blep_lane(fract(p - duty_cycle + 1.0), phase_inc)
    });
    lanes_if(ok, samples, corrected)
}

// Four samples of a triangle, corrected at its lower corner and at its upper one, half a cycle on.
pub fn apply_polyblamp_triangle(samples: [f64; 4], phases: [f64; 4], phase_inc: f64) -> Lanes
    ensures { result ≡ apply_polyblamp_triangle_of samples phases phase_inc }
{
    let ok = are_taken(samples, phases, phase_inc);
    let corrected = both(samples, phases, |x, p| {
        x + 8.0 * blamp_lane(p, phase_inc) - 8.0 * blamp_lane(fract(p + 0.5), phase_inc)
    });
    lanes_if(ok, samples, corrected)
}

// One lane of a correction at a step.
fn blep_lane(t: f64, dt: f64) -> f64
    ensures { result ≡ blep_lane t dt }
{
    let x = distance(t, dt);
    let after = 2.0 * x - x * x - 1.0;
    let before = x * x + 2.0 * x + 1.0;
    chosen(t, dt, after, before)
}

// One lane of a correction at a corner.
fn blamp_lane(t: f64, dt: f64) -> f64
    ensures { result ≡ blamp_lane t dt }
{
    let x = distance(t, dt);
    let after = polyblep::knee_after(x) * dt;
    let before = polyblep::knee_before(x) * dt;
    chosen(t, dt, after, before)
}

// The distance from the step in samples, on the side that t is taken to be on: one division, where the original makes
// two. Where dt is 0 it is infinite or a NaN; inside the domain neither value is chosen then.
fn distance(t: f64, dt: f64) -> f64
    ensures { result ≡ (if lt (one ⊖ dt) t then (t ⊖ one) else t) ⊘ dt }
{
    let from_step = if t > 1.0 - dt { t - 1.0 } else { t };
    from_step / dt
}

// The value on the side that t is taken to be on: the later test wins.
fn chosen(t: f64, dt: f64, after: f64, before: f64) -> f64
    ensures { result ≡ value_at (λ (x : Float). after) (λ (x : Float). before) (lane_side t dt) }
{
    let earlier = if t < dt { after } else { 0.0 };
    if t > 1.0 - dt { before } else { earlier }
}

// The lanes' own floor, that of each lane, is under it.
fn fract(x: f64) -> f64
    ensures { result ≡ fract_of x }
{
    x - floats::floor(x)
}

// What f gives of the two numbers in each lane.
fn both<R: Copy, F: Fn(f64, f64) -> R>(x: [f64; 4], y: [f64; 4], f: F) -> [R; 4]
    requires { F.IsAlwaysCallable f }
    ensures { (g : Float → Float → R) → ((a b : Float) (r : R) → F.post f a b r → r ≡ g a b) → result ≡ both g x y }
{
    [f(x[0], y[0]), f(x[1], y[1]), f(x[2], y[2]), f(x[3], y[3])]
}

// Whether an apply call takes the samples and phases, with one dt for all lanes.
fn are_taken(samples: [f64; 4], phases: [f64; 4], dt: f64) -> bool
    ensures { result ≡ are_taken samples phases dt }
{
    are_phases(phases, [dt; 4]) & are_finite(samples)
}

// Whether every lane's t and dt are in the domain.
fn are_phases(t: [f64; 4], dt: [f64; 4]) -> bool
    ensures { result ≡ are_phases t dt }
{
    both(t, dt, domain::is_phase) == [true; 4]
}

fn are_finite(x: [f64; 4]) -> bool
    ensures { result ≡ are_finite x }
{
    x.iter().all(|x| floats::is_finite(*x))
}

// Done, with the values, where ok is true; else refused, with what is kept.
fn lanes_if(ok: bool, kept: [f64; 4], values: [f64; 4]) -> Lanes
    ensures { result ≡ lanes_or (unless ok Argument) kept values }
{
    if ok {
        Lanes {
            answer: Ok(0),
            values,
        }
    } else {
        Lanes {
            answer: Err(Refusal::Argument),
            values: kept,
        }
    }
}
