// High notes: few samples a cycle, most of them near an edge, so that no straight line is looked for. First the phases
// go into the output, then their remainders over TAU, then the values with their corrections, by loops without branch.
#![tactic(auto)]

ghost use Rattle.std.specs.Prelude.{◌≡◌, ℕ, ◌<◌, true, cond, ◌&&◌, T, length, get_or, Float};
ghost use Rattle.std.specs.Float.{nan};
ghost use Rattle.std.specs.Float.Ieee.{lt};
ghost use Rattle.std.specs.Float.Ieee.Scale.{finite};
ghost use Rattle.runs.specs.Runs.{listed};
ghost use Rattle.floats.specs.Range.{within};
ghost use Rattle.floats.specs.Double.{◌⊗◌, zero64, one, two};
ghost use Rattle.polyblep.specs.Polyblep.{fract_of, blep_of, blamp_of, rounded_blamp_of, saw_of, square_of, pulse_of, triangle_of, rounded_of};
ghost use Rattle.waveform.specs.Waveform.{value_of, remainder_of, inv_tau, radians};
ghost use Rattle.waveform.specs.Filled.{phase_from, Filled};
ghost use Rattle.waveform.proofs.Values.{far, sixteen};
ghost use Rattle.high_notes.specs.Remainders.{made_of, remainders_of};
ghost use Rattle.high_notes.specs.Inner.{least, most, four_tau, eight_tau, thirty_two_tau, EachMade, wrap_once_of, AllBelow, AllFractions, quarter, three_quarters, is_second, HalfApart, Apart, is_apart, is_near, knee_of, from_nearer_corner, with_nearer_corner};
ghost use Rattle.waveform.specs.declared.Waveform.TheVariants.{Pulse};

use waveform::{Radians, TAU, TWO_TAU, Waveform, in_cycles, remainder, value_at};

// 2^60 radians, beyond which no step of at most 16 takes a phase.
const FAR: f64 = 1152921504606846976.0;

const FOUR_TAU: f64 = 25.132741228718345;

const EIGHT_TAU: f64 = 50.26548245743669;

const SIXTEEN_TAU: f64 = 100.53096491487338;

const THIRTY_TWO_TAU: f64 = 201.06192982974676;

// A block of any waveform at any step. For a sine and for a low note, `filling::fill` has faster ways.
pub fn fill(
    out: &mut [f64],
    waveform: Waveform,
    start: Radians,
    step: Radians,
    scale: f64,
) -> Radians
    ensures { Filled waveform start.0 step.0 scale out.old out.new result }
{
    if !is_rising(start, step) {
        return low_notes::fill(out, waveform, start, step, scale);
    }
    let dt = in_cycles(step);
    let end = fill_phases(out, start, step);
    wrap_phases(out, end);
    fill_values(out, waveform, dt, scale);
    end
}

// Writes the remainder over TAU of the phase before each sample, and gives the phase after the last.
pub fn fill_remainders(out: &mut [f64], start: Radians, step: Radians) -> Radians
    ensures { (out.new ≡ remainders_of step.0 start.0 (length out.old)) × (result ≡ radians (phase_from step.0 start.0 (length out.old))) }
{
    let end = fill_phases(out, start, step);
    if is_rising(start, step) {
        wrap_phases(out, end);
        return end;
    }
    wrap_one_by_one(out);
    end
}

// Writes the phase before each sample, and gives the phase after the last.
fn fill_phases(out: &mut [f64], start: Radians, step: Radians) -> Radians
    ensures { (out.new ≡ listed (phase_from step.0 start.0) (length out.old)) × (result ≡ radians (phase_from step.0 start.0 (length out.old))) }
{
    let mut angle = start.0;
    for x in out.iter_mut() {
        *x = angle;
        angle += step.0;
    }
    Radians(angle)
}

// Whether the phases of any block from here on never fall, and lie from 0 to 2^60 radians.
fn is_rising(start: Radians, step: Radians) -> bool
    ensures { result ≡ (within zero64 far start.0 && within zero64 sixteen step.0) }
{
    floats::is_within(0.0, FAR, start.0) & floats::is_within(0.0, 16.0, step.0)
}

// Makes remainders over TAU of phases, none of which is above the phase after the last: below 32 TAU by differences,
// over fewer and fewer cycles.
fn wrap_phases(out: &mut [f64], end: Radians)
    requires { (bound : Float) → T (finite bound) → T (lt end.0 bound) → AllBelow bound out.old }
    ensures { out.new ≡ made_of remainder_of out.old (length out.old) }
{
    if end.0 < THIRTY_TWO_TAU {
        for over in [SIXTEEN_TAU, EIGHT_TAU, FOUR_TAU, TWO_TAU, TAU] {
            if end.0 < over {
                continue;
            }
            wrap_once(out, Radians(over));
        }
        return;
    }
    wrap_one_by_one(out);
}

fn wrap_one_by_one(out: &mut [f64])
    ensures { out.new ≡ made_of remainder_of out.old (length out.old) }
{
    map_each(out, |x| remainder(Radians(x)).0);
}

// Each number is replaced by what `f` makes of it.
fn map_each<F: Fn(f64) -> f64>(out: &mut [f64], f: F)
    requires { (i : ℕ) → i < length out.old → F.pre f (get_or out.old i nan) }
    ensures { EachMade (λ (x y : Float). F.post f x y) out.old out.new }
{
    for x in out.iter_mut() {
        *x = f(*x);
    }
}

// One difference: `over` radians less, of each phase that is not below `over`.
fn wrap_once(out: &mut [f64], over: Radians)
    ensures { out.new ≡ made_of (wrap_once_of over.0) out.old (length out.old) }
{
    let y = over.0;
    map_each(out, |x| x - select(x < y, 0.0, y));
}

// The values at remainders, which are from 0 to 1 in cycles: with one correction a sample where the edges are so far
// apart that no sample has two. No match is left in a loop: each waveform has loops of its own, since the back end took
// a match out of some loops only. It takes the test out of the loops of a pulse and a rounded triangle.
fn fill_values(out: &mut [f64], waveform: Waveform, dt: f64, scale: f64)
    requires { AllFractions out.old }
    ensures { out.new ≡ made_of (λ (x : Float). value_of waveform (x ⊗ inv_tau) dt ⊗ scale) out.old (length out.old) }
{
    if let Waveform::RoundedTriangle = waveform {
        let apart = is_half_apart(dt);
        map_each(out, |x| {
            rounded_value(in_cycles(Radians(x)), dt, apart) * scale
        });
        return;
    }
    if are_apart(waveform, dt) {
        fill_values_apart(out, waveform, dt, scale);
        return;
    }
    fill_values_any(out, waveform, dt, scale);
}

// With both corrections, without a branch that depends on the fraction; a sine and a rounded triangle, which are made
// elsewhere, as `value_at` makes them.
fn fill_values_any(out: &mut [f64], waveform: Waveform, dt: f64, scale: f64)
    requires { AllFractions out.old }
    ensures { out.new ≡ made_of (λ (x : Float). value_of waveform (x ⊗ inv_tau) dt ⊗ scale) out.old (length out.old) }
{
    match waveform {
        Waveform::Square => map_each(out, |x| square(in_cycles(Radians(x)), dt) * scale),
        Waveform::Sawtooth => map_each(out, |x| saw(in_cycles(Radians(x)), dt) * scale),
        Waveform::Triangle => map_each(out, |x| triangle(in_cycles(Radians(x)), dt) * scale),
        Waveform::Pulse(duty) => map_each(out, |x| pulse(in_cycles(Radians(x)), dt, duty) * scale),
        _ => map_each(
            out,
            |x| value_at(waveform, in_cycles(Radians(x)), dt) * scale,
        ),
    }
}

// With the nearer corner's correction alone where the corners are apart, else with both.
fn rounded_value(u: f64, dt: f64, apart: bool) -> f64
    requires { T (within zero64 one u) × (apart ≡ true → HalfApart dt) }
    ensures { result ≡ rounded_of u dt }
{
    if apart {
        return rounded_apart(u, dt);
    }
    rounded(u, dt)
}

// ---- the two edges are so far apart that no sample has two corrections: the correction of the nearer edge alone
// For the waveforms that `are_apart` tests; the others as `value_at` makes them.
fn fill_values_apart(out: &mut [f64], waveform: Waveform, dt: f64, scale: f64)
    requires { AllFractions out.old × Apart waveform dt }
    ensures { out.new ≡ made_of (λ (x : Float). value_of waveform (x ⊗ inv_tau) dt ⊗ scale) out.old (length out.old) }
{
    match waveform {
        Waveform::Square => map_each(out, |x| square_apart(in_cycles(Radians(x)), dt) * scale),
        Waveform::Triangle => map_each(out, |x| triangle_apart(in_cycles(Radians(x)), dt) * scale),
        Waveform::Pulse(duty) => map_each(
            out,
            |x| pulse_apart(in_cycles(Radians(x)), dt, duty) * scale,
        ),
        _ => map_each(
            out,
            |x| value_at(waveform, in_cycles(Radians(x)), dt) * scale,
        ),
    }
}

fn square_apart(u: f64, dt: f64) -> f64
    requires { T (within zero64 one u) × HalfApart dt }
    ensures { result ≡ square_of u dt }
{
    let second = is_second(u);
    let c = blep(select(second, fract(u + 0.5), u), dt);
    polyblep::naive_pulse(u, 0.5) + select(second, 0.0, c) - select(second, c, 0.0)
}

fn triangle_apart(u: f64, dt: f64) -> f64
    requires { T (within zero64 one u) × HalfApart dt }
    ensures { result ≡ triangle_of u dt }
{
    with_nearer_corner(u, 8.0 * blamp(from_nearer_corner(u), dt))
}

fn rounded_apart(u: f64, dt: f64) -> f64
    requires { T (within zero64 one u) × HalfApart dt }
    ensures { result ≡ rounded_of u dt }
{
    with_nearer_corner(u, 4.0 * rounded_blamp(from_nearer_corner(u), dt))
}

// The phase from the nearer of a triangle's two corners, which are at the fractions 0 and 0.5.
fn from_nearer_corner(u: f64) -> f64
    requires { T (within zero64 one u) }
    ensures { result ≡ from_nearer_corner u }
{
    select(is_second(u), fract(u + 0.5), u)
}

// The naive triangle with the nearer corner's correction: added at the lower corner, taken away at the upper one.
fn with_nearer_corner(u: f64, correction: f64) -> f64
    ensures { result ≡ with_nearer_corner u correction }
{
    let second = is_second(u);
    polyblep::naive_triangle(u) + select(second, 0.0, correction) - select(second, correction, 0.0)
}

// Whether the second edge, at the fraction 0.5, is the nearer one.
fn is_second(u: f64) -> bool
    ensures { result ≡ is_second quarter three_quarters u }
{
    (0.25 <= u) & (u < 0.75)
}

fn pulse_apart(u: f64, dt: f64, duty: f64) -> f64
    requires { T (within zero64 one u) × Apart (Pulse duty) dt }
    ensures { result ≡ pulse_of u dt duty }
{
    let middle = duty * 0.5;
    let second = (middle <= u) & (u < 0.5 + middle);
    let c = blep(select(second, fract(u - duty + 1.0), u), dt);
    polyblep::naive_pulse(u, duty) + select(second, 0.0, c) - select(second, c, 0.0)
}

// Whether no sample is near both edges. A sawtooth has one edge, and a sine none: no test is needed. A rounded triangle
// is tested in its own loop.
fn are_apart(waveform: Waveform, dt: f64) -> bool
    ensures { result ≡ true → Apart waveform dt }
{
    match waveform {
        Waveform::Square => is_half_apart(dt),
        Waveform::Triangle => is_half_apart(dt),
        Waveform::Pulse(duty) => is_duty_apart(duty, dt),
        _ => false,
    }
}

// With the second edge at the half.
fn is_half_apart(dt: f64) -> bool
    ensures { result ≡ true → HalfApart dt }
{
    is_apart(0.25, 0.75, 0.5, 0.75, 1.25, 1.5, dt)
}

fn is_duty_apart(duty: f64, dt: f64) -> bool
    ensures { result ≡ true → Apart (Pulse duty) dt }
{
    let from = duty * 0.5;
    let to = 0.5 + from;
    let apart = is_apart(
        from,
        to,
        0.0 - duty + 1.0,
        from - duty + 1.0,
        to - duty + 1.0,
        1.0 - duty + 1.0,
        dt,
    );
    is_wide(duty) & apart
}

// Whether a duty is far enough from 0 and 1 that the second edge's phase is above 0 and below 2: from 2^-10 to 1 -
// 2^-10.
fn is_wide(duty: f64) -> bool
    ensures { result ≡ within least most duty }
{
    floats::is_within(0.0009765625, 0.9990234375, duty)
}

// Whether the first edge is near no fraction between `from` and `to`, and the second edge near no other. The second
// edge's phase is `low` at fraction 0, `before` at `from`, `behind` at `to` and `high` at 1.
fn is_apart(from: f64, to: f64, low: f64, before: f64, behind: f64, high: f64, dt: f64) -> bool
    ensures { result ≡ is_apart from to low before behind high dt }
{
    let far = 1.0 - dt;
    let is_unit = floats::is_within(0.0, 1.0, from) & floats::is_within(0.0, 1.0, to);
    let first = (0.0 < low) & (before < 1.0) & (dt <= low) & (before <= far);
    let last = (1.0 <= behind) & (high < 2.0) & (dt <= behind - 1.0) & (high - 1.0 <= far);
    is_unit & ((dt <= from) & (to <= far)) & (first & last)
}

// ---- the values of polyblep, without a branch
fn saw(u: f64, dt: f64) -> f64
    ensures { result ≡ saw_of u dt }
{
    polyblep::naive_saw(u) - blep(u, dt)
}

fn square(u: f64, dt: f64) -> f64
    requires { T (within zero64 one u) }
    ensures { result ≡ square_of u dt }
{
    let rise = blep(u, dt);
    let fall = blep(fract(u + 0.5), dt);
    polyblep::naive_pulse(u, 0.5) + rise - fall
}

// With a duty so near 0 or 1 that the second edge's phase may leave 0 to 2, `polyblep::pulse` makes the value.
fn pulse(u: f64, dt: f64, duty: f64) -> f64
    requires { T (within zero64 one u) }
    ensures { result ≡ pulse_of u dt duty }
{
    if !is_wide(duty) {
        return polyblep::pulse(u, dt, duty);
    }
    let rise = blep(u, dt);
    let fall = blep(fract(u - duty + 1.0), dt);
    polyblep::naive_pulse(u, duty) + rise - fall
}

fn triangle(u: f64, dt: f64) -> f64
    requires { T (within zero64 one u) }
    ensures { result ≡ triangle_of u dt }
{
    let low = blamp(u, dt);
    let high = blamp(fract(u + 0.5), dt);
    polyblep::naive_triangle(u) + 8.0 * low - 8.0 * high
}

fn rounded(u: f64, dt: f64) -> f64
    requires { T (within zero64 one u) }
    ensures { result ≡ rounded_of u dt }
{
    let low = rounded_blamp(u, dt);
    let high = rounded_blamp(fract(u + 0.5), dt);
    polyblep::naive_triangle(u) + 4.0 * low - 4.0 * high
}

// The formulas of both sides of the edge are worked out, and one is selected.
fn blep(t: f64, dt: f64) -> f64
    ensures { result ≡ blep_of t dt }
{
    let x = select(t < dt, t, t - 1.0) / dt;
    let before = select(1.0 - dt < t, x * x + 2.0 * x + 1.0, 0.0);
    select(t < dt, 2.0 * x - x * x - 1.0, before)
}

fn blamp(t: f64, dt: f64) -> f64
    ensures { result ≡ blamp_of t dt }
{
    select(is_near(t, dt), knee(t, dt) * dt, 0.0)
}

fn rounded_blamp(t: f64, dt: f64) -> f64
    ensures { result ≡ rounded_blamp_of t dt }
{
    select(is_near(t, dt), (knee(t, dt) + polyblep::THIRD) * dt, 0.0)
}

// Whether t is less than a sample away from the corner at phase 0, which is also the corner at phase 1.
fn is_near(t: f64, dt: f64) -> bool
    ensures { result ≡ is_near t dt }
{
    (t < dt) | (1.0 - dt < t)
}

// The bracket of the corner's correction, on the side where t lies; it is not used where t is not near.
fn knee(t: f64, dt: f64) -> f64
    ensures { result ≡ knee_of t dt }
{
    let x = select(t < dt, t, t - 1.0) / dt;
    let after = polyblep::knee_after(x);
    let before = polyblep::knee_before(x);
    select(t < dt, after, before)
}

fn fract(x: f64) -> f64
    requires { (lt zero64 x && lt x two) ≡ true }
    ensures { result ≡ fract_of x }
{
    x - select(x < 1.0, 0.0, 1.0)
}

fn select(test: bool, a: f64, b: f64) -> f64
    ensures { result ≡ cond test a b }
{
    if test { a } else { b }
}
