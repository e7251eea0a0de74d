// Low notes: many samples a cycle. Between two corrections a waveform is a straight line over the fraction of a cycle.
// The samples on such a line, a segment, are made without corrections; the two after them are made by
// `waveform::wave_at`. How far a segment reaches is guessed, and the two ends of the guess are tested: a wrong guess
// costs time, never a bit. Only phases above 0 and below 2 TAU have segments.
#![tactic(auto)]

ghost use Rattle.std.specs.Prelude.{◌≡◌, true, ◌&&◌, ◌≤◌, ◌<◌, T, length, Float, IfSome};
ghost use Rattle.std.specs.Float.{binary64};
ghost use Rattle.std.specs.Float.Ieee.{lt, le, fits};
ghost use Rattle.std.specs.Float.Ieee.Scale.{finite};
ghost use Rattle.polyblep.specs.declared.Side.TheVariants.{Away};
ghost use Rattle.polyblep.specs.Polyblep.{side_of, fract_of, saw_of, pulse_of};
ghost use Rattle.waveform.specs.Waveform.{value_of, normal_of, radians};
ghost use Rattle.waveform.specs.Filled.{Filled};
ghost use Rattle.low_notes.specs.Inner.{line_of, fraction_of, base_of, is_one_cycle, is_clear, is_rising, is_in_segment, Straight, TwoLines, segment_of, Guessed, TwoSides, FillsSegment, FillsWaveform};

use waveform::{Radians, TAU, TWO_TAU, Waveform, in_cycles, wave_at};

// Constant 1 or -1 (square and pulse), a sawtooth's climb, and the two slopes of a triangle, rounded or not.
#[derive(Clone, Copy)]
enum Line {
    High,
    Low,
    Climb,
    Rise,
    Fall,
}

// The phases from `from` up to, not including, `to`, on which a waveform is one line; their cycle begins at `base`.
#[derive(Clone, Copy)]
struct Segment {
    from: Radians,
    to: Radians,
    base: Radians,
    line: Line,
}

// A segment before its line is known: its two ends, also as fractions of the cycle. They lie in one cycle, and at least
// dt from where that cycle begins and ends.
#[derive(Clone, Copy)]
struct Guess {
    from: Radians,
    to: Radians,
    base: Radians,
    fraction: f64,
    end_fraction: f64,
}

// How many samples are written, and the phase after them.
#[derive(Clone, Copy)]
struct Progress {
    phase: Radians,
    count: usize,
}

// What every sample of a block is made with: the waveform, how far the phase moves in a sample, and the value's factor.
#[derive(Clone, Copy)]
struct Tone {
    waveform: Waveform,
    step: Radians,
    scale: f64,
}

// A block of any waveform at any step. For a sine and for a high note, `filling::fill` has faster ways.
pub fn fill(
    out: &mut [f64],
    waveform: Waveform,
    start: Radians,
    step: Radians,
    scale: f64,
) -> Radians
    ensures { Filled waveform start.0 step.0 scale out.old out.new result }
{
    let tone = Tone {
        waveform,
        step,
        scale,
    };
    let mut at = Progress {
        phase: start,
        count: 0,
    };
    while at.count < out.len() {
        let line = tone.fill_next_segment(at, out);
        let before = tone.fill_sample(line, out);
        at = tone.fill_sample(before, out);
    }
    at.phase
}

impl Tone {
    // One sample with its corrections, where the part has room for it. An edge corrects two samples, so that two are
    // made so after a segment.
    fn fill_sample(self, at: Progress, out: &mut [f64]) -> Progress
        ensures { (at.count < length out.old → at.count < result.count) × (at.count ≤ result.count) × FillsWaveform self.waveform self.step.0 self.scale out.old at out.new result }
    {
        let Progress { phase, count } = at;
        if out.len() <= count {
            return at;
        }
        out[count] = wave_at(self.waveform, phase, self.step) * self.scale;
        Progress {
            phase: Radians(phase.0 + self.step.0),
            count: count + 1,
        }
    }

    // The samples of the segment that begins at the phase of `at`; none where there is no segment, as from 2 TAU on.
    fn fill_next_segment(self, at: Progress, out: &mut [f64]) -> Progress
        ensures { (at.count ≤ result.count) × FillsWaveform self.waveform self.step.0 self.scale out.old at out.new result }
    {
        if TWO_TAU <= at.phase.0 {
            return at;
        }
        let Some(segment) = segment_from(self.waveform, at.phase, in_cycles(self.step)) else {
            return at;
        };
        self.fill_segment(segment, at, out)
    }

    // The samples of a segment, up to its end or the end of `out`.
    fn fill_segment(self, segment: Segment, at: Progress, out: &mut [f64]) -> Progress
        ensures { (at.count ≤ result.count) × FillsSegment segment self.step.0 self.scale out.old at out.new result }
    {
        if segment.is_rising(self.step) {
            let fours = self.fill_by_fours(segment, at, out);
            return self.fill_one_by_one(segment, fours, out);
        }
        self.fill_one_by_one(segment, at, out)
    }

    // Four samples a turn, as long as all four lie in the segment.
    fn fill_by_fours(self, segment: Segment, from: Progress, out: &mut [f64]) -> Progress
        requires { is_rising segment self.step.0 ≡ true }
        ensures { (from.count ≤ result.count) × FillsSegment segment self.step.0 self.scale out.old from out.new result }
    {
        let to = segment.to.0;
        let by = self.step.0;
        let mut at = from;
        while at.count < out.len() && 4 <= out.len() - at.count {
            let first = at.phase.0;
            let second = first + by;
            let third = second + by;
            let fourth = third + by;
            let lie_below = (second < to) & (third < to) & (fourth < to);
            if !(segment.holds(first) & lie_below) {
                return at;
            }
            let i = at.count;
            out[i] = segment.value_at(first) * self.scale;
            out[i + 1] = segment.value_at(second) * self.scale;
            out[i + 2] = segment.value_at(third) * self.scale;
            out[i + 3] = segment.value_at(fourth) * self.scale;
            at = Progress {
                phase: Radians(fourth + by),
                count: i + 4,
            };
        }
        at
    }

    // One sample a turn, as long as it lies in the segment.
    fn fill_one_by_one(self, segment: Segment, from: Progress, out: &mut [f64]) -> Progress
        ensures { (from.count ≤ result.count) × FillsSegment segment self.step.0 self.scale out.old from out.new result }
    {
        let mut at = from;
        while at.count < out.len() && segment.holds(at.phase.0) {
            out[at.count] = segment.value_at(at.phase.0) * self.scale;
            at = Progress {
                phase: Radians(at.phase.0 + self.step.0),
                count: at.count + 1,
            };
        }
        at
    }
}

impl Segment {
    // Whether a step never lowers a phase of the segment: the next phase then needs no test against `from`.
    fn is_rising(self, step: Radians) -> bool
        ensures { result ≡ is_rising self step.0 }
    {
        (0.0 <= self.from.0) & (self.to.0 <= TWO_TAU) & floats::is_within(0.0, TAU, step.0)
    }

    // Whether from <= angle < to; the angle is in radians.
    fn holds(self, angle: f64) -> bool
        ensures { result ≡ is_in_segment self angle }
    {
        (self.from.0 <= angle) & (angle < self.to.0)
    }

    // The value on the segment's line, at a phase of its cycle; the angle is in radians.
    fn value_at(self, angle: f64) -> f64
        ensures { result ≡ line_of self.line (fraction_of self.base.0 angle) }
    {
        self.line.value_at(fraction_of(self.base, Radians(angle)))
    }
}

impl Line {
    // The value on a line at the fraction t of the cycle. The zeros are the corrections, which are +0 on a line: the
    // operations are those of `polyblep`, so the bits are the same.
    fn value_at(self, t: f64) -> f64
        ensures { result ≡ line_of self t }
    {
        match self {
            Line::High => polyblep::HIGH,
            Line::Low => polyblep::LOW,
            Line::Climb => polyblep::naive_saw(t) - 0.0,
            Line::Rise => polyblep::rise(t) + 0.0 - 0.0,
            Line::Fall => polyblep::fall(t) + 0.0 - 0.0,
        }
    }
}

// The phase as a fraction of the cycle that begins at `base`.
fn fraction_of(base: Radians, phase: Radians) -> f64
    ensures { result ≡ fraction_of base.0 phase.0 }
{
    in_cycles(Radians(phase.0 - base.0))
}

// The segment from a phase up to the next correction, with its line; none for a sine or a failed guess.
fn segment_from(waveform: Waveform, phase: Radians, dt: f64) -> Option<Segment>
    ensures { IfSome result (Straight (λ (q : Float). value_of waveform (normal_of q) dt)) }
{
    match waveform {
        Waveform::Sine => None,
        Waveform::Square => up_to_half(phase, dt, Line::High, Line::Low),
        Waveform::Sawtooth => up_to_end(phase, dt),
        Waveform::Triangle => up_to_half(phase, dt, Line::Rise, Line::Fall),
        Waveform::Pulse(duty) => up_to_duty(phase, dt, duty),
        Waveform::RoundedTriangle => up_to_half(phase, dt, Line::Rise, Line::Fall),
    }
}

// A sawtooth is corrected only at the ends of its cycle.
fn up_to_end(phase: Radians, dt: f64) -> Option<Segment>
    ensures { IfSome result (Straight (λ (q : Float). saw_of (normal_of q) dt)) }
{
    let guess = guess_from(phase, 1.0, dt)?;
    Some(guess.on(Line::Climb))
}

// Square and triangles have a second edge at the fraction 0.5: one line before the edge, another behind it.
fn up_to_half(phase: Radians, dt: f64, before: Line, behind: Line) -> Option<Segment>
    ensures { (value : Float → Float) → TwoLines value dt before behind → IfSome result (Straight (λ (q : Float). value (normal_of q))) }
{
    let guess = guess_from(phase, 0.5, dt)?;
    if !is_clear_of_edge(guess.fraction + 0.5, guess.end_fraction + 0.5, dt) {
        return None;
    }
    guess.on_a_side(0.5, before, behind)
}

// A pulse has its second edge at the fraction `duty`.
fn up_to_duty(phase: Radians, dt: f64, duty: f64) -> Option<Segment>
    ensures { IfSome result (Straight (λ (q : Float). pulse_of (normal_of q) dt duty)) }
{
    let guess = guess_from(phase, duty, dt)?;
    let low = guess.fraction - duty + 1.0;
    let high = guess.end_fraction - duty + 1.0;
    if !(domain::is_duty(duty) & is_clear_of_edge(low, high, dt)) {
        return None;
    }
    guess.on_a_side(duty, Line::High, Line::Low)
}

impl Guess {
    // The guess as a segment, if it lies on one side of a second edge.
    fn on_a_side(self, edge: f64, before: Line, behind: Line) -> Option<Segment>
        ensures { (dt : Float) (value : Float → Float) → Guessed dt self → T (finite edge) → TwoSides value dt self edge before behind → IfSome result (Straight (λ (q : Float). value (normal_of q))) }
    {
        if self.end_fraction < edge {
            return Some(self.on(before));
        }
        if edge <= self.fraction {
            return Some(self.on(behind));
        }
        None
    }

    // The guess as a segment of a line.
    fn on(self, line: Line) -> Segment
        ensures { result ≡ segment_of self line }
    {
        let Guess { from, to, base, .. } = self;
        Segment {
            from,
            to,
            base,
            line,
        }
    }
}

// A guess of the segment from a phase up to the next edge, which is at `edge` or at the end of the cycle; none where
// the ends do not pass the tests.
fn guess_from(phase: Radians, edge: f64, dt: f64) -> Option<Guess>
    ensures { IfSome result (Guessed dt) }
{
    let first = phase.0 < TAU;
    let base = base_of(first);
    let fraction = fraction_of(base, phase);
    let to = segment_end(base, fraction, edge, dt);
    let end_fraction = fraction_of(base, to);
    if !(is_one_cycle(first, phase, to) & is_clear_of_ends(fraction, end_fraction, dt)) {
        return None;
    }
    Some(Guess {
        from: phase,
        to,
        base,
        fraction,
        end_fraction,
    })
}

// The phase at which the first or the second cycle begins; later cycles have no segments.
fn base_of(first: bool) -> Radians
    ensures { result ≡ radians (base_of first) }
{
    if first { Radians(0.0) } else { Radians(TAU) }
}

// The next edge less dt, where its correction begins, less dt / 1,024 for the rounding; `guess_from` tests this end.
fn segment_end(base: Radians, fraction: f64, edge: f64, dt: f64) -> Radians {
    let next = if fraction < edge { edge } else { 1.0 };
    Radians(base.0 + (next - dt * 1.0009765625) * TAU)
}

// Whether the phases from `from` up to, not including, `to` lie in that cycle. Phase 0 is left out: an edge is there.
fn is_one_cycle(first: bool, from: Radians, to: Radians) -> bool
    ensures { result ≡ is_one_cycle first from.0 to.0 }
{
    if first {
        (0.0 < from.0) & (to.0 <= TAU)
    } else {
        (TAU <= from.0) & (to.0 <= TWO_TAU)
    }
}

// Whether dt is 0 to 1 and the fractions from `fraction` to `end_fraction` are at least dt from both ends of the cycle.
fn is_clear_of_ends(fraction: f64, end_fraction: f64, dt: f64) -> bool
    ensures { result ≡ is_clear fraction end_fraction dt }
{
    floats::is_within(0.0, 1.0, dt) & (dt <= fraction) & (end_fraction <= 1.0 - dt)
}

// True only if fract(x) is at least dt from 0 and from 1 for every x from `low` to `high`. Testing these two suffices:
// both lie above 0 and below 1, or both from 1 up to 2, and rounded subtraction is monotone.
fn is_clear_of_edge(low: f64, high: f64, dt: f64) -> bool
    ensures { result ≡ true → (x : Float) → T (fits binary64 x) → T (le low x) → T (le x high) → side_of (fract_of x) dt ≡ Away }
{
    let far = 1.0 - dt;
    let below_one = (0.0 < low) & (high < 1.0) & (dt <= low) & (high <= far);
    let from_one = (1.0 <= low) & (high < 2.0) & (dt <= low - 1.0) & (high - 1.0 <= far);
    below_one | from_one
}
