// The envelope over a lent part: each value that the waveform's inner loop wrote, times the level times a velocity, in
// place. A stage runs up to the sample that ends it, so that the inner loops test no stage.
ghost use Rattle.std.specs.Prelude.{◌≡◌, ◌+◌, ◌≤◌, length, map};
ghost use Rattle.envelope.specs.Scaled.{Scaled};
ghost use Rattle.envelope.specs.Inner.{scaled_by, scaled_two, Advances};

use crate::{Adsr, Envelope, EnvelopeStage, ends_at, next_in, step};

// What stays as it is over a part: clamped settings, the time of a sample, and the velocity.
#[derive(Clone, Copy)]
struct Scaling {
    adsr: Adsr,
    sample_time: f64,
    velocity: f64,
}

// How many values of a part are scaled, and the envelope after them.
#[derive(Clone, Copy)]
struct Progress {
    envelope: Envelope,
    count: usize,
}

// Each value of a part times the level times the velocity, under clamped settings, and the envelope after the last
// value. Each turn takes the samples of one stage and then the sample that ends the stage; Idle and Sustain last to the
// end of the part.
pub fn scale(
    adsr: Adsr,
    sample_time: f64,
    start: Envelope,
    velocity: f64,
    part: &mut [f64],
) -> Envelope
    ensures { Scaled adsr sample_time start velocity part.old part.new result }
{
    let scaling = Scaling {
        adsr,
        sample_time,
        velocity,
    };
    let mut envelope = start;
    let mut i = 0;
    while i < part.len() {
        if matches!(envelope.stage, EnvelopeStage::Idle | EnvelopeStage::Sustain) {
            let held = step(adsr, sample_time, envelope);
            scale_all(held.level, velocity, &mut part[i..]);
            return held;
        }
        let reach = scaling.stage(Progress { envelope, count: i }, part);
        i = reach.count;
        if part.len() <= i {
            return reach.envelope;
        }
        envelope = step(adsr, sample_time, reach.envelope);
        part[i] = part[i] * envelope.level * velocity;
        i += 1;
    }
    envelope
}

impl Scaling {
    // The samples of the present stage before the sample that ends it.
    fn stage(self, at: Progress, part: &mut [f64]) -> Progress
        requires { at.count ≤ length part.old }
        ensures { Advances self part.old at part.new result }
    {
        let fours = self.fours(at, part);
        self.singly(fours, part)
    }

    // Four samples at a time, as long as none of them ends the stage.
    fn fours(self, at: Progress, part: &mut [f64]) -> Progress
        requires { at.count ≤ length part.old }
        ensures { Advances self part.old at part.new result }
    {
        let stage = at.envelope.stage;
        let mut envelope = at.envelope;
        let mut i = at.count;
        while 4 <= part.len() - i {
            let first = next_in(stage, self.adsr, self.sample_time, envelope);
            let second = next_in(stage, self.adsr, self.sample_time, first);
            let third = next_in(stage, self.adsr, self.sample_time, second);
            let fourth = next_in(stage, self.adsr, self.sample_time, third);
            let soon = ends_at(stage, self.adsr, first.level)
                | ends_at(stage, self.adsr, second.level);
            let late = ends_at(stage, self.adsr, third.level)
                | ends_at(stage, self.adsr, fourth.level);
            if soon | late {
                break;
            }
            scale_two(first.level, second.level, self.velocity, i, part);
            scale_two(third.level, fourth.level, self.velocity, i + 2, part);
            envelope = fourth;
            i += 4;
        }
        Progress { envelope, count: i }
    }

    // One sample at a time, up to the sample that ends the stage or the end of the part.
    fn singly(self, at: Progress, part: &mut [f64]) -> Progress
        requires { at.count ≤ length part.old }
        ensures { Advances self part.old at part.new result }
    {
        let stage = at.envelope.stage;
        let mut envelope = at.envelope;
        for i in at.count..part.len() {
            let next = next_in(stage, self.adsr, self.sample_time, envelope);
            if ends_at(stage, self.adsr, next.level) {
                return Progress { envelope, count: i };
            }
            part[i] = part[i] * next.level * self.velocity;
            envelope = next;
        }
        Progress {
            envelope,
            count: part.len(),
        }
    }
}

// Values i and i + 1, each times its level times the velocity.
fn scale_two(first: f64, second: f64, velocity: f64, i: usize, part: &mut [f64])
    requires { i + 2 ≤ length part.old }
    ensures { part.new ≡ scaled_two velocity part.old i first second }
{
    part[i] = part[i] * first * velocity;
    part[i + 1] = part[i + 1] * second * velocity;
}

// All values times one level times the velocity: no branch in the loop.
fn scale_all(level: f64, velocity: f64, values: &mut [f64])
    ensures { values.new ≡ map (scaled_by level velocity) values.old }
{
    for x in values.iter_mut() {
        *x = *x * level * velocity;
    }
}
