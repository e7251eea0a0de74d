// envelope.rs of the original: an ADSR level in f64, one step a sample. State goes in by value and is handed back.
// What changes from sample to sample, `Envelope`, is a struct apart from the settings, `Adsr`, so that a render keeps
// it alone in its state. Left out, as 01 says: `Block`, parameter names and modulation; and `prepare`.
#![tactic(auto)]

ghost use Rattle.std.specs.Prelude.{◌≡◌, length};
ghost use Rattle.envelope.specs.Limits.{is_adsr, is_envelope, clamped_of, sample_time_of};
ghost use Rattle.envelope.specs.Stages.{with_stage, step_of, fresh_of, triggered_of, released_of};
ghost use Rattle.envelope.specs.Inner.{level_of, ends_at, next_in, ended_in};
ghost use Rattle.envelope.specs.Running.{Filled};
ghost use Rattle.answers.specs.Outcome.{leaves};
ghost use Rattle.answers.specs.Value.{value_or};
ghost use Rattle.envelope.specs.Calls.{refusals_of, changed_of, new_of, note_on_of, note_off_of, reset_of, process_of};

use answers::{Answer, Refusal};

pub mod levels;

// A release ends at or below this level.
const RELEASE_FLOOR: f64 = 0.000001;

#[derive(Clone, Copy)]
pub enum EnvelopeStage {
    Idle,
    Attack,
    Decay,
    Sustain,
    Release,
}

// The level of the last sample, the time in the stage at the next sample in seconds (in Idle and Sustain it does not
// grow), and the level from which the last release started.
#[derive(Clone, Copy)]
pub struct Envelope {
    pub stage: EnvelopeStage,
    pub level: f64,
    pub stage_time: f64,
    pub release_level: f64,
}

// The settings: three times in seconds, and the level of Sustain.
#[derive(Clone, Copy)]
pub struct Adsr {
    pub attack: f64,
    pub decay: f64,
    pub sustain: f64,
    pub release: f64,
}

#[derive(Clone, Copy)]
pub struct EnvelopeBlock {
    pub adsr: Adsr,
    pub envelope: Envelope,
}

// What a call answers, and the block after it.
#[derive(Clone, Copy)]
pub struct Processed {
    pub answer: Answer,
    pub block: EnvelopeBlock,
}

impl EnvelopeBlock {
    // Idle, with the settings as they are given: `process` judges and clamps them.
    pub fn new(attack: f64, decay: f64, sustain: f64, release: f64) -> EnvelopeBlock
        ensures { result ≡ new_of attack decay sustain release }
    {
        EnvelopeBlock {
            adsr: Adsr {
                attack,
                decay,
                sustain,
                release,
            },
            envelope: fresh(),
        }
    }

    pub fn note_on(self) -> Processed
        ensures { result ≡ note_on_of self }
    {
        changed(self, triggered(self.envelope))
    }

    pub fn note_off(self) -> Processed
        ensures { result ≡ note_off_of self }
    {
        changed(self, released(self.envelope))
    }

    // Idle again; the settings are kept.
    pub fn reset(self) -> Processed
        ensures { result ≡ reset_of self }
    {
        changed(self, fresh())
    }

    // The level of each sample goes into out, one step an element; a refused call writes nothing.
    pub fn process(self, rate: u32, out: &mut [f64]) -> Processed
        ensures { leaves result out.new ≡ process_of self rate out.old }
    {
        let answer = judged(self, rate, out.len());
        let mut block = self;
        if answer.is_ok() {
            block.envelope = fill(clamped(self.adsr), sample_time(rate), self.envelope, out);
        }
        Processed { answer, block }
    }
}

// Idle, both levels and the time 0.
pub fn fresh() -> Envelope
    ensures { result ≡ fresh_of }
{
    Envelope {
        stage: EnvelopeStage::Idle,
        level: 0.0,
        stage_time: 0.0,
        release_level: 0.0,
    }
}

// A note starts: the attack starts at time 0, and so at level 0, whatever the level was.
pub fn triggered(e: Envelope) -> Envelope
    ensures { result ≡ triggered_of e }
{
    with_stage(e, EnvelopeStage::Attack, e.level, 0.0)
}

// A note ends: in Idle nothing changes, else the release starts from the present level.
pub fn released(e: Envelope) -> Envelope
    ensures { result ≡ released_of e }
{
    if matches!(e.stage, EnvelopeStage::Idle) {
        return e;
    }
    Envelope {
        stage: EnvelopeStage::Release,
        stage_time: 0.0,
        release_level: e.level,
        ..e
    }
}

// Whether settings are accepted: none is a NaN.
pub fn is_adsr(adsr: Adsr) -> bool
    ensures { result ≡ is_adsr adsr }
{
    !adsr.attack.is_nan() & !adsr.decay.is_nan() & !adsr.sustain.is_nan() & !adsr.release.is_nan()
}

// Whether an envelope is within the shelf's limits.
pub fn is_envelope(e: Envelope) -> bool
    ensures { result ≡ is_envelope e }
{
    floats::is_within(0.0, 1.0, e.level)
        & floats::is_within(0.0, 1.0, e.release_level)
        & floats::is_within(0.0, 11.0, e.stage_time)
}

// Times between 0.001 and 10 s, sustain between 0 and 1. `clamp` keeps a number between the bounds, -0 at a bound of 0
// too, and a NaN.
pub fn clamped(adsr: Adsr) -> Adsr
    ensures { result ≡ clamped_of adsr }
{
    Adsr {
        attack: adsr.attack.clamp(0.001, 10.0),
        decay: adsr.decay.clamp(0.001, 10.0),
        sustain: adsr.sustain.clamp(0.0, 1.0),
        release: adsr.release.clamp(0.001, 10.0),
    }
}

// The seconds of one sample.
pub fn sample_time(rate: u32) -> f64
    ensures { result ≡ sample_time_of rate }
{
    1.0 / (rate as f64)
}

// One sample, under clamped settings: its level is that of the envelope after it.
pub fn step(adsr: Adsr, sample_time: f64, e: Envelope) -> Envelope
    ensures { result ≡ step_of adsr sample_time e }
{
    let next = next_in(e.stage, adsr, sample_time, e);
    if ends_at(e.stage, adsr, next.level) {
        ended_in(e.stage, adsr, sample_time, e)
    } else {
        next
    }
}

// The envelope after one sample that does not end the stage: the time grows by one sample.
fn next_in(stage: EnvelopeStage, adsr: Adsr, sample_time: f64, e: Envelope) -> Envelope
    ensures { result ≡ next_in stage adsr sample_time e }
{
    Envelope {
        stage,
        level: level_in(stage, adsr, e),
        stage_time: e.stage_time + sample_time,
        ..e
    }
}

// The level in a stage, before the test for its end: from 0 to 1, 1 to the sustain level, the release level to 0.
fn level_in(stage: EnvelopeStage, adsr: Adsr, e: Envelope) -> f64
    ensures { result ≡ level_of stage adsr e }
{
    match stage {
        EnvelopeStage::Idle => 0.0,
        EnvelopeStage::Attack => e.stage_time / adsr.attack,
        EnvelopeStage::Decay => 1.0 - (1.0 - adsr.sustain) * (e.stage_time / adsr.decay),
        EnvelopeStage::Sustain => adsr.sustain,
        EnvelopeStage::Release => e.release_level * (1.0 - e.stage_time / adsr.release),
    }
}

// Whether a sample of this level ends its stage. For Idle and Sustain true: `ended_in` decides both whole.
fn ends_at(stage: EnvelopeStage, adsr: Adsr, level: f64) -> bool
    ensures { result ≡ ends_at stage adsr level }
{
    match stage {
        EnvelopeStage::Idle => true,
        EnvelopeStage::Attack => level >= 1.0,
        EnvelopeStage::Decay => level <= adsr.sustain,
        EnvelopeStage::Sustain => true,
        EnvelopeStage::Release => level <= RELEASE_FLOOR,
    }
}

// After a sample that ends its stage or is in Idle or Sustain. The sample of the peak is the first of the decay's time.
fn ended_in(stage: EnvelopeStage, adsr: Adsr, sample_time: f64, e: Envelope) -> Envelope
    ensures { result ≡ ended_in stage adsr sample_time e }
{
    match stage {
        EnvelopeStage::Idle => with_stage(e, EnvelopeStage::Idle, 0.0, e.stage_time),
        EnvelopeStage::Attack => with_stage(e, EnvelopeStage::Decay, 1.0, 0.0 + sample_time),
        EnvelopeStage::Decay => with_stage(e, EnvelopeStage::Sustain, adsr.sustain, 0.0),
        EnvelopeStage::Sustain => with_stage(e, EnvelopeStage::Sustain, adsr.sustain, e.stage_time),
        EnvelopeStage::Release => with_stage(e, EnvelopeStage::Idle, 0.0, 0.0),
    }
}

// Stage, level and time change, and the release level is kept.
fn with_stage(e: Envelope, stage: EnvelopeStage, level: f64, stage_time: f64) -> Envelope
    ensures { result ≡ with_stage e stage level stage_time }
{
    Envelope {
        stage,
        level,
        stage_time,
        ..e
    }
}

// One step for each element of out; returns the envelope after the last.
fn fill(adsr: Adsr, sample_time: f64, e: Envelope, out: &mut [f64]) -> Envelope
    ensures { Filled adsr sample_time e (length out.old) out.new result }
{
    let mut after = e;
    for x in out.iter_mut() {
        after = step(adsr, sample_time, after);
        *x = after.level;
    }
    after
}

// 6 before 9, or done with the count.
fn judged(block: EnvelopeBlock, rate: u32, count: usize) -> Answer
    ensures { result ≡ value_or (refusals_of block rate) count }
{
    let usable = is_adsr(block.adsr) & domain::is_rate(rate);
    answers::value_if(usable, Refusal::Setting, ())?;
    answers::value_if(is_envelope(block.envelope), Refusal::Argument, count)
}

// Done with the envelope after the call, or refused with the block as it came.
fn changed(before: EnvelopeBlock, after: Envelope) -> Processed
    ensures { result ≡ changed_of before after }
{
    if is_envelope(before.envelope) {
        Processed {
            answer: Ok(0),
            block: EnvelopeBlock {
                envelope: after,
                ..before
            },
        }
    } else {
        Processed {
            answer: Err(Refusal::Argument),
            block: before,
        }
    }
}
