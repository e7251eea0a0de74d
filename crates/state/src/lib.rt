// The voice's state, and the four steps that make a sample (01, "Making sample n"): reduce the phases, let records act,
// take the sample, advance. A render, a continuing call and a re-render are these steps, counted from sample zero.
// specs/Heart.antt defines which record acts when; the crates above do it.
#![tactic(auto, unfolding(crate::specs::State::act_of, crate::specs::State::dry_of, crate::specs::State::sample_of, crate::specs::State::advance_of, crate::specs::Limits::in_limits, crate::specs::Limits::is_state))]

ghost use Rattle.std.specs.Prelude.{◌≡◌};
ghost use Rattle.voice.specs.Keys.{lifted_of};
ghost use Rattle.state.specs.Limits.{in_limits, is_state};
ghost use Rattle.state.specs.Settings.{settings_ok};
ghost use Rattle.state.specs.State.{fresh_of, with_note, acted_with, reduced_of, event_of, act_of, triggers, struck_of, after_note_off, next_envelope_of, dry_of, sample_of, advance_of};

use envelope::{Adsr, Envelope};
use score::{Kind, Record};
use tremolo::Lfo;
use voice::keys;
use voice::keys::{Keys, NoteOff};
use waveform::{Radians, Waveform};

// Whether every key that goes down triggers the envelope, or only one that goes down while no note sounds (02, R-9).
#[derive(Clone, Copy)]
pub enum Keying {
    Struck,
    Joined,
}

// What does not change during a render: the rate in Hz, the choice of waveform, the envelope's settings, the LFO's, and
// whether notes are struck or joined.
#[derive(Clone, Copy)]
pub struct Settings {
    pub rate: u32,
    pub waveform: Waveform,
    pub adsr: Adsr,
    pub lfo: Lfo,
    pub keying: Keying,
}

// What changes from sample to sample: the oscillator's phase, the envelope, the voice's frequency in Hz and velocity
// from 0 to 1, the held keys, how many records of the score have acted, and the LFO's phase.
#[derive(Clone, Copy)]
pub struct State {
    pub phase: Radians,
    pub envelope: Envelope,
    pub frequency: f64,
    pub velocity: f64,
    pub keys: Keys,
    pub acted: u64,
    pub lfo: Radians,
}

// What a record does: it strikes a key (note, velocity), lifts a key (note), or sets all that sounds to its fresh
// state. Whether a strike triggers the envelope depends on the setting and the note that sounds, and whether a lift
// releases it on the held keys.
#[derive(Clone, Copy)]
pub enum Event {
    Strike(u8, u8),
    Lift(u8),
    Reset,
}

// Whether a render accepts these settings.
pub fn is_settings(settings: Settings) -> bool
    ensures { result ≡ settings_ok settings }
{
    domain::is_rate(settings.rate)
        & waveform::is_waveform(settings.waveform)
        & envelope::is_adsr(settings.adsr)
        & tremolo::is_lfo(settings.lfo)
}

// Whether a state is within the limits of a shelf entry.
pub fn is_state(state: State) -> bool
    ensures { result ≡ is_state state }
{
    in_limits(state) & (state.acted <= 0xffff_ffff_ffff)
}

// The state before sample zero.
pub fn fresh() -> State
    ensures { result ≡ fresh_of 0 }
{
    fresh_after(0)
}

// Both phases modulo TAU, each with its sign. No phase of a render is negative, so that none gets TAU added (02, R-13).
pub fn reduce(state: State) -> State
    ensures { result ≡ reduced_of state }
{
    State {
        phase: waveform::remainder(state.phase),
        lfo: waveform::remainder(state.lfo),
        ..state
    }
}

// An on strikes the key of its note, but with velocity 0 it lifts that key, as an off does (02, R-4); a reset resets.
pub fn event_of(given: Record) -> Event
    ensures { result ≡ event_of given }
{
    match given.kind {
        Kind::On if given.velocity == 0 => Event::Lift(given.note),
        Kind::On => Event::Strike(given.note, given.velocity),
        Kind::Off => Event::Lift(given.note),
        Kind::Reset => Event::Reset,
    }
}

// A record acts, and is counted.
pub fn act(settings: Settings, state: State, event: Event) -> State
    ensures { result ≡ act_of settings state event }
{
    match event {
        Event::Strike(note, velocity) => strike(settings, state, note, velocity),
        Event::Lift(note) => lift(state, note),
        Event::Reset => fresh_after(state.acted.saturating_add(1)),
    }
}

// The sample: the oscillator's value, times the envelope's level, times the velocity, times the tremolo's factor.
pub fn sample_of(settings: Settings, state: State) -> f64
    ensures { result ≡ sample_of settings state }
{
    let step = waveform::increment(settings.lfo.frequency, settings.rate);
    dry(settings, state) * tremolo::factor(settings.lfo, step, state.lfo)
}

// The sample without tremolo.
fn dry(settings: Settings, state: State) -> f64
    ensures { result ≡ dry_of settings state }
{
    let step = waveform::increment(state.frequency, settings.rate);
    let value = waveform::wave_at(settings.waveform, state.phase, step);
    value * next_envelope(settings, state).level * state.velocity
}

// Oscillator, envelope and LFO advance by one sample.
pub fn advance(settings: Settings, state: State) -> State
    ensures { result ≡ advance_of settings state }
{
    let step = waveform::increment(state.frequency, settings.rate);
    let lfo_step = waveform::increment(settings.lfo.frequency, settings.rate);
    State {
        phase: Radians(state.phase.0 + step.0),
        envelope: next_envelope(settings, state),
        lfo: Radians(state.lfo.0 + lfo_step.0),
        ..state
    }
}

// Whether all fields but the number of records acted are within their limits.
fn in_limits(state: State) -> bool
    ensures { result ≡ in_limits state }
{
    domain::is_radians(state.phase.0)
        & envelope::is_envelope(state.envelope)
        & ((0.0 < state.frequency) & (state.frequency <= 12544.0))
        & floats::is_within(0.0, 1.0, state.velocity)
        & keys::is_keys(state.keys)
        & domain::is_radians(state.lfo.0)
}

fn fresh_after(acted: u64) -> State
    ensures { result ≡ fresh_of acted }
{
    State {
        phase: Radians(0.0),
        envelope: envelope::fresh(),
        frequency: 440.0,
        velocity: 0.0,
        keys: keys::fresh_keys(),
        acted,
        lfo: Radians(0.0),
    }
}

fn strike(settings: Settings, state: State, note: u8, velocity: u8) -> State
    ensures { result ≡ struck_of settings state note velocity }
{
    let keys = keys::pressed(state.keys, note, velocity);
    let next = with_note(acted_with(state, keys), note, velocity);
    if triggers(settings, state) {
        let envelope = envelope::triggered(state.envelope);
        return State { envelope, ..next };
    }
    next
}

// Whether a key that goes down now triggers the envelope: joined to a note that sounds, it does not.
fn triggers(settings: Settings, state: State) -> bool
    ensures { result ≡ triggers settings state }
{
    match settings.keying {
        Keying::Struck => true,
        Keying::Joined => !voice::is_note(state.keys),
    }
}

fn lift(state: State, note: u8) -> State
    ensures { result ≡ after_note_off state (lifted_of state.keys note).keys (lifted_of state.keys note).off }
{
    let after = keys::lifted(state.keys, note);
    let next = acted_with(state, after.keys);
    match after.off {
        NoteOff::Released => State {
            envelope: envelope::released(state.envelope),
            ..next
        },
        NoteOff::FellBack(note, velocity) => with_note(next, note, velocity),
        NoteOff::NoChange => next,
    }
}

// The note sounds, with this velocity.
fn with_note(state: State, note: u8, velocity: u8) -> State
    ensures { result ≡ with_note state note velocity }
{
    State {
        frequency: pitch::frequency_of_f64(note),
        velocity: voice::velocity_of_f64(velocity),
        ..state
    }
}

// These keys are held, and one more record has acted.
fn acted_with(state: State, keys: Keys) -> State
    ensures { result ≡ acted_with state keys }
{
    State {
        keys,
        acted: state.acted.saturating_add(1),
        ..state
    }
}

// The envelope after the next sample.
fn next_envelope(settings: Settings, state: State) -> Envelope
    ensures { result ≡ next_envelope_of settings state }
{
    envelope::step(
        envelope::clamped(settings.adsr),
        envelope::sample_time(settings.rate),
        state.envelope,
    )
}
