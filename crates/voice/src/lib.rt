// voice.rs of the original: one voice for many keys, the last of which sounds. State goes in by value and is handed
// back; an argument outside the domain is refused (document 01, number 9).
// The keys are in keys.rt, `midi_note_to_frequency` is in the crate `pitch`; the traits of the original are left out.
#![tactic(auto)]

ghost use Rattle.std.specs.Prelude.{◌≡◌};
ghost use Rattle.answers.specs.Order.{unless};
ghost use Rattle.answers.specs.declared.Refusal.TheVariants.{Argument};
ghost use Rattle.voice.specs.Voice.{velocity_of, is_voice, sounding_of, after_lift_of, is_note, off_or};
ghost use Rattle.voice.specs.Voice.{new_of, note_on_of, note_off_of, reset_of, is_active_of, held_note_count_of};

use answers::{Answer, Changed, Refusal};
use keys::{AfterLift, Keys, NoteOff};

pub mod keys;

// The keys, and what sounds: the velocity from 0 to 1 and the frequency in Hz, both of the last note that sounded.
#[derive(Clone, Copy)]
pub struct VoiceState {
    pub keys: Keys,
    pub velocity: f32,
    pub frequency: f32,
}

// What lifting a key answers: what became of the sound, and the state after.
#[derive(Clone, Copy)]
pub struct Off {
    pub answer: Answer,
    pub off: NoteOff,
    pub voice: VoiceState,
}

impl VoiceState {
    // No key down, velocity 0, 440 Hz.
    pub fn new() -> VoiceState
        ensures { result ≡ new_of }
    {
        VoiceState {
            keys: keys::fresh_keys(),
            velocity: 0.0,
            frequency: 440.0,
        }
    }

    // A key goes down, and its note sounds.
    pub fn note_on(self, note: u8, velocity: u8) -> Changed<VoiceState>
        ensures { result ≡ note_on_of self note velocity }
    {
        let after = VoiceState {
            keys: keys::pressed(self.keys, note, velocity),
            velocity: velocity_of(velocity),
            frequency: pitch::frequency_of(note),
        };
        answers::changed_if(
            is_voice(self) & domain::is_midi(note) & domain::is_midi(velocity),
            Refusal::Argument,
            self,
            after,
        )
    }

    // A key goes up. If its note sounded, the sound is released, or falls back to the note that the answer names.
    pub fn note_off(self, note: u8) -> Off
        ensures { result ≡ note_off_of self note }
    {
        let lift = keys::lifted(self.keys, note);
        off_if(
            is_voice(self) & domain::is_midi(note),
            lift.off,
            self,
            after_lift(self, lift),
        )
    }

    // The state of `new`.
    pub fn reset(self) -> Changed<VoiceState>
        ensures { result ≡ reset_of self }
    {
        answers::changed_if(is_voice(self), Refusal::Argument, self, VoiceState::new())
    }

    // Whether a note sounds.
    pub fn is_active(self) -> Result<bool, Refusal>
        ensures { result ≡ is_active_of self }
    {
        answers::value_if(is_voice(self), Refusal::Argument, is_note(self.keys))
    }

    // How many keys are held.
    pub fn held_note_count(self) -> Result<usize, Refusal>
        ensures { result ≡ held_note_count_of self }
    {
        answers::value_if(
            is_voice(self),
            Refusal::Argument,
            keys::held_count(self.keys),
        )
    }
}

// A velocity from 0 to 127 as a factor from 0 to 1: velocity / 127, rounded once.
#[tactic(auto, unfolding(crate::specs::Voice::velocity_of))]
pub fn velocity_of(velocity: u8) -> f32
    ensures { result ≡ velocity_of velocity }
{
    velocity as f32 / 127.0
}

// `velocity_of` as an f64, exactly: every f32 is also an f64.
pub fn velocity_of_f64(velocity: u8) -> f64
    ensures { result ≡ velocity_of velocity }
{
    f64::from(velocity_of(velocity))
}

// Whether a state is within the shelf's limits.
#[tactic(auto, unfolding(crate::specs::Voice::is_voice))]
fn is_voice(voice: VoiceState) -> bool
    ensures { result ≡ is_voice voice }
{
    let loud = (0.0 <= voice.velocity) & (voice.velocity <= 1.0);
    let pitched = (0.0 < voice.frequency) & (voice.frequency <= 12544.0);
    keys::is_keys(voice.keys) & loud & pitched
}

// Whether a note sounds.
pub fn is_note(keys: Keys) -> bool
    ensures { result ≡ is_note keys.active }
{
    keys.active.is_some()
}

// The state after a key is lifted: only a fall back to another note changes velocity and frequency.
fn after_lift(voice: VoiceState, lift: AfterLift) -> VoiceState
    ensures { result ≡ after_lift_of voice lift.keys lift.off }
{
    match lift.off {
        NoteOff::FellBack(note, velocity) => VoiceState {
            keys: lift.keys,
            velocity: velocity_of(velocity),
            frequency: pitch::frequency_of(note),
        },
        NoteOff::Released | NoteOff::NoChange => VoiceState {
            keys: lift.keys,
            ..voice
        },
    }
}

// Done with what became of the sound and the state after, or refused with no change and the state as it came.
fn off_if(ok: bool, off: NoteOff, before: VoiceState, after: VoiceState) -> Off
    ensures { result ≡ off_or (unless ok Argument) off before after }
{
    if ok {
        return Off {
            answer: Ok(0),
            off,
            voice: after,
        };
    }
    Off {
        answer: Err(Refusal::Argument),
        off: NoteOff::NoChange,
        voice: before,
    }
}
