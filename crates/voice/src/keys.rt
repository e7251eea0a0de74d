// The held keys: the note that sounds, and the keys that are down, oldest first. voice.rs keeps them in `VoiceState` as
// a stack of pairs; here they are a struct of their own, because a voice in f32 and a voice in f64 both have one.
// Every function takes any value of `Keys`, also one outside the limits.
ghost use Rattle.std.specs.Prelude.{◌≡◌, ◌≤◌, length, take};
ghost use Rattle.voice.specs.Keys.{pairs, held_of, padded, keys_of, fresh_keys, pressed_of, without_of, is_sounding, fall_back_of, lifted_of, is_gate_right, is_filled, is_keys};

// The note that sounds, the gate, and the held keys with their velocities: the first `count` places of each array.
#[derive(Clone, Copy)]
pub struct Keys {
    pub active: Option<u8>,
    pub gate: bool,
    pub notes: [u8; 16],
    pub velocities: [u8; 16],
    pub count: usize,
}

// What lifting a key does to the sound: ends it, falls back to a held note and its velocity, or leaves it as it was.
#[derive(Clone, Copy)]
pub enum NoteOff {
    Released,
    FellBack(u8, u8),
    NoChange,
}

// The keys after one is lifted, and what the lift does to the sound.
#[derive(Clone, Copy)]
pub struct AfterLift {
    pub keys: Keys,
    pub off: NoteOff,
}

// No key is down, and no note sounds.
pub fn fresh_keys() -> Keys
    ensures { result ≡ fresh_keys }
{
    Keys {
        active: None,
        gate: false,
        notes: [0u8; 16],
        velocities: [0u8; 16],
        count: 0,
    }
}

// A key goes down: its note sounds in any case, and the key is held if fewer than 16 are.
pub fn pressed(mut keys: Keys, note: u8, velocity: u8) -> Keys
    ensures { result ≡ pressed_of keys note velocity }
{
    keys.active = Some(note);
    keys.gate = true;
    keys.count = held_count(keys);
    if keys.count < 16 {
        keys.notes[keys.count] = note;
        keys.velocities[keys.count] = velocity;
        keys.count += 1;
    }
    cleared(keys)
}

// A key goes up: every held pair of its note is dropped. If that note sounded, the last held key sounds next, or none.
#[tactic(auto, unfolding(crate::specs::Keys::lifted_of))]
pub fn lifted(keys: Keys, note: u8) -> AfterLift
    ensures { result ≡ lifted_of keys note }
{
    let rest = without(keys, note);
    if keys.active == Some(note) {
        return fallen_back(rest);
    }
    AfterLift {
        keys: rest,
        off: NoteOff::NoChange,
    }
}

// Whether keys are within the limits: a note from 0 to 127 with the gate up or none with the gate down, at most 16
// held, held notes and velocities at most 127, and unused places 0.
#[tactic(auto, unfolding(crate::specs::Keys::is_keys))]
pub fn is_keys(keys: Keys) -> bool
    ensures { result ≡ is_keys keys }
{
    is_gate_right(keys)
        & (keys.count <= 16)
        & is_filled(keys.notes, keys.count)
        & is_filled(keys.velocities, keys.count)
}

// How many keys are held: `count`, but at most 16, the room of the arrays.
pub fn held_count(keys: Keys) -> usize
    ensures { result ≡ length (held_of keys) }
{
    keys.count.min(16)
}

// Every held pair of a note is dropped, and the others keep their order. One walk: a pair that is kept moves down to
// the place after those kept before it, which is never past its own, so no pair is overwritten before its visit.
fn without(mut keys: Keys, note: u8) -> Keys
    ensures { result ≡ without_of keys note }
{
    let held = held_count(keys);
    let mut kept = 0;
    for i in 0..held {
        if keys.notes[i] != note {
            keys.notes[kept] = keys.notes[i];
            keys.velocities[kept] = keys.velocities[i];
            kept += 1;
        }
    }
    keys.count = kept;
    cleared(keys)
}

// The places after the held pairs become 0.
fn cleared(mut keys: Keys) -> Keys
    requires { keys.count ≤ 16 }
    ensures { result ≡ keys_of keys.active keys.gate (held_of keys) }
{
    clear(&mut keys.notes, keys.count);
    clear(&mut keys.velocities, keys.count);
    keys
}

// The bytes from index `count` on become 0.
fn clear(bytes: &mut [u8; 16], count: usize)
    requires { (count ≤ 16) × (length bytes.old ≡ 16) }
    ensures { bytes.new ≡ padded (take count bytes.old) }
{
    bytes[count..].fill(0);
}

// The note that sounded was lifted: the last held key sounds next, or the gate goes down.
fn fallen_back(keys: Keys) -> AfterLift
    ensures { result ≡ fall_back_of keys }
{
    let held = held_count(keys);
    if held == 0 {
        return AfterLift {
            keys: Keys {
                active: None,
                gate: false,
                ..keys
            },
            off: NoteOff::Released,
        };
    }
    let note = keys.notes[held - 1];
    let velocity = keys.velocities[held - 1];
    AfterLift {
        keys: Keys {
            active: Some(note),
            ..keys
        },
        off: NoteOff::FellBack(note, velocity),
    }
}

// A note from 0 to 127 with the gate up, or none with the gate down.
fn is_gate_right(keys: Keys) -> bool
    ensures { result ≡ is_gate_right keys.active keys.gate }
{
    match keys.active {
        None => !keys.gate,
        Some(note) => (note <= 127) & keys.gate,
    }
}

// The first `count` bytes are at most 127, and the others 0.
fn is_filled(bytes: [u8; 16], count: usize) -> bool
    ensures { result ≡ is_filled count bytes }
{
    bytes.iter().take(count).all(|b| *b <= 127) & bytes.iter().skip(count).all(|b| *b == 0)
}
