// An entry of the shelf (01, "The shelf"): the state before a section's first sample, as thirteen words, and back.
// Every state can be written and any words can be read; a test of its own says which words are an entry. The crates
// above decide when an entry is kept, who starts from it and where a re-render stops.
#![tactic(auto, unfolding(crate::specs::Shelf::packed_word, crate::specs::Shelf::four_pairs, crate::specs::Shelf::entry_of, crate::specs::Shelf::state_of, crate::specs::Shelf::is_entry, crate::specs::Shelf::meets))]

ghost use Rattle.std.specs.Prelude.{◌≡◌, ℕ, ◌<◌, ◌≤◌, length, slice_index};
ghost use Rattle.words.specs.Words.{same};
ghost use Rattle.shelf.specs.Shelf.{entries_for, words_for, packed_word, four_pairs, entry_of, stored_in, word, float, stage_of, pair_byte, keys_in, envelope_in, state_of, decoded_of, with_count, meets};

use envelope::{Envelope, EnvelopeStage};
use state::State;
use voice::keys::Keys;
use waveform::Radians;

// The words of an entry.
pub const ENTRY_WORDS: usize = 13;

// The samples of a section, from one entry to the next.
pub const SECTION_SIZE: usize = 4096;

// The word that holds the number of records acted, in its bits 16 to 63.
const COUNT_WORD: usize = 5;

// The byte that stands for no active note.
const NO_NOTE: u8 = 255;

// How many entries an output of so many samples has.
pub fn entries(samples: usize) -> usize
    ensures { result ≡ entries_for samples }
{
    samples.div_ceil(SECTION_SIZE)
}

// How many words the shelf of an output of so many samples has.
pub fn words_for(samples: usize) -> usize
    ensures { result ≡ words_for samples }
{
    entries(samples) * ENTRY_WORDS
}

pub fn encode(state: State) -> [u64; ENTRY_WORDS]
    ensures { result ≡ entry_of state }
{
    [
        words::f64_bits(state.phase.0),
        state.envelope.stage as u64,
        words::f64_bits(state.envelope.level),
        words::f64_bits(state.envelope.stage_time),
        words::f64_bits(state.envelope.release_level),
        packed_word(state.keys, state.acted),
        words::f64_bits(state.frequency),
        words::f64_bits(state.velocity),
        four_pairs(state.keys, 0),
        four_pairs(state.keys, 4),
        four_pairs(state.keys, 8),
        four_pairs(state.keys, 12),
        words::f64_bits(state.lfo.0),
    ]
}

// Writes a state's words over the words of an entry; nothing, if there are not thirteen.
pub fn store(words: &mut [u64], state: State)
    ensures { words.new ≡ stored_in words.old state }
{
    if words.len() == ENTRY_WORDS {
        words.copy_from_slice(&encode(state));
    }
}

// The state of an entry; None, if words are no entry.
pub fn decode(words: &[u64]) -> Option<State>
    ensures { result ≡ decoded_of words.now }
{
    let state = state_of(words);
    let valid = (words.len() == ENTRY_WORDS) & (word(words, 1) <= 4) & state::is_state(state);
    valid.then_some(state)
}

// The state that any words are read as, whether they are an entry or not: words past the end are read as 0.
pub fn state_of(words: &[u64]) -> State
    ensures { result ≡ state_of words.now }
{
    let packed = word(words, 5);
    State {
        phase: Radians(float(words, 0)),
        envelope: envelope_of(words),
        frequency: float(words, 6),
        velocity: float(words, 7),
        keys: keys_of(packed, [8, 9, 10, 11].map(|i| word(words, i))),
        acted: packed / 65536,
        lfo: Radians(float(words, 12)),
    }
}

// Whether words are an entry and, but for the number of records acted, those of the state, bit for bit. Most entries
// differ in a word, so the limits are asked last.
pub fn meets(words: &[u64], state: State) -> bool
    ensures { result ≡ meets words.now state }
{
    same_but_count(words, state) && decode(words).is_some()
}

// Writes the number of records acted into the words of an entry, whatever they are; nothing, if there are fewer than
// six.
pub fn recount(words: &mut [u64], count: u64)
    ensures { words.new ≡ with_count words.old count }
{
    if COUNT_WORD < words.len() {
        words[COUNT_WORD] = words[COUNT_WORD] % 65536 + 65536 * (count % 0x1_0000_0000_0000);
    }
}

// Whether stored words are those of the state but for the number of records acted.
fn same_but_count(stored: &[u64], state: State) -> bool
    ensures { result ≡ same (with_count stored.now 0) (with_count (entry_of state) 0) }
{
    if stored.len() != ENTRY_WORDS {
        return false;
    }
    let entry = encode(state);
    (stored[..COUNT_WORD] == entry[..COUNT_WORD])
        & (stored[COUNT_WORD] % 65536 == entry[COUNT_WORD] % 65536)
        & (stored[COUNT_WORD + 1..] == entry[COUNT_WORD + 1..])
}

// Active note, gate, held count and records acted in one word, each in its own bits.
fn packed_word(keys: Keys, acted: u64) -> u64
    ensures { result ≡ packed_word keys acted }
{
    let active = keys.active.unwrap_or(NO_NOTE);
    let count = keys.count as u64 % 128;
    active as u64 + 256 * keys.gate as u64 + 512 * count + 65536 * (acted % 0x1_0000_0000_0000)
}

// Pairs `at` to `at` + 3 in one word, the oldest in the lowest bits.
fn four_pairs(keys: Keys, at: usize) -> u64
    requires { at ≤ 12 }
    ensures { result ≡ four_pairs keys at }
{
    u64::from_le_bytes([
        keys.notes[at],
        keys.velocities[at],
        keys.notes[at + 1],
        keys.velocities[at + 1],
        keys.notes[at + 2],
        keys.velocities[at + 2],
        keys.notes[at + 3],
        keys.velocities[at + 3],
    ])
}

fn envelope_of(words: &[u64]) -> Envelope
    ensures { result ≡ envelope_in words.now }
{
    Envelope {
        stage: stage_of(word(words, 1)),
        level: float(words, 2),
        stage_time: float(words, 3),
        release_level: float(words, 4),
    }
}

fn stage_of(word: u64) -> EnvelopeStage
    ensures { result ≡ stage_of word }
{
    match word {
        0 => EnvelopeStage::Idle,
        1 => EnvelopeStage::Attack,
        2 => EnvelopeStage::Decay,
        3 => EnvelopeStage::Sustain,
        _ => EnvelopeStage::Release,
    }
}

// The keys in the packed word and in the four words of pairs.
fn keys_of(packed: u64, pairs: [u64; 4]) -> Keys
    ensures { result ≡ keys_in packed (slice_index pairs 0) (slice_index pairs 1) (slice_index pairs 2) (slice_index pairs 3) }
{
    let active = (packed % 256) as u8;
    Keys {
        active: (active != NO_NOTE).then_some(active),
        gate: packed / 256 % 2 == 1,
        notes: every_second(pairs, 0),
        velocities: every_second(pairs, 1),
        count: (packed / 512 % 128) as usize,
    }
}

// Every second byte of four words, low byte first: of words of pairs, from byte 0 the notes, from byte 1 the
// velocities.
fn every_second(pairs: [u64; 4], from: usize) -> [u8; 16]
    requires { from < 2 }
    ensures long { length result ≡ 16 }
    ensures bytes { (k : ℕ) → k < 16 → slice_index result k ≡ pair_byte pairs from k }
{
    let mut bytes = [0; 16];
    for k in 0..16 {
        bytes[k] = pairs[k / 4].to_le_bytes()[2 * (k % 4) + from];
    }
    bytes
}

// The float whose bits are word i.
fn float(words: &[u64], i: usize) -> f64
    ensures { result ≡ float words.now i }
{
    words::f64_of(word(words, i))
}

// Word i, or 0 past the end.
fn word(words: &[u64], i: usize) -> u64
    ensures { result ≡ word words.now i }
{
    words.get(i).copied().unwrap_or(0)
}
