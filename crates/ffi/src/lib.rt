// What C sees: the calls of the crates below, on numbers and slices, each with its answer in one word. 01 asks for the
// check of a score and for single samples; render, re-render, page of edits, continuing call, fresh state and listing
// go beyond 01. `ffi_c` exports every public function here under its name; include/gavberin.h declares them, with the
// caller's duties, which no function here can test. Left out: the ported calls of phase, voice, envelope, oscillator
// and LFO, and the end state of a render.
#![tactic(auto)]

ghost use Rattle.std.specs.Prelude.{◌≡◌};
ghost use Rattle.sections.specs.Outcome.{lends, leaves};
ghost use Rattle.page.specs.Page.{rewrites};
ghost use Rattle.ffi.specs.Packed.{word_of, packed_of, packed_page};
ghost use Rattle.ffi.specs.Version.{version};
ghost use Rattle.ffi.specs.Ffi.{fills, continues, shape_of, manner_of, asks, choice_of, check_of, number_in, answer_in, single_of, render_for, rerender_for, edit_for, continue_in, continue_for, fresh_for, list_for};

use answers::{Answer, Numbers, Refusal};
use envelope::Adsr;
use page::Paged;
use sections::Buffers;
use shelf::ENTRY_WORDS;
use state::{Keying, Settings};
use tremolo::Lfo;
use waveform::Waveform;

// GAV_VERSION of the header.
const VERSION: u32 = 5;

// What a host asks for, in its own numbers.
#[derive(Clone, Copy)]
pub struct Asked {
    pub rate: u32,
    pub code: u32,
    pub duty: f64,
    pub attack: f64,
    pub decay: f64,
    pub sustain: f64,
    pub release: f64,
    pub lfo_code: u32,
    pub lfo_duty: f64,
    pub lfo_frequency: f64,
    pub lfo_depth: f64,
    pub joined: u32,
}

// The version of the calls, their arguments and a state's number of words, which a host must be written for.
pub fn gav_version() -> u32
    ensures { result ≡ version }
{
    VERSION
}

// What a score is refused for, or 0.
pub fn gav_check_score(score: &[u8]) -> u64
    ensures { result ≡ check_of score.now }
{
    packed(score::check(score))
}

// One sample of a waveform; +0 where it is refused.
pub fn gav_sample(code: u32, phase: f64, dt: f64, duty: f64) -> f64
    ensures { result ≡ number_in (single_of code phase dt duty) }
{
    single(code, phase, dt, duty).unwrap_or(0.0)
}

// The answer to `gav_sample` with these arguments.
pub fn gav_sample_says(code: u32, phase: f64, dt: f64, duty: f64) -> u64
    ensures { result ≡ packed_of (answer_in (single_of code phase dt duty)) }
{
    packed(single(code, phase, dt, duty).map(|_| 0))
}

// Every sample of the output, every entry of the shelf and every peak of the summary, from sample zero.
pub fn gav_render(
    rate: u32,
    code: u32,
    duty: f64,
    attack: f64,
    decay: f64,
    sustain: f64,
    release: f64,
    lfo_code: u32,
    lfo_duty: f64,
    lfo_frequency: f64,
    lfo_depth: f64,
    joined: u32,
    score: &[u8],
    out: &mut [f64],
    shelf: &mut [u64],
    magnitudes: &mut [f64],
    numbers: &mut [u64],
) -> u64
    ensures { leaves result (lends out.new shelf.new magnitudes.new numbers.new) ≡ render_for (choice_of (asks rate code duty attack decay sustain release lfo_code lfo_duty lfo_frequency lfo_depth joined)) score.now (lends out.old shelf.old magnitudes.old numbers.old) }
{
    let choice = choice_of(Asked {
        rate,
        code,
        duty,
        attack,
        decay,
        sustain,
        release,
        lfo_code,
        lfo_duty,
        lfo_frequency,
        lfo_depth,
        joined,
    });
    let Some(settings) = choice else {
        return packed(Err(Refusal::Setting));
    };
    let mut lent = Buffers {
        heard: out,
        stored: shelf,
        magnitudes,
        numbers,
    };
    packed(render::render(settings, score, &mut lent).answer)
}

// The samples, the entries and the summary from the start of the section that holds the first changed position to the
// stop, as the new score gives them; from the stop on each entry's number of records acted.
pub fn gav_rerender(
    rate: u32,
    code: u32,
    duty: f64,
    attack: f64,
    decay: f64,
    sustain: f64,
    release: f64,
    lfo_code: u32,
    lfo_duty: f64,
    lfo_frequency: f64,
    lfo_depth: f64,
    joined: u32,
    old: &[u8],
    new: &[u8],
    out: &mut [f64],
    shelf: &mut [u64],
    magnitudes: &mut [f64],
    numbers: &mut [u64],
) -> u64
    ensures { leaves result (lends out.new shelf.new magnitudes.new numbers.new) ≡ rerender_for (choice_of (asks rate code duty attack decay sustain release lfo_code lfo_duty lfo_frequency lfo_depth joined)) old.now new.now (lends out.old shelf.old magnitudes.old numbers.old) }
{
    let choice = choice_of(Asked {
        rate,
        code,
        duty,
        attack,
        decay,
        sustain,
        release,
        lfo_code,
        lfo_duty,
        lfo_frequency,
        lfo_depth,
        joined,
    });
    let Some(settings) = choice else {
        return packed(Err(Refusal::Setting));
    };
    let mut lent = Buffers {
        heard: out,
        stored: shelf,
        magnitudes,
        numbers,
    };
    packed(rerender::rerender(settings, old, new, &mut lent))
}

// The edits of a list, made one after the other on the old score, and one re-render of the old score into the new one;
// the new score is written to the front of `new_score`.
pub fn gav_edit(
    rate: u32,
    code: u32,
    duty: f64,
    attack: f64,
    decay: f64,
    sustain: f64,
    release: f64,
    lfo_code: u32,
    lfo_duty: f64,
    lfo_frequency: f64,
    lfo_depth: f64,
    joined: u32,
    old: &[u8],
    edits: &[u8],
    out: &mut [f64],
    shelf: &mut [u64],
    magnitudes: &mut [f64],
    numbers: &mut [u64],
    new_score: &mut [u8],
) -> u64
    ensures { rewrites result (lends out.new shelf.new magnitudes.new numbers.new) new_score.new ≡ edit_for (choice_of (asks rate code duty attack decay sustain release lfo_code lfo_duty lfo_frequency lfo_depth joined)) old.now edits.now (lends out.old shelf.old magnitudes.old numbers.old) new_score.old }
{
    let choice = choice_of(Asked {
        rate,
        code,
        duty,
        attack,
        decay,
        sustain,
        release,
        lfo_code,
        lfo_duty,
        lfo_frequency,
        lfo_depth,
        joined,
    });
    let Some(settings) = choice else {
        return packed(Err(Refusal::Setting));
    };
    let mut lent = Buffers {
        heard: out,
        stored: shelf,
        magnitudes,
        numbers,
    };
    packed_page(page::edit(settings, old, edits, &mut lent, new_score))
}

// The next part of the output, from the state in thirteen words; when done, the words are those of the state after the
// part.
pub fn gav_continue(
    rate: u32,
    code: u32,
    duty: f64,
    attack: f64,
    decay: f64,
    sustain: f64,
    release: f64,
    lfo_code: u32,
    lfo_duty: f64,
    lfo_frequency: f64,
    lfo_depth: f64,
    joined: u32,
    score: &[u8],
    state: &mut [u64],
    position: u64,
    part: &mut [f64],
) -> u64
    ensures { continues result part.new state.new ≡ continue_for (choice_of (asks rate code duty attack decay sustain release lfo_code lfo_duty lfo_frequency lfo_depth joined)) score.now state.old position part.old }
{
    let choice = choice_of(Asked {
        rate,
        code,
        duty,
        attack,
        decay,
        sustain,
        release,
        lfo_code,
        lfo_duty,
        lfo_frequency,
        lfo_depth,
        joined,
    });
    let Some(settings) = choice else {
        return packed(Err(Refusal::Setting));
    };
    continue_in(settings, score, state, position, part)
}

// The state before sample zero, in thirteen words.
pub fn gav_fresh(state: &mut [u64]) -> u64
    ensures { fills result state.new ≡ fresh_for state.old }
{
    if state.len() != ENTRY_WORDS {
        return packed(Err(Refusal::Argument));
    }
    shelf::store(state, state::fresh());
    packed(Ok(0))
}

// What the lister prints for a score; the count is its bytes. No listing is empty: 0 bytes mean a buffer that is too
// short.
pub fn gav_list(score: &[u8], text: &mut [u8]) -> u64
    ensures { fills result text.new ≡ list_for score.now text.old }
{
    let bytes = listing::list(score, text);
    if bytes == 0 {
        return packed(Err(Refusal::Size));
    }
    packed(Ok(bytes))
}

// An answer in one word: bits 0 to 7 the number, 8 to 31 the place, 32 to 63 the count.
fn packed(answer: Answer) -> u64
    ensures { result ≡ packed_of answer }
{
    word_of(Numbers::from(answer))
}

// The answer of a page in one word; when done, the bytes of the new score stand in the place's bits.
fn packed_page(paged: Paged) -> u64
    ensures { result ≡ packed_page paged }
{
    let answer = paged.answer;
    let bytes = paged.bytes;
    match answer {
        Ok(count) => word_of(Numbers {
            number: 0,
            place: bytes,
            count,
        }),
        Err(_) => packed(answer),
    }
}

fn word_of(numbers: Numbers) -> u64
    ensures { result ≡ word_of numbers }
{
    let place = numbers.place as u64 % 0x100_0000;
    let count = numbers.count as u64 % 0x1_0000_0000;
    numbers.number as u64 + 256 * place + 0x1_0000_0000 * count
}

fn shape_of(code: u32, duty: f64) -> Option<Waveform>
    ensures { result ≡ shape_of code duty }
{
    match code {
        0 => Some(Waveform::Sine),
        1 => Some(Waveform::Square),
        2 => Some(Waveform::Sawtooth),
        3 => Some(Waveform::Triangle),
        4 => Some(Waveform::Pulse(duty)),
        6 => Some(Waveform::RoundedTriangle),
        _ => None,
    }
}

fn manner_of(joined: u32) -> Option<Keying>
    ensures { result ≡ manner_of joined }
{
    match joined {
        0 => Some(Keying::Struck),
        1 => Some(Keying::Joined),
        _ => None,
    }
}

fn choice_of(asked: Asked) -> Option<Settings>
    ensures { result ≡ choice_of asked }
{
    let waveform = shape_of(asked.code, asked.duty)?;
    let lfo_waveform = shape_of(asked.lfo_code, asked.lfo_duty)?;
    let keying = manner_of(asked.joined)?;
    let adsr = Adsr {
        attack: asked.attack,
        decay: asked.decay,
        sustain: asked.sustain,
        release: asked.release,
    };
    let lfo = Lfo {
        waveform: lfo_waveform,
        frequency: asked.lfo_frequency,
        depth: asked.lfo_depth,
    };
    Some(Settings {
        rate: asked.rate,
        waveform,
        adsr,
        lfo,
        keying,
    })
}

fn single(code: u32, phase: f64, dt: f64, duty: f64) -> Result<f64, Refusal>
    ensures { result ≡ single_of code phase dt duty }
{
    let waveform = shape_of(code, duty).ok_or(Refusal::Setting)?;
    waveform::sample(waveform, phase, dt)
}

// A continuing call whose state comes and goes in words. Words that are no state are 10, after 6, 7 and the score's
// faults.
fn continue_in(
    settings: Settings,
    score: &[u8],
    words: &mut [u64],
    position: u64,
    part: &mut [f64],
) -> u64
    ensures { continues result part.new words.new ≡ continue_in settings score.now words.old position part.old }
{
    let Some(state) = shelf::decode(words) else {
        let stretch = judging::part_fits(position, part.len());
        let refused = Err(Refusal::GivenState);
        return packed(judging::judged(settings, stretch, score, refused));
    };
    let rendered = render::continue_render(settings, score, state, position, part);
    if rendered.answer.is_ok() {
        shelf::store(words, rendered.state);
    }
    packed(rendered.answer)
}
