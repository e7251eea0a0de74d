// The exports of the static library: each is the function of `ffi` with its name and its clauses, which calls it. A
// slice is a pointer and a length in C; include/gavberin.h declares every function here, with the caller's duties,
// which no function here can test.
#![tactic(auto)]

ghost use Rattle.std.specs.Prelude.{◌≡◌};
ghost use Rattle.sections.specs.Outcome.{lends, leaves};
ghost use Rattle.page.specs.Page.{rewrites};
ghost use Rattle.ffi.specs.Packed.{packed_of};
ghost use Rattle.ffi.specs.Version.{version};
ghost use Rattle.ffi.specs.Ffi.{fills, continues, asks, choice_of, check_of, number_in, answer_in, single_of, render_for, rerender_for, edit_for, continue_for, fresh_for, list_for};

// The version of the calls, their arguments and a state's number of words, which a host must be written for.
#[unsafe(no_mangle)]
pub extern "C" fn gav_version() -> u32
    ensures { result ≡ version }
{
    ffi::gav_version()
}

// What a score is refused for, or 0.
#[unsafe(no_mangle)]
pub extern "C" fn gav_check_score(score: &[u8]) -> u64
    ensures { result ≡ check_of score.now }
{
    ffi::gav_check_score(score)
}

// One sample of a waveform; +0 where it is refused.
#[unsafe(no_mangle)]
pub extern "C" fn gav_sample(code: u32, phase: f64, dt: f64, duty: f64) -> f64
    ensures { result ≡ number_in (single_of code phase dt duty) }
{
    ffi::gav_sample(code, phase, dt, duty)
}

// The answer to `gav_sample` with these arguments.
#[unsafe(no_mangle)]
pub extern "C" fn gav_sample_says(code: u32, phase: f64, dt: f64, duty: f64) -> u64
    ensures { result ≡ packed_of (answer_in (single_of code phase dt duty)) }
{
    ffi::gav_sample_says(code, phase, dt, duty)
}

// Every sample of the output, every entry of the shelf and every peak of the summary, from sample zero.
#[unsafe(no_mangle)]
pub extern "C" fn gav_render(
    rate: u32,
    code: u32,
    duty: f64,
    attack: f64,
    decay: f64,
    sustain: f64,
    release: f64,
    lfo_code: u32,
    lfo_duty: f64,
    lfo_frequency: f64,
    lfo_depth: f64,
    joined: u32,
    score: &[u8],
    out: &mut [f64],
    shelf: &mut [u64],
    magnitudes: &mut [f64],
    numbers: &mut [u64],
) -> u64
    ensures { leaves result (lends out.new shelf.new magnitudes.new numbers.new) ≡ render_for (choice_of (asks rate code duty attack decay sustain release lfo_code lfo_duty lfo_frequency lfo_depth joined)) score.now (lends out.old shelf.old magnitudes.old numbers.old) }
{
    ffi::gav_render(
        rate,
        code,
        duty,
        attack,
        decay,
        sustain,
        release,
        lfo_code,
        lfo_duty,
        lfo_frequency,
        lfo_depth,
        joined,
        score,
        out,
        shelf,
        magnitudes,
        numbers,
    )
}

// The samples, the entries and the summary from the start of the section that holds the first changed position to the
// stop, as the new score gives them; from the stop on each entry's number of records acted.
#[unsafe(no_mangle)]
pub extern "C" fn gav_rerender(
    rate: u32,
    code: u32,
    duty: f64,
    attack: f64,
    decay: f64,
    sustain: f64,
    release: f64,
    lfo_code: u32,
    lfo_duty: f64,
    lfo_frequency: f64,
    lfo_depth: f64,
    joined: u32,
    old: &[u8],
    new: &[u8],
    out: &mut [f64],
    shelf: &mut [u64],
    magnitudes: &mut [f64],
    numbers: &mut [u64],
) -> u64
    ensures { leaves result (lends out.new shelf.new magnitudes.new numbers.new) ≡ rerender_for (choice_of (asks rate code duty attack decay sustain release lfo_code lfo_duty lfo_frequency lfo_depth joined)) old.now new.now (lends out.old shelf.old magnitudes.old numbers.old) }
{
    ffi::gav_rerender(
        rate,
        code,
        duty,
        attack,
        decay,
        sustain,
        release,
        lfo_code,
        lfo_duty,
        lfo_frequency,
        lfo_depth,
        joined,
        old,
        new,
        out,
        shelf,
        magnitudes,
        numbers,
    )
}

// The edits of a list, made one after the other on the old score, and one re-render of the old score into the new one;
// the new score is written to the front of `new_score`.
#[unsafe(no_mangle)]
pub extern "C" fn gav_edit(
    rate: u32,
    code: u32,
    duty: f64,
    attack: f64,
    decay: f64,
    sustain: f64,
    release: f64,
    lfo_code: u32,
    lfo_duty: f64,
    lfo_frequency: f64,
    lfo_depth: f64,
    joined: u32,
    old: &[u8],
    edits: &[u8],
    out: &mut [f64],
    shelf: &mut [u64],
    magnitudes: &mut [f64],
    numbers: &mut [u64],
    new_score: &mut [u8],
) -> u64
    ensures { rewrites result (lends out.new shelf.new magnitudes.new numbers.new) new_score.new ≡ edit_for (choice_of (asks rate code duty attack decay sustain release lfo_code lfo_duty lfo_frequency lfo_depth joined)) old.now edits.now (lends out.old shelf.old magnitudes.old numbers.old) new_score.old }
{
    ffi::gav_edit(
        rate,
        code,
        duty,
        attack,
        decay,
        sustain,
        release,
        lfo_code,
        lfo_duty,
        lfo_frequency,
        lfo_depth,
        joined,
        old,
        edits,
        out,
        shelf,
        magnitudes,
        numbers,
        new_score,
    )
}

// The next part of the output, from the state in thirteen words; when done, the words are those of the state after the
// part.
#[unsafe(no_mangle)]
pub extern "C" fn gav_continue(
    rate: u32,
    code: u32,
    duty: f64,
    attack: f64,
    decay: f64,
    sustain: f64,
    release: f64,
    lfo_code: u32,
    lfo_duty: f64,
    lfo_frequency: f64,
    lfo_depth: f64,
    joined: u32,
    score: &[u8],
    state: &mut [u64],
    position: u64,
    part: &mut [f64],
) -> u64
    ensures { continues result part.new state.new ≡ continue_for (choice_of (asks rate code duty attack decay sustain release lfo_code lfo_duty lfo_frequency lfo_depth joined)) score.now state.old position part.old }
{
    ffi::gav_continue(
        rate,
        code,
        duty,
        attack,
        decay,
        sustain,
        release,
        lfo_code,
        lfo_duty,
        lfo_frequency,
        lfo_depth,
        joined,
        score,
        state,
        position,
        part,
    )
}

// The state before sample zero, in thirteen words.
#[unsafe(no_mangle)]
pub extern "C" fn gav_fresh(state: &mut [u64]) -> u64
    ensures { fills result state.new ≡ fresh_for state.old }
{
    ffi::gav_fresh(state)
}

// What the lister prints for a score; the count is its bytes. No listing is empty: 0 bytes mean a buffer that is too
// short.
#[unsafe(no_mangle)]
pub extern "C" fn gav_list(score: &[u8], text: &mut [u8]) -> u64
    ensures { fills result text.new ≡ list_for score.now text.old }
{
    ffi::gav_list(score, text)
}
