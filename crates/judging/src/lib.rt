// What a render, a re-render and a continuing call are judged by first: the settings, the sizes, the old or only score,
// and the new score. 01, "What a call says". Refusals 8 and 10 come after these: the calls judge them.
#![tactic(auto)]

ghost use Rattle.std.specs.Prelude.{◌≡◌};
ghost use Rattle.answers.specs.Order.{first_of};
ghost use Rattle.judging.specs.Judging.{refusals_of, new_refusals_of, sizes_fit, part_fits};

use answers::{Answer, Refusal};
use state::Settings;

// The most samples of an output, 2^24.
const MOST_SAMPLES: u64 = 16_777_216;

// 6, 7 and the faults of the old or only score, in that order; `rest` where there is none.
#[tactic(auto, unfolding(crate::specs::Judging::refusals_of))]
pub fn judged(settings: Settings, room: bool, score: &[u8], rest: Answer) -> Answer
    ensures { result ≡ first_of (refusals_of settings room score.now) Err rest }
{
    if !state::is_settings(settings) {
        return Err(Refusal::Setting);
    }
    if !room {
        return Err(Refusal::Size);
    }
    score::judge(score).map_err(Refusal::Score)?;
    rest
}

// The new score's fault, or done with a count of 0.
pub fn judged_new(new: &[u8]) -> Answer
    ensures { result ≡ first_of (new_refusals_of new.now) Err (Ok 0) }
{
    score::judge(new).map_err(Refusal::NewScore)?;
    Ok(0)
}

// Whether samples <= 16,777,216, and the shelf has thirteen words, and the summary one magnitude and one number, for
// each section that so many samples have begun.
pub fn sizes_fit(samples: usize, words: usize, magnitudes: usize, numbers: usize) -> bool
    ensures { result ≡ sizes_fit samples words magnitudes numbers }
{
    let sections = shelf::entries(samples);
    (samples as u64 <= MOST_SAMPLES)
        & (words == shelf::words_for(samples))
        & (magnitudes == sections)
        & (numbers == sections)
}

// Whether position + samples <= 16,777,216; a sum that saturates is more.
pub fn part_fits(position: u64, samples: usize) -> bool
    ensures { result ≡ part_fits position samples }
{
    position.saturating_add(samples as u64) <= MOST_SAMPLES
}
