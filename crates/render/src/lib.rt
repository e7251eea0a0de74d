// The arranger's render, every sample from sample zero, and the stage player's, part by part from a given state. From
// the fresh state at sample zero both make the samples that the score's records give; from another state they make the
// samples that the records give from there on. The end of a part reduces nothing. 01, "Making sample n" and "What a
// call says".
#![tactic(auto)]

ghost use Rattle.std.specs.Prelude.{◌≡◌, length};
ghost use Rattle.score.specs.Below.{Sorted};
ghost use Rattle.sections.specs.Lending.{held, leaves_in, left_in};
ghost use Rattle.answers.specs.Order.{unless, first_of};
ghost use Rattle.answers.specs.declared.Refusal.TheVariants.{GivenState};
ghost use Rattle.render.specs.Calls.{render_of, leaves_part, is_given, kept_part, made_part, continue_of};

use answers::{Answer, Refusal};
use sections::Buffers;
use spans::Place;
use state::{Settings, State};

// What a call says, and the state before the sample after its last. A refused render answers the fresh state, a refused
// continuing call the given state.
#[derive(Clone, Copy)]
pub struct Rendered {
    pub answer: Answer,
    pub state: State,
}

// Every sample of the output, every entry of the shelf and every peak of the summary, from the fresh state at sample
// zero.
pub fn render(settings: Settings, score: &[u8], lent: &mut Buffers) -> Rendered
    ensures { leaves_in result lent.new ≡ left_in lent.old (render_of settings score.now (held lent.old)) }
{
    let state = state::fresh();
    let room = lent.fits();
    let answer = judging::judged(settings, room, score, Ok(lent.heard.len()));
    let Ok(n) = answer else {
        return Rendered { answer, state };
    };
    let start = Place { state, next: 0 };
    // No section has the number n: nothing stops a render.
    let end = sections::play_on(settings, score, 0, start, n, lent);
    let state = end.place.state;
    Rendered { answer, state }
}

// The next part of the output, from a given state before the sample at `position` is begun.
pub fn continue_render(
    settings: Settings,
    score: &[u8],
    state: State,
    position: u64,
    part: &mut [f64],
) -> Rendered
    ensures { leaves_part result part.new ≡ continue_of settings score.now state position part.old }
{
    let stretch = judging::part_fits(position, part.len());
    let answer = judging::judged(settings, stretch, score, Ok(part.len()));
    let Ok(_) = answer else {
        return Rendered { answer, state };
    };
    continue_from(settings, score, state, position, part)
}

// From the given state, or refusal 10. In a sorted score two records tell whether as many acted as lie below
// `position`.
fn continue_from(
    settings: Settings,
    score: &[u8],
    state: State,
    position: u64,
    part: &mut [f64],
) -> Rendered
    requires { Sorted score.now }
    ensures { leaves_part result part.new ≡ first_of (unless (is_given score.now position state) GivenState) (kept_part state part.old) (made_part settings score.now state position (length part.old)) }
{
    let acted = state.acted;
    if !(state::is_state(state) & score::is_count_below(score, acted, position)) {
        let answer = Err(Refusal::GivenState);
        return Rendered { answer, state };
    }
    let next = acted as usize;
    let answer = Ok(part.len());
    let end = spans::play(settings, score, Place { state, next }, position, part);
    let state = end.state;
    Rendered { answer, state }
}
