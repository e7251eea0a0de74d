// The re-render: after an edit the output goes on from the state that the score gives, not from the state of a part
// that is playing. The judging, then a plan, which is nothing or the section that holds the first changed position,
// then the plan's run, from the state that the shelf keeps for the start of that section to the end, or to the first
// later section whose entry says that the rest may stay. 01, "The shelf", demand 3, and 02, R-3 and R-12. No state is
// answered: the shelf has the states.
#![tactic(auto)]

ghost use Rattle.std.specs.Prelude.{◌≡◌, true, ◌+◌, ◌*◌, ◌≤◌, ◌<◌, length};
ghost use Rattle.score.specs.Below.{Sorted};
ghost use Rattle.shelf.specs.Shelf.{section_size, entry_words, entries_for, words_for};
ghost use Rattle.judging.specs.Judging.{most_samples};
ghost use Rattle.sections.specs.Outcome.{samples_in, room_in};
ghost use Rattle.sections.specs.Lending.{held, leaves_in, left_in};
ghost use Rattle.rerender.specs.Rerender.{plan_of, rerender_of};
ghost use Rattle.rerender.specs.Inner.{rerender_from, started_at, InOrder, quiet_of, Behind, recounted_on};

use answers::{Answer, Refusal};
use sections::Buffers;
use shelf::{ENTRY_WORDS, SECTION_SIZE};
use spans::Place;
use state::Settings;

// The samples, the entries and the summary from the start of the section that holds the first changed position to the
// stop, as the new score gives them; from the stop on each entry's number of records acted.
pub fn rerender(settings: Settings, old: &[u8], new: &[u8], lent: &mut Buffers) -> Answer
    ensures { leaves_in result lent.new ≡ left_in lent.old (rerender_of settings old.now new.now (held lent.old)) }
{
    let room = lent.fits();
    judging::judged(settings, room, old, judging::judged_new(new))?;
    match planned(old, new, lent.heard.len()) {
        None => Ok(0),
        Some(section) => rerender_from(settings, old, new, section, lent),
    }
}

// The plan for two scores and an output of so many samples.
fn planned(old: &[u8], new: &[u8], samples: usize) -> Option<usize>
    ensures { result ≡ plan_of old.now new.now samples }
{
    let p = score::first_difference(old, new)? as usize;
    (p < samples).then_some(p / SECTION_SIZE)
}

// From the state that the shelf keeps for the start of the section to the stop, or refusal 8.
fn rerender_from(
    settings: Settings,
    old: &[u8],
    new: &[u8],
    section: usize,
    lent: &mut Buffers,
) -> Answer
    requires in_order { InOrder old.now }
    requires in_order_2 { InOrder new.now }
    requires fits { room_in (held lent.old) ≡ true }
    requires section_bound { section < entries_for (samples_in (held lent.old)) }
    ensures { leaves_in result lent.new ≡ left_in lent.old (rerender_from settings old.now new.now section (held lent.old)) }
{
    let shelf = &mut *lent.stored;
    let Some(start) = start_at(new, section, shelf) else {
        return Err(Refusal::StartEntry);
    };
    let quiet = quiet_from(old, new);
    let end = sections::play_on(settings, new, section, start, quiet, lent);
    let stop = end.sample;
    recount(new, shelf::entries(stop), end.place.next, lent.stored);
    let count = stop - section * SECTION_SIZE;
    Ok(count)
}

// The place that a section's entry is read as, if the re-render may start there.
fn start_at(new: &[u8], section: usize, shelf: &[u64]) -> Option<Place>
    requires sorted { Sorted new.now }
    requires entry_words_in_bounds { section * entry_words + entry_words ≤ length shelf.now }
    requires section_le_most_samples { section ≤ most_samples }
    ensures { result ≡ started_at new.now section shelf.now }
{
    let word = section * ENTRY_WORDS;
    let state = shelf::decode(&shelf[word..word + ENTRY_WORDS])?;
    let acted = state.acted;
    let counted = score::is_count_below(new, acted, (section * SECTION_SIZE) as u64);
    let next = acted as usize;
    counted.then_some(Place { state, next })
}

// The first section from whose first sample on both scores have the same records: the one after their last difference.
fn quiet_from(old: &[u8], new: &[u8]) -> usize
    ensures { result ≡ quiet_of old.now new.now }
{
    match score::last_difference(old, new) {
        None => 0,
        Some(position) => position as usize / SECTION_SIZE + 1,
    }
}

// Every entry from a section on gets the number of the score's records below its position; `next` of them are known.
fn recount(score: &[u8], section: usize, next: usize, shelf: &mut [u64])
    requires sorted { Sorted score.now }
    requires behind { Behind score.now next (section * section_size) }
    requires shelf_len_bound { length shelf.old ≤ words_for most_samples }
    ensures { shelf.new ≡ recounted_on score.now section shelf.old }
{
    let entries = shelf.len() / ENTRY_WORDS;
    let mut acted = next;
    for k in section..entries {
        acted = score::next_not_below(score, acted, (k * SECTION_SIZE) as u64);
        let word = k * ENTRY_WORDS;
        shelf::recount(&mut shelf[word..word + ENTRY_WORDS], acted as u64);
    }
}
