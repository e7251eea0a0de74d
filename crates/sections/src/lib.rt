// From the start of a section on, section by section (01, "The shelf", and 02, R-3): the entry of a section is kept,
// then its samples are played, then their peak is kept. A render starts at section 0 and goes to the end; a re-render
// starts at the section that holds the first changed position, and stops at the first later section whose entry says
// that the rest may stay (02, R-12). Render and re-render do the judging; here the sizes alone are tested, so that
// nothing is asked of a caller.
#![tactic(auto)]

ghost use Rattle.std.specs.Prelude.{◌≡◌, true, ◌&&◌, ◌<◌};
ghost use Rattle.shelf.specs.Shelf.{entries_for, meets};
ghost use Rattle.sections.specs.Outcome.{samples_in, room_in};
ghost use Rattle.sections.specs.Lending.{held, leaves_in, left_in};
ghost use Rattle.sections.specs.Sections.{played, play_on_of};

use shelf::{ENTRY_WORDS, SECTION_SIZE};
use spans::Place;
use state::{Settings, State};

// What a caller lends: an output, the words of its shelf, and its summary, a magnitude and a sample's number for each
// section.
#[derive(Drop)]
pub struct Buffers<'a> {
    pub heard: &'a mut [f64],
    pub stored: &'a mut [u64],
    pub magnitudes: &'a mut [f64],
    pub numbers: &'a mut [u64],
}

impl Buffers<'_> {
    // Whether the samples are not too many, and shelf and summary have the sizes that so many samples need.
    pub fn fits(&self) -> bool
        ensures { result ≡ room_in (held self.now) }
    {
        judging::sizes_fit(
            self.heard.len(),
            self.stored.len(),
            self.magnitudes.len(),
            self.numbers.len(),
        )
    }
}

// Where playing ended: the first sample that was not played, and the place there.
#[derive(Clone, Copy)]
pub struct End {
    pub place: Place,
    pub sample: usize,
}

// Plays the samples from a section on, and keeps the entries and peaks from that section on. The first sample of
// section k is 4096 k. It stops at the first later section, `quiet` or one after it, whose entry is the state there but
// for the number of records acted, else at the end. If the first section's first sample is at or past the end, or the
// sizes do not fit, nothing is changed, and the answer is the place that was given, and the end.
pub fn play_on(
    settings: Settings,
    score: &[u8],
    section: usize,
    place: Place,
    quiet: usize,
    lent: &mut Buffers,
) -> End
    ensures { leaves_in result lent.new ≡ left_in lent.old (play_on_of settings score.now section place quiet (held lent.old)) }
{
    let sample = lent.heard.len();
    if !lent.fits() {
        return End { place, sample };
    }
    if shelf::entries(sample) <= section {
        return End { place, sample };
    }
    play_sections(settings, score, section, place, quiet, lent)
}

fn play_sections(
    settings: Settings,
    score: &[u8],
    section: usize,
    from: Place,
    quiet: usize,
    lent: &mut Buffers,
) -> End
    requires fits { room_in (held lent.old) ≡ true }
    requires section_bound { section < entries_for (samples_in (held lent.old)) }
    ensures { leaves_in result lent.new ≡ left_in lent.old (played settings score.now section from quiet (held lent.old)) }
{
    let length = lent.heard.len();
    let mut place = from;
    for k in section..shelf::entries(length) {
        let sample = k * SECTION_SIZE;
        let word = k * ENTRY_WORDS;
        let entry = &mut lent.stored[word..word + ENTRY_WORDS];
        let may = (section < k) & (quiet <= k);
        if is_stop(may, entry, place.state) {
            return End { place, sample };
        }
        shelf::store(entry, place.state);
        let end = (sample + SECTION_SIZE).min(length);
        let samples = &mut lent.heard[sample..end];
        place = spans::play(settings, score, place, sample as u64, samples);
        let peak = peaks::peak_of(samples);
        lent.magnitudes[k] = peak.magnitude;
        lent.numbers[k] = (sample + peak.offset) as u64;
    }
    End {
        place,
        sample: length,
    }
}

// Whether an entry that may end the playing does: no entry before the first one that may is looked at.
fn is_stop(may: bool, entry: &[u64], state: State) -> bool
    ensures { result ≡ may && meets entry.now state }
{
    may && shelf::meets(entry, state)
}
