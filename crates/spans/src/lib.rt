// Plays a part of the output, span by span (01, "Making sample n"). A span begins at each multiple of 64 and at each
// position of a record; there both phases are reduced and the records act. It ends where the next span begins, or at
// the end of the part, which reduces nothing.
// A sample is counted by its offset in the part, which starts at a position in the output, so that no sum overflows a
// u64. The calls above do the judging.
#![tactic(auto)]

ghost use Rattle.std.specs.Prelude.{◌≡◌, ◌+◌, ◌%◌, ◌<◌, ◌≤◌, length};
ghost use Rattle.spans.specs.Walk.{begun_from, Played};
ghost use Rattle.spans.specs.Inner.{IsWaveTable, SpanPlayed, Swayed, place_in, is_due_in, is_block_start, begins_in, Sees, At, FirstAfter};

use state::{Settings, State};
use waveform::{Radians, Waveform};

// The samples of a block: between two reductions where no record acts.
const BLOCK: u64 = 64;

// A part of this many samples or more, with a sine to be read, is faster with the whole wave unfolded first.
const LONG: usize = 1024;

// The state before a sample is begun, and the index of the first record that has not acted.
#[derive(Clone, Copy)]
pub struct Place {
    pub state: State,
    pub next: usize,
}

// A place in a part, and how many samples after the part's position the next record is; None, if there is none at or
// after it. The record's position is read once, when the record before it has acted.
#[derive(Clone, Copy)]
struct Walker {
    state: State,
    next: usize,
    due: Option<usize>,
}

// What plays a part and stays as it is while it does: the settings, the score, the part's position in the output, and a
// wave that is lent to every span: the whole wave, or none, and then a span of a sine reads the table of a quarter
// wave.
#[derive(Clone, Copy)]
struct Player<'a> {
    settings: Settings,
    score: &'a [u8],
    position: u64,
    wave: &'a [f64],
    ghost wave_table: { IsWaveTable wave.now },
}

// Plays the samples of a part that begins at a position, and returns the place after the last. For a long part in which
// oscillator or LFO read a sine the whole wave is unfolded once; the samples are the same.
pub fn play(
    settings: Settings,
    score: &[u8],
    place: Place,
    position: u64,
    part: &mut [f64],
) -> Place
    ensures { Played settings score.now position place part.old part.new result }
{
    if LONG <= part.len() && reads_sine(settings) {
        return play_long(settings, score, place, position, part);
    }
    let player = Player {
        settings,
        score,
        position,
        wave: &[],
    };
    player.play(place, part)
}

fn reads_sine(settings: Settings) -> bool {
    let trembles = !floats::is_within(0.0, 0.0, settings.lfo.depth);
    matches!(settings.waveform, Waveform::Sine)
        || trembles && matches!(settings.lfo.waveform, Waveform::Sine)
}

// The whole wave lies on the stack of this function alone: written into its caller, it would lie there for every call.
#[inline(never)]
fn play_long(
    settings: Settings,
    score: &[u8],
    place: Place,
    position: u64,
    part: &mut [f64],
) -> Place
    ensures { Played settings score.now position place part.old part.new result }
{
    let mut wave = [0.0; 4097];
    sine::whole_wave(&mut wave);
    let player = Player {
        settings,
        score,
        position,
        wave: &wave,
    };
    player.play(place, part)
}

impl Walker {
    // Whether the next record is at an offset.
    fn is_due(self, offset: usize) -> bool
        ensures { result ≡ is_due_in self offset }
    {
        self.due == Some(offset)
    }
}

impl Player<'_> {
    // Plays span by span.
    fn play(&self, place: Place, part: &mut [f64]) -> Place
        ensures { Played self.now.settings self.now.score.now self.now.position place part.old part.new result }
    {
        let mut at = self.walker_at(place);
        let mut i = 0;
        while i < part.len() {
            let begun = self.begin(at, i);
            let end = self.span_end(begun, i, part.len());
            let state = self.play_span(begun.state, &mut part[i..end]);
            at = Walker { state, ..begun };
            i = end;
        }
        Place {
            state: at.state,
            next: at.next,
        }
    }

    // The walker at a place, with the position of its next record read.
    fn walker_at(&self, place: Place) -> Walker
        ensures { At self.now.score.now self.now.position place result }
    {
        let Place { state, next } = place;
        let p = score::position(self.score, next) as u64;
        if (score::count(self.score) <= next) | (p < self.position) {
            return Walker {
                state,
                next,
                due: None,
            };
        }
        let due = Some((p - self.position) as usize);
        Walker { state, next, due }
    }

    // Begins a sample: reduces both phases if a span begins here, and lets the records here act, one after the other.
    fn begin(&self, walker: Walker, offset: usize) -> Walker
        requires { Sees self.now.score.now self.now.position walker }
        ensures { At self.now.score.now self.now.position (begun_from self.now.settings self.now.score.now (self.now.position + offset) (place_in walker)) result }
    {
        let mut at = walker;
        if (self.into_block(offset) == 0) | walker.is_due(offset) {
            at.state = state::reduce(walker.state);
        }
        while at.is_due(offset) {
            let event = state::event_of(score::record_at(self.score, at.next));
            let state = state::act(self.settings, at.state, event);
            let next = at.next + 1;
            at = self.walker_at(Place { state, next });
        }
        at
    }

    // How many samples after a multiple of 64 a sample is.
    fn into_block(&self, offset: usize) -> u64
        ensures { result ≡ (self.now.position + offset) % 64 }
    {
        (self.position % BLOCK + offset as u64 % BLOCK) % BLOCK
    }

    // The offset of the next multiple of 64, of the next record, or of the end of the part, whichever comes first.
    fn span_end(&self, walker: Walker, offset: usize, length: usize) -> usize
        requires { offset < length }
        ensures { FirstAfter (begins_in walker self.now.position) offset length result }
    {
        let end = self.block_end(offset, length);
        match walker.due {
            Some(due) if offset < due && due < end => due,
            _ => end,
        }
    }

    // The offset of the next multiple of 64, or of the end of the part.
    fn block_end(&self, offset: usize, length: usize) -> usize
        requires { offset < length }
        ensures { FirstAfter (is_block_start self.now.position) offset length result }
    {
        let left = (BLOCK - self.into_block(offset)) as usize;
        offset + left.min(length - offset)
    }

    // One span: the waveform's inner loop fills the part, then each value is multiplied by the level and the velocity,
    // and last by the tremolo's factor.
    fn play_span(&self, state: State, part: &mut [f64]) -> State
        requires { length part.old ≤ 64 }
        ensures { SpanPlayed self.now.settings state part.old part.new result }
    {
        let settings = self.settings;
        let step = waveform::increment(state.frequency, settings.rate);
        let phase = filling::fill_in(self.wave, part, settings.waveform, state.phase, step, 1.0);
        let envelope = envelope::levels::scale(
            envelope::clamped(settings.adsr),
            envelope::sample_time(settings.rate),
            state.envelope,
            state.velocity,
            part,
        );
        let lfo = self.sway(state.lfo, part);
        State {
            phase,
            envelope,
            lfo,
            ..state
        }
    }

    // The tremolo over a span, and the LFO's phase after it: each sample is multiplied by the factor of its LFO's
    // value. The values are made with scale 1, as the oscillator's are: so the compiler makes one inner loop that knows
    // its scale. At depth 0 every factor is 1, and no value is made.
    fn sway(&self, phase: Radians, part: &mut [f64]) -> Radians
        requires { length part.old ≤ 64 }
        ensures { Swayed self.now.settings phase.0 part.old part.new result }
    {
        let lfo = self.settings.lfo;
        let step = waveform::increment(lfo.frequency, self.settings.rate);
        if tremolo::is_flat(lfo, step, phase) {
            return tremolo::advance(phase, step, part.len());
        }
        let mut values = [0.0; BLOCK as usize];
        let values = &mut values[..part.len()];
        let end = filling::fill_in(self.wave, values, lfo.waveform, phase, step, 1.0);
        tremolo::multiply(lfo.depth, values, part);
        end
    }
}
