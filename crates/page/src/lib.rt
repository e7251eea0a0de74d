// A page of edits, made at once: each edit of a list on the score that the edits before it leave, in a room of its own;
// then one re-render of the old score into the new one; last, where nothing was refused, the new score is written to
// the front of the lent buffer. 02, R-6. A list that is refused leaves everything as it came, so the edits are made in
// the room and not in the buffer.
#![tactic(auto)]

ghost use Rattle.std.specs.Prelude.{◌≡◌, List, ℕ, ◌++◌, map, ◌≤◌, ◌<◌, ltb, length, take};
ghost use Rattle.answers.specs.Order.{unless, first_of};
ghost use Rattle.answers.specs.declared.Refusal.TheVariants.{EditFrame, NotThere, Full, Page, Edit};
ghost use Rattle.score.specs.Record.{count_of};
ghost use Rattle.score.specs.Apart.{first_equal};
ghost use Rattle.sections.specs.Lending.{held};
ghost use Rattle.page.specs.Page.{edits_in, frame_right, record_of, record_faults, inserted_of, removed_of, edited_by, new_score_of, edit_refusals, refusals_from, page_fits, rewrites_in, rewritten_in, edit_of};
ghost use Rattle.page.specs.Inner.{IsAccepted, Steps, placed_at, paged_of};

use answers::{Answer, Refusal, ScoreFault};
use sections::Buffers;
use state::Settings;
use std::marker::Model;

// The bytes of an edit, of a record, and of the largest score.
const EDIT_SIZE: usize = 14;

const RECORD_SIZE: usize = 10;

const MOST_BYTES: usize = 40960;

// The answer of the re-render, and the bytes of the new score; a refusal has 0 bytes.
#[derive(Clone, Copy)]
pub struct Paged {
    pub answer: Answer,
    pub bytes: usize,
}

// The edits of a list, made one after the other on the old score, and one re-render of the old score into the new one;
// the new score is written to the front of `new_score`.
pub fn edit(
    settings: Settings,
    old: &[u8],
    edits: &[u8],
    lent: &mut Buffers,
    new_score: &mut [u8],
) -> Paged
    ensures { rewrites_in result lent.new new_score.new ≡ rewritten_in lent.old (edit_of settings old.now edits.now (held lent.old) new_score.old) }
{
    match edited(settings, old, edits, lent, new_score) {
        Ok(paged) => paged,
        Err(why) => Paged {
            answer: Err(why),
            bytes: 0,
        },
    }
}

// The call up to its first refusal.
fn edited(
    settings: Settings,
    old: &[u8],
    edits: &[u8],
    lent: &mut Buffers,
    new_score: &mut [u8],
) -> Result<Paged, Refusal>
    ensures { rewrites_in (paged_of result) lent.new new_score.new ≡ rewritten_in lent.old (edit_of settings old.now edits.now (held lent.old) new_score.old) }
{
    judging::judged(settings, lent.fits(), old, Ok(0))?;
    judged_page(edits, new_score)?;
    let mut made = Room {
        bytes: [0; MOST_BYTES],
        len: 0,
    };
    made.hold(old);
    made.apply(edits)?;
    let new = made.score();
    let count = rerender::rerender(settings, old, new, lent)?;
    new_score[..new.len()].copy_from_slice(new);
    Ok(Paged {
        answer: Ok(count),
        bytes: new.len(),
    })
}

// 36, or done.
fn judged_page(edits: &[u8], new_score: &[u8]) -> Result<(), Refusal>
    ensures { result ≡ first_of (unless (page_fits edits.now new_score.now) Page) Err (Ok tt) }
{
    let fits = edits.len() % EDIT_SIZE == 0 && new_score.len() == MOST_BYTES;
    answers::value_if(fits, Refusal::Page, ())
}

// A score that is edited, at the front of a room of its own.
#[derive(Drop)]
struct Room {
    bytes: [u8; MOST_BYTES],
    len: usize,
}

impl Model for Room {
    ghost Value = { List ℕ };

    ghost view = { λ r. take r.len r.bytes };

    ghost invariant = { λ r. r.len ≤ 40960 };
}

impl Room {
    // The room holds a score. It is made where it is used: handed back it would take its bytes a second time.
    fn hold(&mut self, score: &[u8])
        requires { IsAccepted score.now }
        ensures { self.new ≡ score.now }
    {
        let len = score.len();
        self.bytes[..len].copy_from_slice(score);
        self.len = len;
    }

    fn score(&self) -> &[u8]
        ensures { result.now ≡ self.now }
    {
        &self.bytes[..self.len]
    }

    // All edits of a list, one after the other.
    fn apply(&mut self, edits: &[u8]) -> Result<(), Refusal>
        requires { IsAccepted self.old }
        ensures { Steps (refusals_from self.old edits.now (edits_in edits.now) 0) (new_score_of self.old edits.now) result self.new }
    {
        for i in 0..edits.len() / EDIT_SIZE {
            self.apply_one(edits, i)?;
        }
        Ok(())
    }

    // Edit i of a list.
    fn apply_one(&mut self, edits: &[u8], i: usize) -> Result<(), Refusal>
        requires i_bound { i < edits_in edits.now }
        requires accepted { IsAccepted self.old }
        ensures { Steps (edit_refusals self.old edits.now i) (edited_by self.old edits.now i) result self.new }
    {
        judged_edit(edits, i)?;
        let at = i * EDIT_SIZE;
        let given = &edits[at + 4..at + EDIT_SIZE];
        if edits[at + 2] == 1 {
            self.insert(given, i)
        } else {
            self.remove(given, i)
        }
    }

    // The given record after all records of the score at its position or lower; 35 where the score is full.
    fn insert(&mut self, given: &[u8], i: usize) -> Result<(), Refusal>
        requires given_len { length given.now ≡ 10 }
        requires accepted { IsAccepted self.old }
        ensures { Steps (unless (ltb (count_of self.old) 4096) (Full i)) (inserted_of self.old given.now) result self.new }
    {
        let len = self.len;
        if len == MOST_BYTES {
            return Err(Refusal::Full(i));
        }
        let above = score::position(given, 0) as u64 + 1;
        let at = score::next_not_below(&self.bytes[..len], 0, above) * RECORD_SIZE;
        let bytes = &mut self.bytes[..];
        bytes.copy_within(at..len, at + RECORD_SIZE);
        bytes[at..at + RECORD_SIZE].copy_from_slice(given);
        self.len = len + RECORD_SIZE;
        Ok(())
    }

    // The first record of the score with the given bytes left out; 34 where none has them.
    fn remove(&mut self, given: &[u8], i: usize) -> Result<(), Refusal>
        requires { IsAccepted self.old }
        ensures { Steps (unless (ltb (first_equal self.old given.now) (count_of self.old)) (NotThere i)) (removed_of self.old (first_equal self.old given.now)) result self.new }
    {
        let len = self.len;
        let at = score::first_equal(&self.bytes[..len], given) * RECORD_SIZE;
        if at == len {
            return Err(Refusal::NotThere(i));
        }
        let bytes = &mut self.bytes[..];
        bytes.copy_within(at + RECORD_SIZE..len, at);
        self.len = len - RECORD_SIZE;
        Ok(())
    }
}

// 33, or a fault of the record of edit i.
fn judged_edit(edits: &[u8], i: usize) -> Result<(), Refusal>
    requires { i < edits_in edits.now }
    ensures { result ≡ first_of (unless (frame_right edits.now i) (EditFrame i) ++ map Edit (record_faults (record_of edits.now i) i)) Err (Ok tt) }
{
    if !frame_right(edits, i) {
        return Err(Refusal::EditFrame(i));
    }
    let at = i * EDIT_SIZE;
    let judged = score::judge(&edits[at + 4..at + EDIT_SIZE]);
    judged.map_err(|fault| Refusal::Edit(placed_at(fault, i)))?;
    Ok(())
}

// Whether mark, code and filler of edit i are right.
#[tactic(auto, unfolding(crate::specs::Page::frame_right))]
fn frame_right(edits: &[u8], i: usize) -> bool
    requires { i < edits_in edits.now }
    ensures { result ≡ frame_right edits.now i }
{
    let at = i * EDIT_SIZE;
    edits[at] == 0x45
        && edits[at + 1] == 0x44
        && matches!(edits[at + 2], 1 | 2)
        && edits[at + 3] == 0
}

// A record's fault, with another place.
fn placed_at(fault: ScoreFault, i: usize) -> ScoreFault
    ensures { result ≡ placed_at fault i }
{
    match fault {
        ScoreFault::Length => ScoreFault::Length,
        ScoreFault::Mark(_) => ScoreFault::Mark(i),
        ScoreFault::Kind(_) => ScoreFault::Kind(i),
        ScoreFault::Field(_) => ScoreFault::Field(i),
        ScoreFault::Order(_) => ScoreFault::Order(i),
    }
}
