// The score: records of ten bytes, as document 01 defines them ("The score"). A score is a slice of bytes; every public
// function takes any slice and reads bytes past its end as 0. Listing a score is the task of `listing`.
#![tactic(auto)]

ghost use Rattle.std.specs.Prelude.{◌≡◌, true, ◌&&◌, ◌<◌, ◌≤◌, eqb};
ghost use Rattle.answers.specs.Order.{first_of};
ghost use Rattle.score.specs.Record.{byte_at, word_at, position_at, kind_of, record_at, encode_of, count_of};
ghost use Rattle.score.specs.Inner.{mark_at, body_at, position_if, position_back};
ghost use Rattle.score.specs.Score.{field_limit, mark_right, kind_right, fields_right, all_right, in_order, faults_at, verdict_of, answer_of};
ghost use Rattle.score.specs.Below.{last_below, is_count_below, next_not_below};
ghost use Rattle.score.specs.Apart.{same_record, first_index, difference_of, same_end, last_difference_of, first_equal};

use answers::{Answer, Refusal, ScoreFault};

// The bytes of one record, and the largest number of records of a score.
const RECORD_SIZE: usize = 10;

const MOST_RECORDS: usize = 4096;

// What a record does: a key goes down, a key goes up, or all is reset.
#[derive(Clone, Copy)]
pub enum Kind {
    On = 1,
    Off = 2,
    Reset = 3,
}

impl From<u8> for Kind {
    ghost from_gives = { λ byte kind. kind ≡ kind_of byte };

    fn from(byte: u8) -> Kind {
        match byte {
            1 => Kind::On,
            2 => Kind::Off,
            _ => Kind::Reset,
        }
    }
}

#[derive(Clone, Copy)]
pub struct Record {
    pub position: u32,
    pub kind: Kind,
    pub note: u8,
    pub velocity: u8,
}

// 01's check of a score: done, or refused with the first fault.
pub fn check(score: &[u8]) -> Answer
    ensures { result ≡ answer_of score.now }
{
    judge(score).map_err(Refusal::Score)?;
    Ok(0)
}

// The first fault of a score, without an answer's number: a caller numbers it as a fault of an old or of a new score.
pub fn judge(score: &[u8]) -> Result<usize, ScoreFault>
    ensures { result ≡ verdict_of score.now }
{
    let n = count(score);
    if score.len() % RECORD_SIZE != 0 || MOST_RECORDS < n {
        return Err(ScoreFault::Length);
    }
    let mut before = 0;
    for i in 0..n {
        let here = word_at(score, i, 2);
        judge_in_order(score, i, before <= here)?;
        before = here;
    }
    Ok(n)
}

// The number of whole records; 1 to 9 bytes after the last whole record are ignored.
pub fn count(score: &[u8]) -> usize
    ensures { result ≡ count_of score.now }
{
    score.len() / RECORD_SIZE
}

// The position of record i: four bytes, low byte first.
#[tactic(auto, unfolding(crate::specs::Record::position_at))]
pub fn position(score: &[u8], i: usize) -> u32
    ensures { result ≡ position_at score.now i }
{
    u32::from_le_bytes([
        byte_at(score, i, 2),
        byte_at(score, i, 3),
        byte_at(score, i, 4),
        byte_at(score, i, 5),
    ])
}

// Record i as its bytes say: nothing is judged.
pub fn record_at(score: &[u8], i: usize) -> Record
    ensures { result ≡ record_at score.now i }
{
    Record {
        position: position(score, i),
        kind: Kind::from(byte_at(score, i, 6)),
        note: byte_at(score, i, 7),
        velocity: byte_at(score, i, 8),
    }
}

// The ten bytes of a record, the position low byte first.
pub fn encode(given: Record) -> [u8; 10]
    ensures { result ≡ encode_of given }
{
    let [a, b, c, d] = given.position.to_le_bytes();
    let kind = given.kind as u8;
    [0x56, 0x4E, a, b, c, d, kind, given.note, given.velocity, 0]
}

// Whether k records exist, the last of them below p and the next, if any, not. If in order: exactly k are below p.
#[tactic(auto, unfolding(crate::specs::Below::is_count_below))]
pub fn is_count_below(score: &[u8], k: u64, p: u64) -> bool
    ensures { result ≡ is_count_below score.now k p }
{
    let n = count(score) as u64;
    let next = k as usize;
    k <= n && last_below(score, next, p) && (n <= k || p <= position(score, next) as u64)
}

// From record `from` on, the index of the first record that is not below p: the number of records, or `from` where it
// is more, if there is none.
pub fn next_not_below(score: &[u8], from: usize, p: u64) -> usize
    ensures { result ≡ next_not_below score.now from p }
{
    let n = count(score);
    (from..n)
        .find(|&i| p <= word_at(score, i, 2) as u64)
        .unwrap_or(from.max(n))
}

// The first index at which the records differ or one score has ended.
fn first_index(old: &[u8], new: &[u8]) -> usize
    ensures { result ≡ first_index old.now new.now }
{
    let n = count(old).min(count(new));
    (0..n).find(|&i| !same_record(old, i, new, i)).unwrap_or(n)
}

// 01's P: the lower of the two positions at the first index, or the position in the score that has not ended there.
pub fn first_difference(old: &[u8], new: &[u8]) -> Option<u32>
    ensures { result ≡ difference_of old.now new.now }
{
    let i = first_index(old, new);
    match (position_if(old, i), position_if(new, i)) {
        (Some(p), Some(q)) => Some(p.min(q)),
        (p, q) => p.or(q),
    }
}

// How many records at the end are the same.
fn same_end(old: &[u8], new: &[u8]) -> usize
    ensures { result ≡ same_end old.now new.now }
{
    let m = count(old);
    let n = count(new);
    let most = m.min(n);
    (0..most)
        .find(|&k| !same_record(old, m - (k + 1), new, n - (k + 1)))
        .unwrap_or(most)
}

// From the end: the higher of the two positions at the last difference, or the position in the score that has another
// record there. Scores in order have the same records above it, and not from it on.
pub fn last_difference(old: &[u8], new: &[u8]) -> Option<u32>
    ensures { result ≡ last_difference_of old.now new.now }
{
    let k = same_end(old, new);
    match (position_back(old, k), position_back(new, k)) {
        (Some(p), Some(q)) => Some(p.max(q)),
        (p, q) => p.or(q),
    }
}

// The index of the first record with these ten bytes, or the number of records where none has them; so also where they
// are not ten.
pub fn first_equal(score: &[u8], bytes: &[u8]) -> usize
    ensures { result ≡ first_equal score.now bytes.now }
{
    let n = count(score);
    if bytes.len() != RECORD_SIZE {
        return n;
    }
    let mark = mark_at(bytes, 0);
    let body = body_at(bytes, 0);
    (0..n)
        .find(|&i| has_bytes(score, i, mark, body))
        .unwrap_or(n)
}

// The position of record i, if there is one.
#[tactic(auto, unfolding(crate::specs::Record::position_at))]
fn position_if(score: &[u8], i: usize) -> Option<u32>
    ensures { result ≡ position_if score.now i }
{
    (i < count(score)).then(|| word_at(score, i, 2))
}

// The position of the record that k records follow, if there is one.
#[tactic(auto, unfolding(crate::specs::Record::position_at))]
fn position_back(score: &[u8], k: usize) -> Option<u32>
    ensures { result ≡ position_back score.now k }
{
    let n = count(score);
    (k < n).then(|| word_at(score, n - (k + 1), 2))
}

// Whether k is 0 or record k - 1 is below p.
#[tactic(auto, unfolding(crate::specs::Below::last_below))]
fn last_below(score: &[u8], k: usize, p: u64) -> bool
    ensures { result ≡ last_below score.now k p }
{
    k == 0 || (position(score, k - 1) as u64) < p
}

// Byte j of record i, 0 past the end.
fn byte_at(score: &[u8], i: usize, j: usize) -> u8
    ensures { result ≡ byte_at score.now i j }
{
    let at = i.saturating_mul(RECORD_SIZE).saturating_add(j);
    score.get(at).copied().unwrap_or(0)
}

// Bytes j to j + 3 of record i, low byte first: one load, where no other code reads one of these bytes.
fn word_at(score: &[u8], i: usize, j: usize) -> u32
    requires i_bound { i < count_of score.now }
    requires j_bound { j ≤ 6 }
    ensures { result ≡ word_at score.now i j }
{
    let at = i * RECORD_SIZE + j;
    u32::from_le_bytes([score[at], score[at + 1], score[at + 2], score[at + 3]])
}

// The two bytes of the mark of record i, low byte first; 32 bits, since comparing 16 with a constant is slow.
fn mark_at(score: &[u8], i: usize) -> u32
    requires { i < count_of score.now }
    ensures { result ≡ mark_at score.now i }
{
    let at = i * RECORD_SIZE;
    u32::from_le_bytes([score[at], score[at + 1], 0, 0])
}

// The eight bytes after the mark of record i, low byte first.
fn body_at(score: &[u8], i: usize) -> u64
    requires { i < count_of score.now }
    ensures { result ≡ body_at score.now i }
{
    let at = i * RECORD_SIZE + 2;
    u64::from_le_bytes([
        score[at],
        score[at + 1],
        score[at + 2],
        score[at + 3],
        score[at + 4],
        score[at + 5],
        score[at + 6],
        score[at + 7],
    ])
}

// The first fault of record i, whose order is known: one test accepts a valid record, the others are judged in full.
fn judge_in_order(score: &[u8], i: usize, order: bool) -> Result<(), ScoreFault>
    requires i_bound { i < count_of score.now }
    requires order_value { order ≡ in_order score.now i }
    ensures { result ≡ first_of (faults_at score.now i) Err (Ok tt) }
{
    // no branch between the two, so that an accepted record runs straight through
    if order & passes_fast_check(score, i) {
        return Ok(());
    }
    judge_record(score, i)
}

// Fast path, true only for a valid record: the mark matches, and bytes 6 to 9 are a reset or, with the low seven bits
// of note and velocity masked off, kind 1 or 2.
fn passes_fast_check(score: &[u8], i: usize) -> bool
    requires { i < count_of score.now }
    ensures { result ≡ true → all_right score.now i ≡ true }
{
    let mark = mark_at(score, i);
    let last = word_at(score, i, 6);
    let kind = last & 0xFF8080FF;
    (mark == 0x4E56) & ((last == 3) | ((1 <= kind) & (kind <= 2)))
}

// The first fault of record i by 01's order of tests 2, 3, 4, 5, or that this one record is accepted.
#[tactic(auto, unfolding(crate::specs::Score::faults_at))]
fn judge_record(score: &[u8], i: usize) -> Result<(), ScoreFault>
    ensures { result ≡ first_of (faults_at score.now i) Err (Ok tt) }
{
    if !mark_right(score, i) {
        return Err(ScoreFault::Mark(i));
    }
    if !kind_right(score, i) {
        return Err(ScoreFault::Kind(i));
    }
    if !fields_right(score, i) {
        return Err(ScoreFault::Field(i));
    }
    if !in_order(score, i) {
        return Err(ScoreFault::Order(i));
    }
    Ok(())
}

#[tactic(auto, unfolding(crate::specs::Score::mark_right))]
fn mark_right(score: &[u8], i: usize) -> bool
    ensures { result ≡ mark_right score.now i }
{
    byte_at(score, i, 0) == 0x56 && byte_at(score, i, 1) == 0x4E
}

#[tactic(auto, unfolding(crate::specs::Score::kind_right))]
fn kind_right(score: &[u8], i: usize) -> bool
    ensures { result ≡ kind_right score.now i }
{
    matches!(byte_at(score, i, 6), 1..=3)
}

#[tactic(auto, unfolding(crate::specs::Score::fields_right))]
fn fields_right(score: &[u8], i: usize) -> bool
    ensures { result ≡ fields_right score.now i }
{
    let most = field_limit(byte_at(score, i, 6));
    byte_at(score, i, 7) <= most && byte_at(score, i, 8) <= most && byte_at(score, i, 9) == 0
}

// Note and velocity are at most 127, of a reset at most 0.
fn field_limit(kind: u8) -> u8
    ensures { result ≡ field_limit kind }
{
    if kind == 3 { 0 } else { 127 }
}

// Whether the position of record i is at or above that of the record before.
#[tactic(auto, unfolding(crate::specs::Score::in_order))]
fn in_order(score: &[u8], i: usize) -> bool
    ensures { result ≡ in_order score.now i }
{
    i == 0 || position(score, i - 1) <= position(score, i)
}

// Whether record i of s and record j of t, which exist, have the same ten bytes.
fn same_record(s: &[u8], i: usize, t: &[u8], j: usize) -> bool
    requires i_bound { i < count_of s.now }
    requires j_bound { j < count_of t.now }
    ensures { result ≡ same_record s.now i t.now j }
{
    let mark = mark_at(s, i) == mark_at(t, j);
    let rest = body_at(s, i) == body_at(t, j);
    mark & rest
}

// Whether record i, which exists, has this mark and these eight bytes after it: a search reads the sought ones once,
// and goes to the next record at the first that differs.
fn has_bytes(score: &[u8], i: usize, mark: u32, body: u64) -> bool
    requires { i < count_of score.now }
    ensures { result ≡ eqb (mark_at score.now i) mark && eqb (body_at score.now i) body }
{
    mark_at(score, i) == mark && body_at(score, i) == body
}
