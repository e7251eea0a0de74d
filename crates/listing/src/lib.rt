// What the lister prints for a score (01, "The score"), as bytes at the front of a buffer. Reading the score and
// writing the bytes to a file are the tasks of the program `lister`.
#![tactic(auto)]

ghost use Rattle.std.specs.Prelude.{◌≡◌, ◌+◌, ◌≤◌, length};
ghost use Rattle.listing.specs.Listing.{decimal_of, kind_word, line_of, accepted_text, refused_text};
ghost use Rattle.listing.specs.Outcome.{Listed};
ghost use Rattle.listing.specs.Inner.{HasRoom, Put};

use answers::{Numbers, Refusal, ScoreFault};
use score::{Kind, Record};

// Room for every listing: a first line of at most 13 bytes, then 4,096 lines of at most 25 bytes.
const ROOM: usize = 102413;

// Writes the listing to the front of out and returns its length; if out is shorter than ROOM, writes nothing and
// returns 0.
pub fn list(score: &[u8], out: &mut [u8]) -> usize
    ensures { Listed score.now out.old out.new result }
{
    if out.len() < ROOM {
        return 0;
    }
    let mut text = Text { out, len: 0 };
    match score::judge(score) {
        Ok(n) => text.put_accepted(score, n),
        Err(fault) => text.put_refused(fault),
    }
    text.len
}

// A text that grows from the front of a buffer.
#[derive(Drop)]
struct Text<'a> {
    out: &'a mut [u8],
    len: usize,
}

impl<'a> Text<'a> {
    // The number of records, and the line of each.
    fn put_accepted(&mut self, score: &[u8], n: usize)
        requires few { n ≤ 4096 }
        requires room { HasRoom 102413 self.old }
        ensures { Put (accepted_text score.now n) self.old self.new }
    {
        self.put(b"records ");
        self.put_number(n as u64);
        self.put(b"\n");
        for i in 0..n {
            self.put_line(score::record_at(score, i));
        }
    }

    fn put_refused(&mut self, fault: ScoreFault)
        requires { HasRoom 102413 self.old }
        ensures { Put (refused_text fault) self.old self.new }
    {
        let numbers = Numbers::from(Err(Refusal::Score(fault)));
        self.put(b"refused ");
        self.put_number(numbers.number as u64);
        self.put(b" ");
        self.put_number(numbers.place as u64);
        self.put(b"\n");
    }

    // The line of one record, at most 25 bytes.
    fn put_line(&mut self, given: Record)
        requires { HasRoom 25 self.old }
        ensures { Put (line_of given) self.old self.new × (self.new.len ≤ self.old.len + 25) }
    {
        self.put_number(given.position as u64);
        self.put(kind_word(given.kind));
        self.put_number(given.note as u64);
        self.put(b" ");
        self.put_number(given.velocity as u64);
        self.put(b"\n");
    }

    // The decimal digits of n.
    fn put_number(&mut self, n: u64)
        requires { HasRoom (length (decimal_of n)) self.old }
        ensures { Put (decimal_of n) self.old self.new }
    {
        let mut digits = [0u8; 20];
        let k = io::decimal(n, &mut digits);
        self.put(&digits[..k]);
    }

    fn put(&mut self, text: &[u8])
        requires { HasRoom (length text.now) self.old }
        ensures { Put text.now self.old self.new }
    {
        let end = self.len + text.len();
        let out = &mut *self.out;
        out[self.len..end].copy_from_slice(text);
        self.len = end;
    }
}

fn kind_word(kind: Kind) -> &'static [u8]
    ensures { result.now ≡ kind_word kind }
{
    match kind {
        Kind::On => b" on ",
        Kind::Off => b" off ",
        Kind::Reset => b" reset ",
    }
}
