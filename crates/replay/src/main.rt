// Replays the original's answers. Standard input is parts, each a head and its rows (oracle/README.md describes them);
// for each part a line is printed: how many rows there are, how many are equal, and for a part that measures a sine the
// largest difference. A row that is cut short, names no call or is missing counts as unequal; a head that names no part
// ends the replay.
#![tactic(auto)]

ghost use Rattle.std.specs.Prelude.{◌≤◌, IfOk, length};

use parts::Part;
use std::io;
use std::io::Read;

mod block_rows;
mod envelope_rows;
mod fields;
mod lane_rows;
mod nearness;
mod parts;
mod phase_rows;
mod pitch_rows;
mod polyblep_rows;
mod render_rows;
mod sine_rows;
mod summary;
mod voice_rows;
mod waveform_rows;

// The bytes of a head: a name in eight bytes, padded with zeros, and how many rows follow.
const HEAD: usize = 16;

// The most words that follow the first bytes of a row.
const MOST: u64 = 25174;

// The bytes of the longest row: the first ones of a render and the most words.
const LONGEST: usize = 201752;

fn main(rt: HostRuntime) -> io::Result<()> {
    let mut row = [0u8; LONGEST];
    replay(&rt, &mut rt.stdin(), &mut row)
}

// Replays part after part, and says so where a head names none; at the end of the input it prints nothing. A proved
// loop has to end, and nothing says that the input does: the loop counts its turns up to 2^64 - 1.
fn replay(rt: &impl Print, input: &mut impl Read, row: &mut [u8; LONGEST]) -> io::Result<()> {
    for _ in 0..u64::MAX {
        let got = read_full(input, &mut row[..HEAD])?;
        match Part::try_from(words::u64_at(row, 0)) {
            Ok(part) if got == HEAD => replay_part(rt, input, part, row)?,
            _ if got == 0 => return Ok(()),
            _ => return rt.write_all(b"no part\n"),
        }
    }
    Ok(())
}

// Replays the rows of a part; its line is begun before them and ended after them.
fn replay_part(
    rt: &impl Print,
    input: &mut impl Read,
    part: Part,
    row: &mut [u8; LONGEST],
) -> io::Result<()> {
    let rows = words::u64_at(row, 8);
    print!(rt; "{part}: {rows} rows, ")?;
    let mut equal = 0;
    let mut farthest = 0.0;
    for _done in 0..rows {
        if !is_read(input, part, row)? {
            break;
        }
        let found = part.compared(row);
        farthest = nearness::larger(found.farthest, farthest);
        equal += u64::from(found.equal);
    }
    part.tell(rt, equal, farthest)
}

// Reads a row: its first bytes, then as many words as those say, none where those are too many; whether all of the row
// was there.
fn is_read(input: &mut impl Read, part: Part, row: &mut [u8; LONGEST]) -> io::Result<bool> {
    let first = part.first();
    if read_full(input, &mut row[..first])? < first {
        return Ok(false);
    }
    let more = part.more(row);
    if more > MOST {
        return Ok(false);
    }
    let end = first + 8 * more as usize;
    Ok(read_full(input, &mut row[first..end])? == end - first)
}

// Reads until the buffer is full or the input ends; how many bytes were read. Nothing is known of the buffer where a
// read fails.
fn read_full(input: &mut impl Read, buf: &mut [u8]) -> io::Result<usize>
    ensures { IfOk result (λ n. n ≤ length buf.new) }
{
    let mut n = 0;
    while n < buf.len() {
        match input.read(&mut buf[n..])? {
            0 => break,
            k => n += k,
        }
    }
    Ok(n)
}
