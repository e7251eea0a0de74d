// What 01 and 02 say to run, and what the voice exists for: the falling pad. Standard input is the script, whose head
// tells its language; the calls are those that C makes. For each call is printed what the call said, as number, place
// and count, and how many samples differ from what they should be. Where samples and shelf are compared, the summary is
// compared too, by its bits, with a check number of its own. What is proved for all input, chains of edits and of parts
// included, is not run again.
#![tactic(auto)]

ghost use Rattle.std.specs.Prelude.{◌≤◌, IfOk, length};

use std::io;
use std::io::Read;
use trial::Trial;

mod compared;
mod halves;
mod scores;
mod settings;
mod trial;

// The script has fewer bytes.
const SCRIPT: usize = 16384;

fn main(rt: HostRuntime) -> io::Result<()> {
    let mut script = [0u8; SCRIPT];
    let size = read_full(&mut rt.stdin(), &mut script)?;
    let mut trial = Trial::new();
    for byte in &script[..size] {
        trial.read(&rt, *byte)?;
    }
    Ok(())
}

// Reads until the buffer is full or the input ends; how many bytes were read. Nothing is known of the buffer where a
// read fails.
fn read_full(input: &mut impl Read, buf: &mut [u8]) -> io::Result<usize>
    ensures { IfOk result (λ n. n ≤ length buf.new) }
{
    let mut n = 0;
    while n < buf.len() {
        match input.read(&mut buf[n..])? {
            0 => break,
            k => n += k,
        }
    }
    Ok(n)
}
