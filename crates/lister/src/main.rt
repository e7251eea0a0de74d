// The lister: reads a score from standard input and prints it, or prints the one line that refuses it. It reads at most
// 40,961 bytes: a score of 4,096 records has 40,960, and a longer one is refused for its length.
#![tactic(auto)]

ghost use Rattle.std.specs.Prelude.{◌≤◌, IfOk, length};

use std::io;
use std::io::Read;

fn main(rt: HostRuntime) {
    let mut score = [0u8; 40961];
    match read_score(&mut rt.stdin(), &mut score) {
        Ok(n) => print(&rt, &score[..n]),
        Err(_) => complain(&rt, "lister: cannot read standard input\n"),
    }
}

// Reads until the buffer is full or the input ends; how many bytes were read. Nothing is known of the buffer where a
// read fails.
fn read_score(input: &mut impl Read, buf: &mut [u8]) -> io::Result<usize>
    ensures { IfOk result (λ n. n ≤ length buf.new) }
{
    let mut n = 0;
    while n < buf.len() {
        match input.read(&mut buf[n..])? {
            0 => break,
            k => n += k,
        }
    }
    Ok(n)
}

// Writes the listing of the score to standard output.
fn print(rt: &(impl Print + Eprint), score: &[u8]) {
    let mut text = [0u8; 102413];
    let k = listing::list(score, &mut text);
    if rt.write_all(&text[..k]).is_err() {
        complain(rt, "lister: cannot write to standard output\n");
    }
}

// A complaint that cannot be written is let go.
fn complain(rt: &impl Eprint, text: &str) {
    let _ = rt.eprint(text);
}
