// The script's language: what has been read of it, and what its commands work on.
use crate::compared;
use crate::halves::Pair;
use crate::scores::{Base, Score};
use crate::settings::{Settings, Sound};
use std::{io, mem};

// The words of an entry, and the samples of a section.
const ENTRY: usize = 13;

const SECTION: usize = 4096;

// Twice as many samples as an output has at most, twice the words of its shelf, and twice its sections.
const SAMPLES: usize = 40000;

const SHELVES: usize = 130;

const SECTIONS: usize = 10;

// The two numbers before a command, 0 where there are none, and the base that the last one is written in.
#[derive(Clone, Copy, Default)]
struct Given {
    first: u64,
    last: u64,
    base: Base,
}

// How much of each half a call is lent.
#[derive(Clone, Copy, Default)]
struct Sizes {
    samples: usize,
    magnitudes: usize,
    numbers: usize,
}

impl Sizes {
    // One magnitude and one number for each section.
    fn of_output(samples: usize) -> Sizes {
        let sections = samples.div_ceil(SECTION);
        Sizes {
            samples,
            magnitudes: sections,
            numbers: sections,
        }
    }

    // The words of the shelf.
    fn words(self) -> usize {
        self.samples.div_ceil(SECTION) * ENTRY
    }
}

// Which word of an entry was doctored, and its bits before.
#[derive(Clone, Copy, Default)]
struct Doctored {
    word: u64,
    bits: u64,
}

// What has been read of the script: the byte that ends a text or a remark, within one; the numbers, and what was chosen
// by them; whether the next call is on the second half. Then the scores, and what the calls write into.
#[derive(Drop)]
pub struct Trial {
    until: Option<u8>,
    given: Given,
    sound: Sound,
    sizes: Sizes,
    beside: bool,
    doctored: Doctored,
    old: Score,
    new: Score,
    samples: Pair<f64, SAMPLES>,
    shelves: Pair<u64, SHELVES>,
    magnitudes: Pair<f64, SECTIONS>,
    numbers: Pair<u64, SECTIONS>,
}

impl Trial {
    pub fn new() -> Trial {
        Trial {
            until: None,
            given: Given::default(),
            sound: Sound::Pad,
            sizes: Sizes::default(),
            beside: false,
            doctored: Doctored::default(),
            old: Score::new(),
            new: Score::new(),
            samples: Pair::new(0.0),
            shelves: Pair::new(0),
            magnitudes: Pair::new(0.0),
            numbers: Pair::new(0),
        }
    }

    // Outside of texts and remarks, what is neither a digit nor one of these marks is a command.
    pub fn read(&mut self, rt: &impl Print, byte: u8) -> io::Result<()> {
        if let Some(end) = self.until {
            return self.read_inside(rt, byte, end);
        }
        let base = self.given.base;
        if let Some(digit) = base.digit(byte) {
            self.given.last = base.with_digit(self.given.last, digit);
            return Ok(());
        }
        match byte {
            b'"' => self.until = Some(b'"'),
            b'#' => self.until = Some(b'\n'),
            b'x' => self.given.base = Base::Sixteen,
            b',' => {
                self.given = Given {
                    first: self.given.last,
                    ..Given::default()
                };
            }
            b'\n' => rt.write_all(b"\n")?,
            b' ' | b'_' => {}
            _ => self.obey(rt, byte)?,
        }
        Ok(())
    }

    // In a text a byte is printed, in a remark it is passed over.
    fn read_inside(&mut self, rt: &impl Print, byte: u8, end: u8) -> io::Result<()> {
        if byte == end {
            self.until = None;
            Ok(())
        } else if end == b'"' {
            rt.write_all(&[byte])
        } else {
            Ok(())
        }
    }

    // Does what a command says; after it the numbers are 0.
    fn obey(&mut self, rt: &impl Print, letter: u8) -> io::Result<()> {
        let Given { first, last, .. } = mem::take(&mut self.given);
        match letter {
            b'G' => self.sound = Sound::from(last),
            b'N' => self.sizes = Sizes::of_output(last as usize),
            b'L' => {
                self.sizes.magnitudes = first as usize;
                self.sizes.numbers = last as usize;
            }
            b'B' => self.beside = true,
            b'O' => {
                self.old.copy_from(&self.new);
                self.new.clear();
            }
            b'+' if first > 0 => self.new.add(first, last),
            b'+' => self.new.add(last, 1),
            b'D' => {
                let bits = self.doctor(first, last);
                self.doctored = Doctored { word: first, bits };
            }
            b'U' => {
                let Doctored { word, bits } = self.doctored;
                self.doctor(word, bits);
            }
            b'S' => self.spoil(last as usize),
            b'P' => self.tell_word(rt, last as usize)?,
            b'Q' => self.tell_peak(rt, last as usize)?,
            b'W' => self.tell_both(rt)?,
            _ => self.call(rt, letter, first, last)?,
        }
        Ok(())
    }

    // Writes bits into a word of both shelves; the bits that were there before, 0 where there is no such word.
    fn doctor(&mut self, word: u64, bits: u64) -> u64 {
        self.shelves.replace(word as usize, bits).unwrap_or(0)
    }

    // Writes rubbish into a sample and, of its section, into the first word of the entry and into the peak.
    fn spoil(&mut self, sample: usize) {
        let section = sample / SECTION;
        spoil_at(
            self.samples.as_mut_slice(),
            sample,
            self.shelves.as_mut_slice(),
            section * ENTRY,
        );
        spoil_at(
            self.magnitudes.as_mut_slice(),
            section,
            self.numbers.as_mut_slice(),
            section,
        );
    }

    // Makes a call on the first half; on the second half where it is M, or after B; after B nothing is told.
    fn call(&mut self, rt: &impl Print, letter: u8, first: u64, last: u64) -> io::Result<()> {
        let said = self.said(letter, first, last);
        if mem::take(&mut self.beside) {
            return Ok(());
        }
        compared::tell(rt, said, self.samples.halves(self.sizes.samples))
    }

    // What the call said; 0 for a letter that is no command.
    fn said(&mut self, letter: u8, first: u64, last: u64) -> u64 {
        let s = Settings::from(self.sound);
        let sizes = self.sizes;
        let second = self.beside | (letter == b'M');
        let old = self.old.as_slice();
        let new = self.new.as_slice();
        let out = self.samples.lend(second, sizes.samples);
        let shelf = self.shelves.lend(second, sizes.words());
        let magnitudes = self.magnitudes.lend(second, sizes.magnitudes);
        let numbers = self.numbers.lend(second, sizes.numbers);
        match letter {
            b'C' => ffi::gav_check_score(new),
            b'R' => ffi::gav_render(
                8000, s.code, 0.5, 0.01, s.decay, s.sustain, 5.0, 3, 0.5, 5.0, s.depth, s.joined,
                new, out, shelf, magnitudes, numbers,
            ),
            b'E' => ffi::gav_rerender(
                8000, s.code, 0.5, 0.01, s.decay, s.sustain, 5.0, 3, 0.5, 5.0, s.depth, s.joined,
                old, new, out, shelf, magnitudes, numbers,
            ),
            b'K' => continued(s, new, &mut at_rest(last), first, out),
            b'M' => {
                let start = SECTION.min(out.len());
                continued(s, new, &mut entry_of(shelf), 4096, &mut out[start..])
            }
            _ => 0,
        }
    }

    // Prints a word of the first shelf.
    fn tell_word(&self, rt: &impl Print, at: usize) -> io::Result<()> {
        match self.shelves.get(at) {
            Some(word) => print!(rt; "{word:016x}"),
            None => Ok(()),
        }
    }

    // Prints a peak of the first half, where it has so many.
    fn tell_peak(&self, rt: &impl Print, at: usize) -> io::Result<()> {
        let lent = self.sizes.magnitudes.min(self.sizes.numbers);
        match (self.magnitudes.get(at), self.numbers.get(at)) {
            (Some(magnitude), Some(number)) if at < lent => compared::tell_peak(
                rt, magnitude, number,
            ),
            _ => Ok(()),
        }
    }

    // How far samples and shelves differ between the halves, then how far the summaries do.
    fn tell_both(&self, rt: &impl Print) -> io::Result<()> {
        let sizes = self.sizes;
        compared::tell_all(
            rt,
            self.samples.halves(sizes.samples),
            "samples",
            self.shelves.halves(sizes.words()),
            "words",
        )?;
        print!(rt; "; ")?;
        compared::tell_all(
            rt,
            self.magnitudes.halves(sizes.magnitudes),
            "magnitudes",
            self.numbers.halves(sizes.numbers),
            "numbers",
        )
    }
}

fn spoil_at(floats: &mut [f64], float: usize, words: &mut [u64], word: usize) {
    if float < floats.len() && word < words.len() {
        floats[float] = 100000.0;
        words[word] = 1;
    }
}

fn continued(s: Settings, score: &[u8], state: &mut [u64], position: u64, part: &mut [f64]) -> u64 {
    ffi::gav_continue(
        8000, s.code, 0.5, 0.01, s.decay, s.sustain, 5.0, 3, 0.5, 5.0, s.depth, s.joined, score,
        state, position, part,
    )
}

// The fresh state, but with so many records acted.
fn at_rest(acted: u64) -> [u64; ENTRY] {
    let mut state = [0u64; ENTRY];
    ffi::gav_fresh(&mut state);
    state[5] = 255 + 65536 * (acted % 8);
    state
}

// The words of entry 1 of a shelf; zeros where it has none.
fn entry_of(shelf: &[u64]) -> [u64; ENTRY] {
    shelf.as_chunks().0.get(1).copied().unwrap_or([0; ENTRY])
}
