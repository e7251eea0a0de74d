// What is told of a call: what it said, and how many samples or words differ between the halves of a pair, by their
// bits; and a check number of all samples and words. A summary is told the same way, its magnitudes as samples and its
// numbers as words.
use crate::halves::Halves;
use std::io;

// Number, place, count; then how many samples of the first half differ from those of the second.
pub fn tell(rt: &impl Print, said: u64, samples: Halves<'_, f64>) -> io::Result<()> {
    let number = said % 256;
    let place = said / 256 % 0x100_0000;
    let count = said / 0x1_0000_0000;
    let unlike = samples.unlike();
    print!(rt; "{number} {place} {count}, {unlike} differ; ")
}

// How many samples and words differ, or magnitudes and numbers of a summary, and the check number of all of them.
pub fn tell_all(
    rt: &impl Print,
    floats: Halves<'_, f64>,
    name_floats: &str,
    words: Halves<'_, u64>,
    name_words: &str,
) -> io::Result<()> {
    let unlike_floats = floats.unlike();
    let unlike_words = words.unlike();
    let check = floats.mixed(words.mixed(0));
    print!(rt;
        "{unlike_floats} {name_floats} and {unlike_words} {name_words} differ; check number {check}"
    )
}

// A peak: the bits of its magnitude, and the number of the sample where it stands.
pub fn tell_peak(rt: &impl Print, magnitude: f64, number: u64) -> io::Result<()> {
    let bits = words::f64_bits(magnitude);
    print!(rt; " {bits:016x} at {number};")
}
