// The summary that a render or a re-render keeps, held to the samples that the call has left, section after section. It
// shares nothing with the crate `peaks`: a magnitude is the bits without the sign, a whole number, and of two finite
// samples the one with the larger magnitude has the larger bits.
use crate::fields;
use std::ops::Range;

// The bit of the sign.
const SIGN: u64 = 0x8000_0000_0000_0000;

// The samples of a section.
const SECTION: usize = 4096;

// Whether every section that lies in what the call has made has its largest magnitude and the number of the first
// sample where it stands; any other section what it held before the call.
pub fn is_right(samples: &[f64], made: Range<usize>, magnitudes: &[f64], numbers: &[u64]) -> bool {
    samples
        .chunks(SECTION)
        .zip(magnitudes)
        .zip(numbers)
        .enumerate()
        .all(|(k, ((section, magnitude), number))| {
            let start = SECTION.wrapping_mul(k);
            let end = start.wrapping_add(section.len());
            let told = (words::f64_bits(*magnitude), *number);
            if (made.start <= start) & (end <= made.end) {
                let (largest, first) = peak_of(section);
                told == (largest, start.wrapping_add(first) as u64)
            } else {
                told == (words::f64_bits(fields::UNWRITTEN), fields::UNKEPT)
            }
        })
}

// The bits of a section's largest magnitude, and the place of the first sample that has it.
fn peak_of(section: &[f64]) -> (u64, usize) {
    section
        .iter()
        .enumerate()
        .fold((0, 0), |(largest, first), (i, sample)| {
            let magnitude = words::f64_bits(*sample) % SIGN;
            if largest < magnitude {
                (magnitude, i)
            } else {
                (largest, first)
            }
        })
}
