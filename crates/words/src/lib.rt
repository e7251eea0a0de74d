// Numbers in bytes, low byte first, and floats as their bits, NaN included: how rows of test vectors and the words of a
// shelf are read. Left out: writing bytes.
#![tactic(auto)]

ghost use Rattle.std.specs.Prelude.{◌≡◌, ◌+◌, ◌≤◌, ◌<◌, length, take, drop, MatchOption};
ghost use Rattle.std.specs.Float.{binary32, binary64};
ghost use Rattle.std.specs.Float.Ieee.{of_bits, to_bits};
ghost use Rattle.words.specs.Words.{word_of, word_at};

use std::num;

// Four bytes as one number, low byte first.
pub fn word_of(a: u8, b: u8, c: u8, d: u8) -> u32
    ensures { result ≡ word_of a b c d }
{
    u32::from_le_bytes([a, b, c, d])
}

// The four bytes from index `at` on as a number, low byte first; 0 where they pass the end of the slice.
pub fn u32_at(bytes: &[u8], at: usize) -> u32
    ensures { result ≡ word_at 4 bytes.now at }
{
    match bytes_at::<4>(bytes, at) {
        Some(word) => u32::from_le_bytes(*word),
        None => 0,
    }
}

// The eight bytes from index `at` on as a number, low byte first; 0 where they pass the end of the slice.
pub fn u64_at(bytes: &[u8], at: usize) -> u64
    ensures { result ≡ word_at 8 bytes.now at }
{
    match bytes_at::<8>(bytes, at) {
        Some(word) => u64::from_le_bytes(*word),
        None => 0,
    }
}

// The N bytes from index `at` on; none where they pass the end of the slice.
fn bytes_at<const N: usize>(bytes: &[u8], at: usize) -> Option<&[u8; N]>
    ensures { MatchOption result (length bytes.now < at + N) (λ word. (at + N ≤ length bytes.now) × (word.now ≡ take N (drop at bytes.now))) }
{
    bytes.get(at..)?.first_chunk()
}

// The f32 with these bits; the bits of any NaN give the NaN 0.0 / 0.0.
pub fn f32_of(bits: u32) -> f32
    ensures { result ≡ of_bits binary32 bits }
{
    num::f32_from_bits_with_nan(bits)
}

// The bits of an f32; 7fc00000 for any NaN.
pub fn f32_bits(x: f32) -> u32
    ensures { result ≡ to_bits binary32 x }
{
    num::f32_to_bits_with_nan(x)
}

// The f64 with these bits; the bits of any NaN give the NaN 0.0 / 0.0.
pub fn f64_of(bits: u64) -> f64
    ensures { result ≡ of_bits binary64 bits }
{
    num::f64_from_bits_with_nan(bits)
}

// The bits of an f64; 7ff8000000000000 for any NaN.
pub fn f64_bits(x: f64) -> u64
    ensures { result ≡ to_bits binary64 x }
{
    num::f64_to_bits_with_nan(x)
}
