// The floor of a float of either width ("`floor` is worked out from the bits", 01), and two tests: that an f64 is in a
// range, and that a float is finite. proofs/ has the laws of float arithmetic that the other crates cite, most of them
// for both widths at once. Left out: all other arithmetic, which is the language's own, and the C library.
#![tactic(auto)]

ghost use Rattle.std.specs.Prelude.{◌≡◌, Bool, ◌<◌, ◌≤◌, ◌^◌, T};
ghost use Rattle.std.specs.Float.{Float, Format, binary32, binary64};
ghost use Rattle.std.specs.Float.Ieee.{fits};
ghost use Rattle.std.specs.Float.Ieee.Scale.{finite};
ghost use Rattle.floats.specs.Floor.{floor_of, whole_of};
ghost use Rattle.floats.specs.Range.{within};

use std::num;

// A float of either width.
pub trait Binary {
    ghost format: { Format };

    // The number that it is, as clauses on floats see it, and the float that is a number.
    ghost number: { Self → Float };

    ghost of_number: { Float → Self };

    // An f64 holds every f32, so whether an f32 is finite is asked of an f64.
    fn widened(self) -> f64
        ensures { (result ≡ number self) × T (fits format result) };

    // Its floor. From the bits, each width by itself: through an f64 that of an f32 took up to three times as long.
    fn floored(self) -> Self
        ensures { result ≡ of_number (floor_of format (number self)) };
}

impl Binary for f32 {
    ghost format = { binary32 };

    ghost number = { λ x. x };

    ghost of_number = { λ x. x };

    fn widened(self) -> f64 {
        num::f32_to_f64_with_nan(self)
    }

    fn floored(self) -> f32 {
        floor_f32(self)
    }
}

impl Binary for f64 {
    ghost format = { binary64 };

    ghost number = { λ x. x };

    ghost of_number = { λ x. x };

    fn widened(self) -> f64 {
        self
    }

    fn floored(self) -> f64 {
        floor_f64(self)
    }
}

// Whether low <= x <= high; false for a NaN.
pub fn is_within(low: f64, high: f64, x: f64) -> bool
    ensures { result ≡ within low high x }
{
    (low <= x) & (x <= high)
}

// Whether x is neither an infinity nor a NaN.
pub fn is_finite<F: Binary>(x: F) -> bool
    ensures { result ≡ finite (F.number x) }
{
    let x = x.widened();
    (-f64::MAX <= x) & (x <= f64::MAX)
}

// The greatest whole number not above x, with the sign of x: floor(-0) is -0. An infinity or a NaN comes back as it is.
pub fn floor<F: Binary>(x: F) -> F
    ensures { result ≡ F.of_number (floor_of F.format (F.number x)) }
{
    x.floored()
}

fn floor_f32(x: f32) -> f32
    ensures { result ≡ floor_of binary32 x }
{
    if x != x {
        return x;
    }
    let bits = f32::to_bits(x);
    let size = bits % 0x8000_0000;
    // |x| >= 2^23: the last digit counts 1 or more, so x is whole, or it is an infinity
    if size >= 0x4b00_0000 {
        return x;
    }
    if size == 0 {
        return x;
    }
    let negative = bits >= 0x8000_0000;
    // |x| < 1
    if size < 0x3f80_0000 {
        if negative {
            return -1.0;
        }
        return 0.0;
    }
    let field = size / 0x80_0000;
    let digits = 0x80_0000 + size % 0x80_0000;
    let n = whole(digits as u64, 150 - field, negative);
    if negative { -(n as f32) } else { n as f32 }
}

// The floor of an f64: by comparisons inside 0 < x < 2, where `polyblep` needs it most, and elsewhere from the bits.
fn floor_f64(x: f64) -> f64
    ensures { result ≡ floor_of binary64 x }
{
    if (0.0 < x) & (x < 2.0) {
        if x < 1.0 {
            return 0.0;
        }
        return 1.0;
    }
    floor_by_bits(x)
}

fn floor_by_bits(x: f64) -> f64
    ensures { result ≡ floor_of binary64 x }
{
    if x != x {
        return x;
    }
    let bits = f64::to_bits(x);
    let size = bits % 0x8000_0000_0000_0000;
    // |x| >= 2^52: the last digit counts 1 or more, so x is whole, or it is an infinity
    if size >= 0x4330_0000_0000_0000 {
        return x;
    }
    if size == 0 {
        return x;
    }
    let negative = bits >= 0x8000_0000_0000_0000;
    // |x| < 1
    if size < 0x3ff0_0000_0000_0000 {
        if negative {
            return -1.0;
        }
        return 0.0;
    }
    let field = size / 0x10_0000_0000_0000;
    let digits = 0x10_0000_0000_0000 + size % 0x10_0000_0000_0000;
    let n = whole(digits, (1075 - field) as u32, negative);
    if negative { -(n as f64) } else { n as f64 }
}

// s / 2^k rounded to a whole number: up where the float is negative, since its floor lies farther from 0, else down.
fn whole(s: u64, k: u32, negative: bool) -> u64
    requires { (s < 2 ^ 53) × (k < 53) }
    ensures { (result ≡ whole_of negative s (2 ^ k)) × (result ≤ s) }
{
    if negative {
        (s + ((1u64 << k) - 1)) >> k
    } else {
        s >> k
    }
}
