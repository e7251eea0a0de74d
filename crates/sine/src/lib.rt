// Sine by a table of a quarter wave, read between its points (01, "Pitch and sine"; specs/Sine.antt). The argument is
// in cycles, from 0 to 1. The original's `sin` and its table of f32 are not ported.
#![tactic(auto)]

ghost use Rattle.std.specs.Prelude.{◌≡◌, ◌≤◌, ◌<◌, T, List, ℕ, get_or};
ghost use Rattle.std.specs.Float.{Float};
ghost use Rattle.floats.specs.Range.{within};
ghost use Rattle.floats.specs.Double.{zero64};
ghost use Rattle.sine.specs.Table.{quarter};
ghost use Rattle.sine.specs.Sine.{steps, whole_part, float, signed_of, line_of, between_of, point_of, reading_in, reading_of, sine_of};
ghost use Rattle.sine.specs.Whole.{whole_wave, whole_line, whole_point_of, whole_reading};
ghost use Rattle.sine.specs.Inner.{Unfolded};

use answers::Refusal;

mod table;

// The sine of u cycles, for a u from 0 to 1.
pub fn sine(u: f64) -> Result<f64, Refusal>
    ensures { result ≡ sine_of u }
{
    answers::value_if(
        floats::is_within(0.0, 1.0, u),
        Refusal::Argument,
        reading(u),
    )
}

// The sine of u cycles, for a u that is known to be from 0 to 1; +0 for any other. Each call makes the table anew, so a
// loop can make it once and lend it to `reading_in`.
pub fn reading(u: f64) -> f64
    ensures { result ≡ reading_of u }
{
    let wave = quarter_wave();
    reading_in(&wave, u)
}

// The table.
pub fn quarter_wave() -> [u32; 1025]
    ensures { result ≡ quarter }
{
    table::QUARTER
}

// The reading of a table at u, for a u that is known to be from 0 to 1; +0 for any other.
pub fn reading_in(wave: &[u32; 1025], u: f64) -> f64
    ensures { result ≡ reading_in wave.now u }
{
    if floats::is_within(0.0, 1.0, u) {
        let (i, f) = place(u * 4096.0);
        return between(wave, i, f);
    }
    0.0
}

// Which of the wave's 4,096 points p lies at or behind, and how far behind it. The end of the wave is its start: there
// nothing is left, so that a remainder gives the point.
fn place(p: f64) -> (u32, f64)
    requires { T (within zero64 steps p) }
    ensures inside { result.0 < 4096 }
    ensures quarter { (wave : List ℕ) → between_of wave result.0 result.1 ≡ point_of wave p }
    ensures whole { (wave : List Float) → whole_line wave result.0 result.1 ≡ whole_point_of wave p }
{
    let i = whole_part(p);
    (i % 4096, p - i as f64)
}

// From the bits: what is below 1 has none.
fn whole_part(p: f64) -> u32
    requires { T (within zero64 steps p) }
    ensures { (result ≡ whole_part p) × (result ≤ 4096) }
{
    if p < 1.0 {
        return 0;
    }
    let bits = f64::to_bits(p);
    let field = bits / 0x10_0000_0000_0000;
    let digits = 0x10_0000_0000_0000 + bits % 0x10_0000_0000_0000;
    (digits >> (1075 - field)) as u32
}

// Between point i and the next, at the part f: quadrants 1 and 3 run down the table, and 2 and 3 are negative.
fn between(wave: &[u32; 1025], i: u32, f: f64) -> f64
    requires { i < 4096 }
    ensures { result ≡ between_of wave.now i f }
{
    let j = i % 1024;
    let negative = i >= 2048;
    if i / 1024 % 2 == 0 {
        return line(
            signed(negative, entry(wave, j)),
            signed(negative, entry(wave, j + 1)),
            f,
        );
    }
    line(
        signed(negative, entry(wave, 1024 - j)),
        signed(negative, entry(wave, 1023 - j)),
        f,
    )
}

// The fraction f of the way from a to b, over 2^30.
pub fn line(a: f64, b: f64, f: f64) -> f64
    ensures { result ≡ line_of a b f }
{
    (a + (b - a) * f) / 1073741824.0
}

// Negated as a whole number: a zero is +0.
fn signed(negative: bool, size: u32) -> f64
    ensures { result ≡ float (signed_of negative size) }
{
    let whole = size as i64;
    if negative {
        (-whole) as f64
    } else {
        whole as f64
    }
}

fn entry(wave: &[u32; 1025], k: u32) -> u32
    requires { k < 1025 }
    ensures { result ≡ get_or wave.now k 0 }
{
    wave[k as usize]
}

// The whole wave, unfolded from the quarter: a float at each of its 4,096 points and at its end. Writing it takes a
// microsecond, which pays for a thousand readings and more.
pub fn whole_wave(wave: &mut [f64; 4097])
    ensures { wave.new ≡ whole_wave }
{
    let table = quarter_wave();
    *wave = [0.0; 4097];
    rise(&table, wave);
    fall(wave);
    negate(wave);
}

// Quadrant 0, and the top.
fn rise(table: &[u32; 1025], wave: &mut [f64; 4097])
    requires { (table.now ≡ quarter) × Unfolded 0 wave.old }
    ensures { Unfolded 1025 wave.new }
{
    for k in 0..1025 {
        wave[k] = table[k] as f64;
    }
}

// Quadrant 1 is the mirror of quadrant 0.
fn fall(wave: &mut [f64; 4097])
    requires { Unfolded 1025 wave.old }
    ensures { Unfolded 2048 wave.new }
{
    for k in 0..1023 {
        wave[1025 + k] = wave[1023 - k];
    }
}

// Quadrants 2 and 3 are the negatives of 0 and 1; from 0.0, so that a zero is +0.
fn negate(wave: &mut [f64; 4097])
    requires { Unfolded 2048 wave.old }
    ensures { Unfolded 4097 wave.new }
{
    for k in 0..2049 {
        wave[2048 + k] = 0.0 - wave[k];
    }
}

// The reading of a table of the whole wave at u cycles, for u from 0 to 1; +0 for any other u, and for a table that has
// not 4,097 numbers.
pub fn whole_reading(wave: &[f64], u: f64) -> f64
    ensures { result ≡ whole_reading wave.now u }
{
    if wave.len() != 4097 {
        return 0.0;
    }
    if floats::is_within(0.0, 1.0, u) {
        let (i, f) = place(u * 4096.0);
        let i = i as usize;
        return line(wave[i], wave[i + 1], f);
    }
    0.0
}
