// The original's answers to the calls of polyblep.rs, and what the rounded triangle's two functions give, which the
// oracle has from document 02: a row is six u64, compared bit for bit.
use crate::fields;

pub const ROW: usize = 48;

pub fn is_equal(row: &[u8]) -> bool {
    let op = words::u64_at(row, 0);
    let t = fields::float_at(row, 8);
    let dt = fields::float_at(row, 16);
    let got = match op {
        0 => polyblep::poly_blep(t, dt),
        1 => polyblep::poly_blamp(t, dt),
        2 => polyblep::polyblep_saw(t, dt),
        3 => polyblep::polyblep_square(t, dt),
        4 => polyblep::polyblep_pulse(t, dt, fields::float_at(row, 24)),
        5 => polyblep::polyblamp_triangle(t, dt),
        // The rounded triangle's two judge nothing: a row has the number 0 with any value.
        6 => Ok(polyblep::rounded_blamp(t, dt)),
        7 => Ok(polyblep::rounded(t, dt)),
        _ => return false,
    };
    fields::gives(got, words::u64_at(row, 32), words::u64_at(row, 40))
}
