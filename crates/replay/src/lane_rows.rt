// The original's answers to the lanes of polyblep.rs, its simd half: a row is 19 u64, compared bit for bit: the answer
// and four values.
use crate::fields;
use lanes::Lanes;

pub const ROW: usize = 152;

pub fn is_equal(row: &[u8]) -> bool {
    let op = words::u64_at(row, 0);
    let got = if op < 2 {
        corrections(op, row)
    } else {
        applied(op, row)
    };
    let answer = got.answer;
    let values = got.values;
    (op < 6) & fields::says(answer, words::u64_at(row, 112)) & fields::are(row, 120, &values)
}

fn corrections(op: u64, row: &[u8]) -> Lanes {
    let t = fields::at(row, 8);
    let dt = fields::at(row, 40);
    match op {
        0 => lanes::poly_blep_simd(t, dt),
        _ => lanes::poly_blamp_simd(t, dt),
    }
}

// Of the four dt only the first is given: it is the phase of one sample in every lane.
fn applied(op: u64, row: &[u8]) -> Lanes {
    let phases = fields::at(row, 8);
    let samples = fields::at(row, 80);
    let phase_inc = fields::float_at(row, 40);
    match op {
        2 => lanes::apply_polyblep_saw(samples, phases, phase_inc),
        3 => lanes::apply_polyblep_square(samples, phases, phase_inc),
        4 => lanes::apply_polyblep_pulse(samples, phases, phase_inc, fields::float_at(row, 72)),
        _ => lanes::apply_polyblamp_triangle(samples, phases, phase_inc),
    }
}
