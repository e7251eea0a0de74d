// Our sine compared with the original's: a row is two u64, a phase in cycles and the original's sine there; ours must
// lie within 0.000001 of it. A refused phase is unequal; the rows of refused phases are in part `waveform` of `replay`.
use crate::fields;
use crate::nearness::Finding;

pub const ROW: usize = 16;

pub fn compared(row: &[u8]) -> Finding {
    let ours = sine::sine(fields::float_at(row, 0));
    let theirs = fields::float_at(row, 8);
    Finding::from(ours.is_ok()).and(Finding::of_sine(ours.unwrap_or(0.0), theirs, 1.0))
}
