// The parts of the replay: what each is called, how its rows are read and compared, and what is told of them.
ghost use Rattle.std.specs.Prelude.{◌≤◌};

use crate::nearness::Finding;
use crate::{
    block_rows, envelope_rows, lane_rows, nearness, phase_rows, pitch_rows, polyblep_rows,
    render_rows, sine_rows, voice_rows, waveform_rows,
};
use std::{fmt, io};

#[derive(Clone, Copy)]
pub enum Part {
    Phase,
    Polyblep,
    Pitch,
    Sine,
    Envelope,
    Waveform,
    Voice,
    Blocks,
    Render,
    Lanes,
}

// A head's name that no part has.
#[derive(Clone, Copy)]
pub struct NoPart;

// The part of a name, eight bytes as a word, low byte first.
impl TryFrom<u64> for Part {
    type Error = NoPart;

    fn try_from(name: u64) -> Result<Part, NoPart> {
        match &name.to_le_bytes() {
            b"phase\0\0\0" => Ok(Part::Phase),
            b"polyblep" => Ok(Part::Polyblep),
            b"pitch\0\0\0" => Ok(Part::Pitch),
            b"sine\0\0\0\0" => Ok(Part::Sine),
            b"envelope" => Ok(Part::Envelope),
            b"waveform" => Ok(Part::Waveform),
            b"voice\0\0\0" => Ok(Part::Voice),
            b"blocks\0\0" => Ok(Part::Blocks),
            b"render\0\0" => Ok(Part::Render),
            b"lanes\0\0\0" => Ok(Part::Lanes),
            _ => Err(NoPart),
        }
    }
}

impl fmt::Display for Part {
    fn fmt<W: fmt::Write>(&self, f: &mut fmt::Formatter<W>) -> fmt::Result {
        let name = match self {
            Part::Phase => "phase",
            Part::Polyblep => "polyblep",
            Part::Pitch => "pitch",
            Part::Sine => "sine",
            Part::Envelope => "envelope",
            Part::Waveform => "waveform",
            Part::Voice => "voice",
            Part::Blocks => "blocks",
            Part::Render => "render",
            Part::Lanes => "lanes",
        };
        f.write_str(name)
    }
}

impl Part {
    // How many first bytes a row has.
    pub fn first(self) -> usize
        ensures { result ≤ 360 }
    {
        match self {
            Part::Phase => phase_rows::ROW,
            Part::Polyblep => polyblep_rows::ROW,
            Part::Pitch => pitch_rows::ROW,
            Part::Sine => sine_rows::ROW,
            Part::Envelope => envelope_rows::ROW,
            Part::Waveform => waveform_rows::ROW,
            Part::Voice => voice_rows::ROW,
            Part::Blocks => block_rows::ROW,
            Part::Render => render_rows::ROW,
            Part::Lanes => lane_rows::ROW,
        }
    }

    // How many words follow the first bytes of a row.
    pub fn more(self, row: &[u8]) -> u64 {
        match self {
            Part::Blocks => words::u64_at(row, block_rows::MORE),
            Part::Render => words::u64_at(row, render_rows::MORE),
            _ => 0,
        }
    }

    // Only the parts that measure a sine give a difference.
    pub fn compared(self, row: &[u8]) -> Finding {
        match self {
            Part::Phase => Finding::from(phase_rows::is_equal(row)),
            Part::Polyblep => Finding::from(polyblep_rows::is_equal(row)),
            Part::Pitch => Finding::from(pitch_rows::is_equal(row)),
            Part::Sine => sine_rows::compared(row),
            Part::Envelope => Finding::from(envelope_rows::is_equal(row)),
            Part::Waveform => Finding::from(waveform_rows::is_equal(row)),
            Part::Voice => Finding::from(voice_rows::is_equal(row)),
            Part::Blocks => block_rows::compared(row),
            Part::Render => render_rows::compared(row),
            Part::Lanes => Finding::from(lane_rows::is_equal(row)),
        }
    }

    // The end of the part's line: how many rows are equal, and how far a sine is off at most.
    pub fn tell(self, rt: &impl Print, equal: u64, farthest: f64) -> io::Result<()> {
        let off = nearness::billionths(farthest);
        match self {
            Part::Sine => {
                println!(rt; "{equal} within 0.000001, largest difference {off} billionths")
            }
            Part::Blocks | Part::Render => {
                println!(rt; "{equal} equal, largest difference of a sine {off} billionths")
            }
            _ => println!(rt; "{equal} equal"),
        }
    }
}
