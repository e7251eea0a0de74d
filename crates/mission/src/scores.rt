// Scores in bytes, without the code that is tried, and the numbers of the script. A record is a number whose digits are
// the position, the kind, three of the note and three of the velocity, as 17_1_047_090.
ghost use Rattle.std.specs.Prelude.{◌≤◌};

// One record more than a score may have.
const RECORDS: usize = 4097;

#[derive(Drop)]
pub struct Score {
    records: [[u8; 10]; RECORDS],
    count: usize,
    ghost in_bounds: { count ≤ 4097 },
}

impl Score {
    pub fn new() -> Score {
        Score {
            records: [[0; 10]; RECORDS],
            count: 0,
        }
    }

    // The bytes of its records.
    pub fn as_slice(&self) -> &[u8] {
        self.records[..self.count].as_flattened()
    }

    // Adds a record so many times, as often as there is room.
    pub fn add(&mut self, record: u64, times: u64) {
        let end = (self.count + times as usize % 5000).min(RECORDS);
        self.records[self.count..end].fill(bytes_of(record));
        self.count = end;
    }

    // Has the records of another score from now on. What lies behind them is not copied.
    pub fn copy_from(&mut self, other: &Score) {
        for i in 0..other.count {
            self.records[i] = other.records[i];
        }
        self.count = other.count;
    }

    pub fn clear(&mut self) {
        self.count = 0;
    }
}

fn bytes_of(record: u64) -> [u8; 10] {
    let position = (record / 1_0_000_000).to_le_bytes();
    [
        b'V',
        b'N',
        position[0],
        position[1],
        position[2],
        position[3],
        (record / 1_000_000 % 10) as u8,
        (record / 1_000 % 1_000 % 256) as u8,
        (record % 1_000 % 256) as u8,
        0,
    ]
}

// The base that a number of the script is written in.
#[derive(Clone, Copy, Default)]
pub enum Base {
    #[default]
    Ten,
    Sixteen,
}

impl Base {
    // What a byte counts as in a number. A capital letter is a command, in base 16 too.
    pub fn digit(self, byte: u8) -> Option<u32> {
        let radix = match self {
            Base::Ten => 10,
            Base::Sixteen => 16,
        };
        if byte.is_ascii_uppercase() {
            None
        } else {
            (byte as char).to_digit(radix)
        }
    }

    // A number with one more digit; no number of the script has so many digits that some are lost.
    pub fn with_digit(self, number: u64, digit: u32) -> u64 {
        let digit = u64::from(digit % 16);
        match self {
            Base::Ten => number % 1_000_000_000_000_000_000 * 10 + digit,
            Base::Sixteen => number % 0x1000_0000_0000_0000 * 16 + digit,
        }
    }
}
