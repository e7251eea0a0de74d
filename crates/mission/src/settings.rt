// The settings that the script chooses between.

// The pad, a slowly falling sawtooth with a tremolo of 5 Hz, so that every comparison holds the LFO's phase too; a
// square with sustain 1.0, after a short decay and after a long one; and the pad joined.
#[derive(Clone, Copy)]
pub enum Sound {
    Pad,
    ShortDecay,
    LongDecay,
    JoinedPad,
}

impl From<u64> for Sound {
    fn from(number: u64) -> Sound {
        match number {
            0 => Sound::Pad,
            1 => Sound::ShortDecay,
            3 => Sound::JoinedPad,
            _ => Sound::LongDecay,
        }
    }
}

// The settings of the calls that differ from sound to sound.
#[derive(Clone, Copy)]
pub struct Settings {
    pub code: u32,
    pub decay: f64,
    pub sustain: f64,
    pub depth: f64,
    pub joined: u32,
}

impl From<Sound> for Settings {
    fn from(sound: Sound) -> Settings {
        let pad = Settings {
            code: 2,
            decay: 10.0,
            sustain: 0.2,
            depth: 0.6,
            joined: 0,
        };
        let square = Settings {
            code: 1,
            sustain: 1.0,
            depth: 0.0,
            ..pad
        };
        match sound {
            Sound::Pad => pad,
            Sound::ShortDecay => Settings {
                decay: 0.03,
                ..square
            },
            Sound::LongDecay => square,
            Sound::JoinedPad => Settings { joined: 1, ..pad },
        }
    }
}
