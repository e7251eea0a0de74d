// How far a sine is off: what is found of a row, and the largest difference in billionths.

// The largest difference allowed to a sine at full level.
pub const NEAR: f64 = 0.000001;

// The largest number of billionths that is printed.
const MOST: u32 = 1000000;

// Whether a row, or its samples, are as they must be; and the largest difference of a sine.
#[derive(Clone, Copy)]
pub struct Finding {
    pub equal: bool,
    pub farthest: f64,
}

// Where no sine is heard.
impl From<bool> for Finding {
    fn from(equal: bool) -> Finding {
        Finding {
            equal,
            farthest: 0.0,
        }
    }
}

impl Finding {
    // A sine that may differ by 0.000001 times its scale.
    pub fn of_sine(ours: f64, theirs: f64, scale: f64) -> Finding {
        let off = larger(ours - theirs, theirs - ours);
        Finding {
            equal: off <= NEAR * scale,
            farthest: off,
        }
    }

    // Both findings as one.
    pub fn and(self, other: Finding) -> Finding {
        Finding {
            equal: self.equal & other.equal,
            farthest: larger(other.farthest, self.farthest),
        }
    }
}

// The larger of two numbers; the second where either is a NaN. Of x - y and y - x it is how far x and y are apart.
pub fn larger(x: f64, y: f64) -> f64 {
    if y < x { x } else { y }
}

// x in billionths, rounded up, at most MOST.
pub fn billionths(x: f64) -> u32 {
    (0..MOST)
        .find(|n| f64::from(*n) / 1000000000.0 >= x)
        .unwrap_or(MOST)
}
