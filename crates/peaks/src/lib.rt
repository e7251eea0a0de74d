// The peak of a section, of 02's request R-3: the largest magnitude, and the first sample where it stands. A section is
// looked at by groups: most have no sample above the peak so far, and are passed over whole, by comparisons that a
// processor makes two at a time.
#![tactic(auto)]

ghost use Rattle.std.specs.Prelude.{◌≡◌, ◌+◌, ◌<◌, ◌^◌, T, length};
ghost use Rattle.std.specs.Float.Ieee.{le};
ghost use Rattle.floats.specs.Double.{zero64};
ghost use Rattle.peaks.specs.Peaks.{magnitude_of, higher, peak_of};
ghost use Rattle.peaks.specs.Inner.{group_size, size_of, is_quiet, peak_after};

// How many samples are a group. Larger ones took longer where the sound rises, and were hardly faster elsewhere.
const GROUP: usize = 16;

// The largest magnitude of some samples, and how many samples come before the first that has it.
#[derive(Clone, Copy)]
pub struct Peak {
    pub magnitude: f64,
    pub offset: usize,
}

// The peak of a section; of no sample, and of zeros alone, it is +0 at offset 0.
pub fn peak_of(section: &[f64]) -> Peak
    ensures { result ≡ peak_of section.now }
{
    let (groups, rest) = section.as_chunks::<GROUP>();
    let mut best = Peak {
        magnitude: 0.0,
        offset: 0,
    };
    for (n, group) in groups.iter().enumerate() {
        if !is_quiet(group, best.magnitude) {
            best = one_by_one(group, best, n * GROUP);
        }
    }
    one_by_one(rest, best, groups.len() * GROUP)
}

// The peak after more samples, the first of which is sample `from`: each is looked at by itself.
fn one_by_one(samples: &[f64], start: Peak, from: usize) -> Peak
    requires start_least { T (le zero64 start.magnitude) }
    requires fits { from + length samples.now < 2 ^ 64 }
    ensures { result ≡ peak_after start samples.now from (length samples.now) }
{
    let mut best = start;
    for (i, x) in samples.iter().enumerate() {
        best = after(best, *x, from + i);
    }
    best
}

// The peak after sample i, which is x. A zero is above no peak, so the sign of a zero does not matter.
fn after(peak: Peak, x: f64, i: usize) -> Peak
    requires { T (le zero64 peak.magnitude) }
    ensures { result ≡ higher peak (magnitude_of x) i }
{
    let size = size_of(x);
    if peak.magnitude < size {
        return Peak {
            magnitude: size,
            offset: i,
        };
    }
    peak
}

// Whether each sample of a group is at most `most` in size: a loop without a branch.
fn is_quiet(group: &[f64; GROUP], most: f64) -> bool
    ensures { result ≡ is_quiet group.now most group_size }
{
    let mut quiet = true;
    for x in group {
        let size = size_of(*x);
        quiet = quiet & (size <= most);
    }
    quiet
}

// The number without its sign, but -0 for -0: with no test for zeros the compiler makes it one instruction.
fn size_of(x: f64) -> f64
    ensures { result ≡ size_of x }
{
    if x < 0.0 {
        return -x;
    }
    x
}
