// Buffers of two halves: the first is what is tried, the second what it should be.

// What is compared and mixed by its bits.
pub trait Bits: Copy {
    fn bits(self) -> u64;
}

impl Bits for f64 {
    fn bits(self) -> u64 {
        words::f64_bits(self)
    }
}

impl Bits for u64 {
    fn bits(self) -> u64 {
        self
    }
}

// The first elements of each half, as many of both.
#[derive(Clone, Copy)]
pub struct Halves<'a, T> {
    tried: &'a [T],
    beside: &'a [T],
}

impl<T: Bits> Halves<'_, T> {
    // How many elements differ between the halves.
    pub fn unlike(&self) -> usize {
        self.tried
            .iter()
            .zip(self.beside)
            .filter(|(x, y)| x.bits() != y.bits())
            .count()
    }

    // Changes with every single bit of the elements, and with its place.
    pub fn mixed(&self, number: u64) -> u64 {
        all_mixed(all_mixed(number, self.tried), self.beside)
    }
}

// One half after the other: over a chain of both, each element would be asked which half it is of.
fn all_mixed<T: Bits>(number: u64, half: &[T]) -> u64 {
    half.iter()
        .fold(number, |mixing, x| mixed(mixing, x.bits()))
}

// Modulo the prime 2^31 - 1, where multiplying by 48,271 is one-to-one: what was mixed in before is not lost.
fn mixed(number: u64, bits: u64) -> u64 {
    (number % 0x7fff_ffff * 48271 + bits % 0x7fff_ffff) % 0x7fff_ffff
}

#[derive(Drop)]
pub struct Pair<T, const N: usize> {
    both: [T; N],
}

impl<T: Bits, const N: usize> Pair<T, N> {
    pub fn new(value: T) -> Pair<T, N> {
        Pair { both: [value; N] }
    }

    // The element at a place of the first half, or of the second after it.
    pub fn get(&self, at: usize) -> Option<T> {
        self.both.get(at).copied()
    }

    pub fn as_mut_slice(&mut self) -> &mut [T] {
        &mut self.both
    }

    // Of each half as many elements as wanted, or as there are.
    pub fn halves(&self, wanted: usize) -> Halves<'_, T> {
        let (tried, beside) = self.both.split_at(N / 2);
        let end = wanted.min(N / 2);
        Halves {
            tried: &tried[..end],
            beside: &beside[..end],
        }
    }

    // What is lent of a half: its first elements, as many as wanted or as there are.
    pub fn lend(&mut self, second: bool, wanted: usize) -> &mut [T] {
        let half = N / 2;
        let start = if second { half } else { 0 };
        let end = start + wanted.min(half);
        let both = &mut self.both[..];
        &mut both[start..end]
    }

    // Writes into the same place of both halves; what was there in the first, if there is such a place.
    pub fn replace(&mut self, at: usize, value: T) -> Option<T> {
        let half = N / 2;
        if at >= half {
            return None;
        }
        let before = self.both[at];
        self.both[at] = value;
        self.both[half + at] = value;
        Some(before)
    }
}
