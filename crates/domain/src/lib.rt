// The domain of the ported calls, as 01 states it: each limit by which more than one crate judges, and a test of it.
// Left out: which refusal a call gives, and what one crate alone judges (ADSR settings, given states).
#![tactic(auto)]

ghost use Rattle.std.specs.Prelude.{◌≡◌};
ghost use Rattle.domain.specs.Domain.{is_phase, is_duty, is_rate, is_depth, is_radians, is_midi};

// The highest frequency of an oscillator, in Hz.
pub const HIGHEST_TONE: f64 = 20000.0;

// The highest frequency of an LFO, in Hz.
pub const HIGHEST_LFO: f64 = 100.0;

// Whether the phase t, in cycles, is 0 to 1, and dt, the cycles of one sample, 0 to 4.
pub fn is_phase(t: f64, dt: f64) -> bool
    ensures { result ≡ is_phase t dt }
{
    floats::is_within(0.0, 1.0, t) & floats::is_within(0.0, 4.0, dt)
}

pub fn is_duty(duty: f64) -> bool
    ensures { result ≡ is_duty duty }
{
    floats::is_within(0.0, 1.0, duty)
}

// Whether a rate is 8,000 to 192,000 Hz.
#[tactic(auto, unfolding(crate::specs::Domain::is_rate))]
pub fn is_rate(rate: u32) -> bool
    ensures { result ≡ is_rate rate }
{
    (8000 <= rate) & (rate <= 192000)
}

pub fn is_depth(depth: f64) -> bool
    ensures { result ≡ is_depth depth }
{
    floats::is_within(0.0, 1.0, depth)
}

// Whether a phase in radians is at least 0 and below 1,000.
pub fn is_radians(phase: f64) -> bool
    ensures { result ≡ is_radians phase }
{
    (0.0 <= phase) & (phase < 1000.0)
}

// Whether a number is a note or a velocity: 0 to 127.
pub fn is_midi(number: u8) -> bool
    ensures { result ≡ is_midi number }
{
    number <= 127
}
