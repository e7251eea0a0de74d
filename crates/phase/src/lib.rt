// phase.rs of the original: a phase in cycles, advanced once a sample, in f32. State goes in by value and is handed
// back; what the original asserts or leaves open is refused with number 9. Left out: the original's traits. The voice
// has a phase in radians and does not use this crate.
#![tactic(auto)]

ghost use Rattle.std.specs.Prelude.{◌≡◌};
ghost use Rattle.answers.specs.Order.{unless};
ghost use Rattle.answers.specs.declared.Refusal.TheVariants.{Argument};
ghost use Rattle.phase.specs.Phase.{is_state, wrap_of, stepped_or};
ghost use Rattle.phase.specs.Phase.{new_of, set_frequency_of, set_increment_of, increment_of, next_of, phase_of, set_phase_of, reset_of};

use answers::{Answer, Changed, Refusal};

// A number of cycles, with a type of its own so that cycles and radians stay apart.
#[derive(Clone, Copy)]
pub struct Cycles(pub f32);

// The phase, and the increment that a step adds to it.
#[derive(Clone, Copy)]
pub struct PhaseAccumulator {
    pub phase: Cycles,
    pub increment: Cycles,
}

// The answer of a step, the phase before the step, and the state after it.
#[derive(Clone, Copy)]
pub struct Stepped {
    pub answer: Answer,
    pub cycles: Cycles,
    pub accumulator: PhaseAccumulator,
}

impl PhaseAccumulator {
    // Phase 0 and increment 0.
    pub fn new() -> PhaseAccumulator
        ensures { result ≡ new_of }
    {
        PhaseAccumulator {
            phase: Cycles(0.0),
            increment: Cycles(0.0),
        }
    }

    // Sets the increment to frequency / sample_rate, both in Hz. A negative frequency runs the phase backwards.
    pub fn set_frequency(self, frequency: f32, sample_rate: f32) -> Changed<PhaseAccumulator>
        ensures { result ≡ set_frequency_of self frequency sample_rate }
    {
        let increment = frequency / sample_rate;
        let ok = is_state(self)
            & floats::is_finite(frequency)
            & floats::is_finite(sample_rate)
            & (0.0 < sample_rate)
            & floats::is_finite(increment);
        let after = PhaseAccumulator {
            increment: Cycles(increment),
            ..self
        };
        answers::changed_if(ok, Refusal::Argument, self, after)
    }

    // Sets the increment, in cycles a sample.
    pub fn set_increment(self, increment: Cycles) -> Changed<PhaseAccumulator>
        ensures { result ≡ set_increment_of self increment }
    {
        let ok = is_state(self) & floats::is_finite(increment.0);
        let after = PhaseAccumulator { increment, ..self };
        answers::changed_if(ok, Refusal::Argument, self, after)
    }

    pub fn increment(self) -> Result<Cycles, Refusal>
        ensures { result ≡ increment_of self }
    {
        answers::value_if(is_state(self), Refusal::Argument, self.increment)
    }

    // Hands out the phase before the step, and the state after it.
    pub fn next(self) -> Stepped
        ensures { result ≡ next_of self }
    {
        let after = PhaseAccumulator {
            phase: Cycles(wrap(self.phase.0 + self.increment.0)),
            ..self
        };
        stepped_if(is_state(self), self.phase, self, after)
    }

    pub fn phase(self) -> Result<Cycles, Refusal>
        ensures { result ≡ phase_of self }
    {
        answers::value_if(is_state(self), Refusal::Argument, self.phase)
    }

    // Sets the phase to any finite number of cycles, wrapped.
    pub fn set_phase(self, phase: Cycles) -> Changed<PhaseAccumulator>
        ensures { result ≡ set_phase_of self phase }
    {
        let ok = is_state(self) & floats::is_finite(phase.0);
        let after = PhaseAccumulator {
            phase: Cycles(wrap(phase.0)),
            ..self
        };
        answers::changed_if(ok, Refusal::Argument, self, after)
    }

    // Sets the phase to 0; the increment stays.
    pub fn reset(self) -> Changed<PhaseAccumulator>
        ensures { result ≡ reset_of self }
    {
        let after = PhaseAccumulator {
            phase: Cycles(0.0),
            ..self
        };
        answers::changed_if(is_state(self), Refusal::Argument, self, after)
    }
}

// Whether a given state is accepted: phase 0 to 1, increment finite.
fn is_state(a: PhaseAccumulator) -> bool
    ensures { result ≡ is_state a }
{
    let phase = a.phase.0;
    (0.0 <= phase) & (phase <= 1.0) & floats::is_finite(a.increment.0)
}

// x - floor(x), which for a finite x is 0 to 1, both ends reached.
fn wrap(x: f32) -> f32
    ensures { result ≡ wrap_of x }
{
    x - floats::floor(x)
}

// Done, with the cycles and the state moved, where ok is true; else a refusal with +0 and the state as it came.
fn stepped_if(ok: bool, cycles: Cycles, came: PhaseAccumulator, moved: PhaseAccumulator) -> Stepped
    ensures { result ≡ stepped_or (unless ok Argument) cycles.0 came moved }
{
    if ok {
        return Stepped {
            answer: Ok(0),
            cycles,
            accumulator: moved,
        };
    }
    Stepped {
        answer: Err(Refusal::Argument),
        cycles: Cycles(0.0),
        accumulator: came,
    }
}
