// What a call says: the rows of 01's table ("What a call says") as enums, and the number, place and count of each. A
// call that hands out a single number gives it in place of the count; one that hands back a state, on a refusal too,
// leaves both in a `Changed`, or in a struct of its own crate if it hands out more.
#![tactic(auto)]

ghost use Rattle.std.specs.Prelude.{◌≡◌, ◌≤◌};
ghost use Rattle.answers.specs.Order.{unless};
ghost use Rattle.answers.specs.Value.{value_or};
ghost use Rattle.answers.specs.Changed.{changed_or};
ghost use Rattle.answers.specs.Numbers.{numbers_of, refusal_number, refusal_place, fault_number, fault_place};

// What is wrong with a score: its length, or a record, whose index the case carries.
#[derive(Clone, Copy)]
pub enum ScoreFault {
    Length,
    Mark(usize),
    Kind(usize),
    Field(usize),
    Order(usize),
}

// Why a call was refused: a score (numbers 1 to 5), a re-render's new score (17 to 21), a number from 6 to 10, or a
// page of edits: 36, or an edit (33 to 35, and 50 to 52 for its record), whose index the case carries.
#[derive(Clone, Copy)]
pub enum Refusal {
    Score(ScoreFault),
    NewScore(ScoreFault),
    Setting,
    Size,
    StartEntry,
    Argument,
    GivenState,
    EditFrame(usize),
    NotThere(usize),
    Full(usize),
    Page,
    Edit(ScoreFault),
}

// What a call says: `Ok`, done, with the number of samples written; or `Err`, refused.
pub type Answer = Result<usize, Refusal>;

// What a call that changes a state leaves: the answer, and the state after the call.
#[derive(Clone, Copy)]
pub struct Changed<S> {
    pub answer: Answer,
    pub state: S,
}

// An answer as three numbers, for a host that has no enums.
#[derive(Clone, Copy)]
pub struct Numbers {
    pub number: u8,
    pub place: usize,
    pub count: usize,
}

impl From<Answer> for Numbers {
    ghost from_gives = { λ answer numbers. numbers ≡ numbers_of answer };

    fn from(answer: Answer) -> Numbers {
        match answer {
            Ok(count) => Numbers {
                number: 0,
                place: 0,
                count,
            },
            Err(refusal) => Numbers {
                number: refusal.number(),
                place: refusal.place(),
                count: 0,
            },
        }
    }
}

// The value where ok is true, else the refusal.
pub fn value_if<T: Copy>(ok: bool, refusal: Refusal, value: T) -> Result<T, Refusal>
    ensures { result ≡ value_or (unless ok refusal) value }
{
    if ok { Ok(value) } else { Err(refusal) }
}

// Done, with the state after, where ok is true; else a refusal, with the state as it came.
pub fn changed_if<S: Copy>(ok: bool, refusal: Refusal, before: S, after: S) -> Changed<S>
    ensures { result ≡ changed_or (unless ok refusal) before after }
{
    if ok {
        Changed {
            answer: Ok(0),
            state: after,
        }
    } else {
        Changed {
            answer: Err(refusal),
            state: before,
        }
    }
}

impl Refusal {
    fn number(self) -> u8
        ensures { result ≡ refusal_number self }
    {
        match self {
            Refusal::Score(fault) => fault.number(),
            Refusal::NewScore(fault) => fault.number() + 16,
            Refusal::Setting => 6,
            Refusal::Size => 7,
            Refusal::StartEntry => 8,
            Refusal::Argument => 9,
            Refusal::GivenState => 10,
            Refusal::EditFrame(_) => 33,
            Refusal::NotThere(_) => 34,
            Refusal::Full(_) => 35,
            Refusal::Page => 36,
            Refusal::Edit(fault) => fault.number() + 48,
        }
    }

    fn place(self) -> usize
        ensures { result ≡ refusal_place self }
    {
        match self {
            Refusal::Score(fault) | Refusal::NewScore(fault) | Refusal::Edit(fault) =>
                fault.place(),
            Refusal::EditFrame(edit) | Refusal::NotThere(edit) | Refusal::Full(edit) => edit,
            _ => 0,
        }
    }
}

impl ScoreFault {
    fn number(self) -> u8
        ensures { (result ≡ fault_number self) × (result ≤ 5) }
    {
        match self {
            ScoreFault::Length => 1,
            ScoreFault::Mark(_) => 2,
            ScoreFault::Kind(_) => 3,
            ScoreFault::Field(_) => 4,
            ScoreFault::Order(_) => 5,
        }
    }

    fn place(self) -> usize
        ensures { result ≡ fault_place self }
    {
        match self {
            ScoreFault::Length => 0,
            ScoreFault::Mark(record) | ScoreFault::Kind(record) => record,
            ScoreFault::Field(record) | ScoreFault::Order(record) => record,
        }
    }
}
