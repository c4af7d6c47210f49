// Why a record is refused: the table of document 01, each number under its name, and which record.
#![tactic(auto)]

ghost use Rattle.std.specs.Prelude.{◌≡◌};
ghost use Rattle.faults.specs.Numbers.{number};

// Why a ticket, a question or an answer is refused.
#[derive(Clone, Copy, Debug, PartialEq, Eq)]
pub enum Fault {
    // "the work area has under 6,400 numbers or the answer buffer under 4,268 bytes"
    SmallBuffer,
    // "the ticket is too long"
    LongTicket,
    // "the bytes stop before a record, or before any end record, is complete"
    CutShort,
    // "a kind is unknown or out of its place .., a step follows the last closed branch, or a byte follows the end record"
    OutOfPlace,
    // "the body length fits no form"
    NoForm,
    // "a field is outside its range"
    OutOfRange,
    // "a literal repeats"
    Repeats,
    // "a step does not fit"
    DoesNotFit,
    // "a new number passes the limit"
    PassesLimit,
    // "facts or pending splits would pass theirs"
    NoRoom,
    // "the end comes before every branch closed, or before a model"
    EndsEarly,
    // "it breaks an arithmetic fact", of a model
    BreaksFact,
    // "the leaf is not settled"
    NotSettled,
    // "a length passes 64"
    LongString,
    // "the answer is not exactly of its form"
    AnswerForm,
    // "a character is not below n or an integer is outside ±100,000,000", in an answer
    AnswerRange,
}

impl Fault {
    // The number of document 01.
    pub fn number(self) -> usize
        ensures { result ≡ number self }
    {
        match self {
            Fault::SmallBuffer => 1,
            Fault::LongTicket => 2,
            Fault::CutShort => 3,
            Fault::OutOfPlace => 4,
            Fault::NoForm => 5,
            Fault::OutOfRange => 6,
            Fault::Repeats => 7,
            Fault::DoesNotFit => 8,
            Fault::PassesLimit => 9,
            Fault::NoRoom => 10,
            Fault::EndsEarly => 11,
            Fault::BreaksFact => 12,
            Fault::NotSettled => 13,
            Fault::LongString => 14,
            Fault::AnswerForm => 15,
            Fault::AnswerRange => 16,
        }
    }

    // The refusal at record r.
    pub fn at(self, r: usize) -> Refusal
        ensures { (result.fault ≡ self) × (result.record ≡ r) }
    {
        Refusal {
            fault: self,
            record: r,
        }
    }
}

// A refusal: why, and "the first faulty record from 0".
#[derive(Clone, Copy, Debug, PartialEq, Eq)]
pub struct Refusal {
    pub fault: Fault,
    pub record: usize,
}
