// The records that delimit a derivation: the claim before it, the model and the end after it. Nothing here asks for the rules.
#![tactic(auto)]

ghost use Rattle.std.specs.Prelude.{◌≡◌, ◌+◌, ◌≤◌, length, IfOk};
ghost use Rattle.calculus.specs.Limits.{variable_limit};
ghost use Rattle.format.specs.Reading.{claim_fault, claim_at, model_fault};
ghost use Rattle.faults.specs.Numbers.{fault_in};
ghost use Rattle.question.specs.Progress.{progress_of};
ghost use Rattle.question.specs.Posed.{asked};
ghost use Rattle.delimiters.specs.Numbers.{end_form, open_fault, end_fault};
ghost use Rattle.delimiters.specs.Claims.{claim_of, ClaimRead, ends_at};

use encoding::{
    CLAIM_NO_SOLUTION, CLAIM_STRINGS, KIND_CLAIM, KIND_END, KIND_MODEL, KIND_STEP, RECORD_HEAD,
};
use faults::Fault;
use question::{HEAD_RANK, Progress};
use records::{Found, integers_within, read_at, u16_at};

// ---- the claim

// What a ticket claims.
#[derive(Clone, Copy, Debug, PartialEq, Eq)]
pub enum Claim {
    NoSolution,
    Strings,
}

// A claim by its number, any but 1 being that of strings.
pub fn claim_of(number: usize) -> Claim
    ensures { result ≡ claim_of number }
{
    match number {
        CLAIM_NO_SOLUTION => Claim::NoSolution,
        _ => Claim::Strings,
    }
}

// "u16, 1 for no solution, 2 for strings"
impl TryFrom<usize> for Claim {
    type Error = Fault;

    ghost try_from_gives = { ClaimRead };

    fn try_from(number: usize) -> Result<Self, Fault> {
        match number {
            CLAIM_NO_SOLUTION | CLAIM_STRINGS => Ok(claim_of(number)),
            _ => Err(Fault::OutOfRange),
        }
    }
}

// The claim's record at a position: "5 claim, once".
pub fn read_claim(ticket: &[u8], s: Progress, at: usize) -> Result<Claim, Fault>
    ensures fault { fault_in result ≡ claim_fault ticket.now (progress_of ticket.now s) at }
    ensures claim { IfOk result (λ claim. claim ≡ claim_of (claim_at ticket.now at)) }
{
    let Found::Whole(kind, size) = read_at(ticket, at) else {
        return Err(Fault::CutShort);
    };
    if s.last < HEAD_RANK || kind != KIND_CLAIM {
        return Err(Fault::OutOfPlace);
    }
    if size != 2 {
        return Err(Fault::NoForm);
    }
    Claim::try_from(u16_at(ticket, at + RECORD_HEAD))
}

// Does a record of a kind end the steps: the model, under claim 2?
pub fn ends_steps(claim: Claim, kind: usize) -> bool
    ensures { result ≡ ends_at claim kind }
{
    match claim {
        Claim::NoSolution => false,
        Claim::Strings => kind == KIND_MODEL,
    }
}

// ---- the model

// The form of a model's record with its body at a position: "an i32 for each column, within ±100,000,000".
pub fn model_fault(ticket: &[u8], s: Progress, at: usize, size: usize) -> Result<(), Fault>
    requires { (at + size ≤ length ticket.now) × (s.p ≤ variable_limit) × (s.q ≤ variable_limit) }
    ensures { fault_in result ≡ model_fault ticket.now (asked ticket.now s) 0 at size }
{
    let columns = s.columns();
    if size != 4 * columns {
        return Err(Fault::NoForm);
    }
    if !integers_within(ticket, at, columns) {
        return Err(Fault::OutOfRange);
    }
    Ok(())
}

// ---- the end

// An end record that ends at a position, in a ticket of so many bytes: "a byte follows the end record, counted at that end record".
fn last_fault(length: usize, to: usize, size: usize) -> Result<(), Fault>
    ensures { fault_in result ≡ end_form length to size 0 }
{
    if to != length {
        return Err(Fault::OutOfPlace);
    }
    if size != 0 {
        return Err(Fault::NoForm);
    }
    Ok(())
}

// The fault of the record that must be the end, after the last closed branch or a model.
pub fn end_fault(ticket: &[u8], at: usize) -> Result<(), Fault>
    ensures { fault_in result ≡ end_fault ticket.now at }
{
    let Found::Whole(kind, size) = read_at(ticket, at) else {
        return Err(Fault::CutShort);
    };
    if kind != KIND_END {
        return Err(Fault::OutOfPlace);
    }
    last_fault(ticket.len(), at + RECORD_HEAD + size, size)
}

// The fault of a record where a branch is open, none at a step: "11 when the end comes before every branch closed, or before a model".
pub fn open_fault(length: usize, to: usize, kind: usize, size: usize) -> Result<(), Fault>
    ensures { fault_in result ≡ open_fault length to kind size 0 }
{
    match kind {
        KIND_STEP => Ok(()),
        KIND_END => {
            last_fault(length, to, size)?;
            Err(Fault::EndsEarly)
        }
        _ => Err(Fault::OutOfPlace),
    }
}
