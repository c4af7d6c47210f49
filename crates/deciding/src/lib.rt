// What a ticket comes to, on buffers that are large enough: the question, the claim, the steps and the end, 2 to 14 in their order.
#![tactic(auto)]

ghost use Rattle.std.specs.Prelude.{◌≡◌, List, ℕ, ◌≤◌, length};
ghost use Rattle.calculus.specs.Limits.{work_numbers, answer_bytes};
ghost use Rattle.calculus.specs.Walk.{closed};
ghost use Rattle.calculus.specs.Cores.{Set, core_in};
ghost use Rattle.format.specs.Records.{kind, next};
ghost use Rattle.format.specs.Reading.{proving, taking};
ghost use Rattle.format.specs.Cores.{core};
ghost use Rattle.question.specs.declared.Progress.{Progress};
ghost use Rattle.question.specs.Posed.{asked, Posed};
ghost use Rattle.rows.specs.Rows.{branch_of};
ghost use Rattle.rows.specs.Work.{Fine};
ghost use Rattle.cores.specs.Words.{words_of};
ghost use Rattle.deciding.specs.Outcomes.{claimed_from, read_whole, ReadToClaim, Decided};
ghost use Rattle.claims.specs.Outcomes.{Loaded, outcome_from, walk_from, steps_from};

use claims::{Walked, walk};
use constraints::load;
use cores::{Words, no_constraint};
use delimiters::{Claim, end_fault, read_claim};
use encoding::RECORD_HEAD;
use faults::Refusal;
use limits::{COLUMN_LIMIT, FACT_LIMIT, LITERALS_FROM};
use model::{settle, write};
use question::{CHECKING, Progress, Read, read_question};
use records::{record_places, u32_at};

// What a ticket that is accepted shows.
#[derive(Clone, Copy)]
pub enum Verdict {
    // No solution, with the set of the constraints that took part (02, L5).
    NoSolution(Words),
    // Strings: the answer stands in the answer buffer.
    Strings,
}

// ---- after the steps

// After the last closed branch: the end, with the set of the constraints that took part. No answer buffer is written.
fn at_end(ticket: &[u8], at: usize, r: usize, words: Words) -> Result<Verdict, Refusal>
    ensures { (s : Progress) (answer : List ℕ) (set : Set) → words ≡ words_of set
        → Decided (outcome_from ticket.now s (proving closed) r at) set answer answer result }
{
    end_fault(ticket, at).map_err(|fault| fault.at(r))?;
    Ok(Verdict::NoSolution(words))
}

// The model's record, the end after it, and the answer, which is written when both are good.
fn at_model(
    ticket: &[u8],
    s: Progress,
    at: usize,
    r: usize,
    work: &[i64],
    count: usize,
    answer: &mut [u8],
) -> Result<Verdict, Refusal>
    requires { Posed ticket.now s × (kind ticket.now at ≡ 7) × (next ticket.now at ≤ length ticket.now) × (r ≤ at)
        × Fine work.now count × (answer_bytes ≤ length answer.old) }
    ensures { (set : Set) → Decided (outcome_from ticket.now s (taking (branch_of work.now count)) r at)
        set answer.old answer.new result }
{
    let size = u32_at(ticket, at);
    let body = at + RECORD_HEAD;
    let places = record_places(ticket, LITERALS_FROM, s.literals);
    let mut model = [0i64; COLUMN_LIMIT];
    let labels = settle(ticket, &places, s, body, size, work, count, &mut model).map_err(
        |fault| fault.at(r),
    )?;
    let end = r + 1;
    end_fault(ticket, body + size).map_err(|fault| fault.at(end))?;
    write(ticket, &places, s, &labels, &model, answer);
    Ok(Verdict::Strings)
}

// ---- the whole ticket

// The steps, and what stands after them. The sets of the facts are kept in an array of their own.
fn behind_claim(
    ticket: &[u8],
    s: Progress,
    claim: Claim,
    at: usize,
    r: usize,
    work: &mut [i64],
    answer: &mut [u8],
) -> Result<Verdict, Refusal>
    requires { Loaded ticket.now s work.old × (r ≤ at) × (answer_bytes ≤ length answer.old) }
    ensures { Decided (walk_from claim ticket.now s r at)
        (core_in (asked ticket.now s) (steps_from ticket.now at)) answer.old answer.new result }
{
    let mut sets = [no_constraint(); FACT_LIMIT];
    match walk(ticket, s, claim, at, r, work, &mut sets)? {
        Walked::Closed(to, k, words) => at_end(ticket, to, k, words),
        Walked::Model(to, k, count) => at_model(ticket, s, to, k, work, count, answer),
    }
}

// The claim and what stands after it, where reading of the question ended.
fn behind_question(
    ticket: &[u8],
    read: Read,
    work: &mut [i64],
    answer: &mut [u8],
) -> Result<Verdict, Refusal>
    requires read_to_claim { ReadToClaim ticket.now read.numbers read.at read.«record» }
    requires work_numbers_in_bounds { (work_numbers ≤ length work.old) × (answer_bytes ≤ length answer.old) }
    ensures { Decided (claimed_from ticket.now read.numbers read.at read.«record») (core ticket.now) answer.old answer.new result }
{
    let Read {
        numbers,
        at,
        record,
    } = read;
    let claim = read_claim(ticket, numbers, at).map_err(|fault| fault.at(record))?;
    load(ticket, numbers, work);
    behind_claim(ticket, numbers, claim, at + 8, record + 1, work, answer)
}

// The outcome on buffers that are large enough. Anything may be left in the work area.
pub fn decide(ticket: &[u8], work: &mut [i64], answer: &mut [u8]) -> Result<Verdict, Refusal>
    requires { (work_numbers ≤ length work.old) × (answer_bytes ≤ length answer.old) }
    ensures { Decided (read_whole ticket.now) (core ticket.now) answer.old answer.new result }
{
    behind_question(ticket, read_question(CHECKING, ticket)?, work, answer)
}
