// How much a ticket will need: "the number of steps, the most facts on any branch and the most pending splits" (02, L2). Its records are read as checking reads
// them, but every step is taken as if it fitted, so that a branch is the number of its facts.
#![tactic(auto)]

ghost use Rattle.std.specs.Prelude.{◌≡◌, true, List, ◌∷◌, ℕ, ◌+◌, ◌<◌, ◌≤◌, [], length};
ghost use Rattle.std.proofs.Math.Option.{get_or};
ghost use Rattle.calculus.specs.Limits.{ticket_bytes};
ghost use Rattle.calculus.specs.Children.{child_at};
ghost use Rattle.calculus.specs.Walk.{closed, cut_back};
ghost use Rattle.calculus.specs.Walk as calculus;
ghost use Rattle.format.specs.Needs.{needed};
ghost use Rattle.format.specs.Reading.{proving, taking};
ghost use Rattle.format.specs.StepForms.{form_for, fits_form, is_child};
ghost use Rattle.question.specs.Posed.{asked};
ghost use Rattle.steps.specs.Rules.{rule_named, shape_of};
ghost use Rattle.question.specs.declared.Progress.{Progress};
ghost use Rattle.needs.specs.Pending.{waiting, deepest, walk_of};
ghost use Rattle.needs.specs.Steps.{Fit, Enters};
ghost use Rattle.needs.specs.Outcomes.{report_is, with_step, with_state, need_of, need_from, Within, WalksTo, need_started, ModelHere};

use delimiters::{Claim, end_fault, ends_steps, model_fault, read_claim};
use encoding::RECORD_HEAD;
use faults::{Fault, Refusal};
use limits::TICKET_BYTES;
use question::{NEEDING, Progress, read_question};
use records::{Found, read_at, u16_at, u32_at};
use std::marker::Model;
use steps::{CHILD_FIELD, Rule, child_count, child_facts, record_fault, rule_of};

// ---- pending splits

// A split with children pending: its mark, how many facts each child to come adds, and how many children stand after the next.
#[derive(Clone, Copy)]
struct Split {
    mark: u16,
    facts: u16,
    more: u16,
}

// A step takes ten bytes at least: no ticket has more splits pending.
const PENDING_ROOM: usize = TICKET_BYTES / 10;

// The pending splits of a walk: so many, from the first one of the array on.
#[derive(Drop)]
struct PendingSplits {
    depth: usize,
    splits: [Split; PENDING_ROOM],
}

impl Model for PendingSplits {
    ghost use Rattle.std.specs.Prelude.{ℕ, ◌≤◌, List};
    ghost use Rattle.calculus.specs.Walk.{Waiting};
    ghost use Rattle.needs.specs.Pending.{last_first, deepest};

    ghost Value = { List (Waiting ℕ ℕ) };

    ghost view = { λ p. last_first p.depth p.splits };

    ghost invariant = { λ p. p.depth ≤ deepest };
}

impl PendingSplits {
    fn new() -> PendingSplits
        ensures { result ≡ [] }
    {
        let none = Split {
            mark: 0,
            facts: 0,
            more: 0,
        };
        PendingSplits {
            depth: 0,
            splits: [none; PENDING_ROOM],
        }
    }

    fn len(&self) -> usize
        ensures { result ≡ length self.now }
    {
        self.depth
    }

    // A split pends after the others.
    fn push(&mut self, split: Split)
        requires { length self.old < deepest }
        ensures { self.new ≡ waiting split ∷ self.old }
    {
        self.splits[self.depth] = split;
        self.depth += 1;
    }

    // "a closed branch is cut back to the mark of its last pending split", and its next child begins, on a branch of so many facts; with no split pending,
    // every branch is closed.
    fn take_next(&mut self) -> Option<usize>
        ensures { walk_of result self.new ≡ cut_back ◌+◌ self.old }
    {
        if self.depth == 0 {
            return None;
        }
        let last = self.depth - 1;
        let split = self.splits[last];
        if split.more == 0 {
            self.depth = last;
        } else {
            self.splits[last] = Split {
                more: split.more - 1,
                ..split
            };
        }
        Some(usize::from(split.mark) + usize::from(split.facts))
    }
}

// ---- a step

// Claim 1: the first child of a rule's step begins on a branch of so many facts; none does once every branch is closed.
fn enter(
    rule: Rule,
    n: usize,
    size: usize,
    facts: usize,
    pending: &mut PendingSplits,
) -> Option<usize>
    requires { (fits_form (form_for (rule_named rule)) size ≡ true) × (facts < 65536) × (length pending.old < deepest) }
    ensures { (b : List ℕ) (body : ℕ) → walk_of result pending.new ≡ calculus.enter ◌+◌ facts (shape_of rule n b body size) pending.old }
{
    let children = child_count(rule, n, size);
    if children == 0 {
        return pending.take_next();
    }
    let first = facts + child_facts(rule, 1);
    if children == 1 {
        return Some(first);
    }
    pending.push(Split {
        mark: facts as u16,
        facts: child_facts(rule, 2) as u16,
        more: (children - 2) as u16,
    });
    Some(first)
}

// Claim 2: how many facts child k adds; "a closing rule .. adds no fact".
fn taken_facts(rule: Rule, n: usize, size: usize, k: usize) -> usize
    requires { fits_form (form_for (rule_named rule)) size ≡ true }
    ensures { (b : List ℕ) (body : ℕ) → is_child (shape_of rule n b body size) k ≡ true
        → result ≡ get_or (child_at (shape_of rule n b body size) k) 0 }
{
    if child_count(rule, n, size) == 0 {
        0
    } else {
        child_facts(rule, k)
    }
}

// The step of proper form in the record at a position, on a branch of so many facts: how many stand on the branch that is worked on next, if any is.
fn take_step(
    ticket: &[u8],
    s: Progress,
    claim: Claim,
    at: usize,
    size: usize,
    facts: usize,
    pending: &mut PendingSplits,
) -> Option<usize>
    requires { Fit claim ticket.now s at size × (facts < 65536) × (length pending.old < deepest) }
    ensures { Enters claim ticket.now s at facts pending.old pending.new result }
{
    let rule = rule_of(u16_at(ticket, at + RECORD_HEAD));
    match claim {
        Claim::NoSolution => enter(rule, s.n, size, facts, pending),
        Claim::Strings => {
            let k = u16_at(ticket, at + RECORD_HEAD + CHILD_FIELD);
            Some(facts + taken_facts(rule, s.n, size, k))
        }
    }
}

// ---- the report

#[derive(Clone, Copy, Debug, PartialEq, Eq)]
pub struct Report {
    pub steps: usize,
    // The most on any branch.
    pub facts: usize,
    // The most at any time.
    pub pending: usize,
}

impl Report {
    // With a state met where so many facts stand on the branch and so many splits are pending.
    fn with_state(self, facts: usize, pending: usize) -> Report
        ensures { report_is result ≡ with_state (report_is self) facts pending }
    {
        Report {
            facts: self.facts.max(facts),
            pending: self.pending.max(pending),
            ..self
        }
    }

    // With a step more.
    fn with_step(self) -> Report
        requires { self.steps ≤ ticket_bytes }
        ensures { report_is result ≡ with_step (report_is self) }
    {
        Report {
            steps: self.steps + 1,
            ..self
        }
    }
}

// ---- all steps

// Where a walk ends: the record at a position, by its number, and the report so far.
#[derive(Clone, Copy)]
enum Walked {
    // Every branch is closed. The record is the one after the last step.
    Closed {
        at: usize,
        record: usize,
        report: Report,
    },
    // The record is the model.
    Model {
        at: usize,
        record: usize,
        report: Report,
    },
}

// The records from the one after the claim, record r at a position, on the question's constraints: until every branch is closed, or up to the model.
fn walk(ticket: &[u8], s: Progress, claim: Claim, from: usize, r: usize) -> Result<Walked, Refusal>
    requires { Within ticket.now s from r }
    ensures { WalksTo ticket.now s (need_started claim ticket.now s r from) result }
{
    let mut pending = PendingSplits::new();
    let mut report = Report {
        steps: 0,
        facts: 0,
        pending: 0,
    };
    let mut facts = s.constraints;
    let mut at = from;
    let mut record = r;
    // The bytes say where the steps end: no count is known before.
    loop {
        report = report.with_state(facts, pending.len());
        let Found::Whole(kind, size) = read_at(ticket, at) else {
            return Err(Fault::CutShort.at(record));
        };
        if ends_steps(claim, kind) {
            return Ok(Walked::Model { at, record, report });
        }
        record_fault(ticket, s, claim, at, kind, size).map_err(|fault| fault.at(record))?;
        report = report.with_step();
        let entered = take_step(ticket, s, claim, at, size, facts, &mut pending);
        at += RECORD_HEAD + size;
        record += 1;
        match entered {
            Some(next) => facts = next,
            None => return Ok(Walked::Closed { at, record, report }),
        }
    }
}

// ---- the whole ticket

// After the last closed branch: the end.
fn at_end(ticket: &[u8], at: usize, r: usize, report: Report) -> Result<Report, Refusal>
    ensures { (s : Progress) → need_of result ≡ need_from ticket.now (asked ticket.now s) (proving closed) (report_is report) r at }
{
    end_fault(ticket, at).map_err(|fault| fault.at(r))?;
    Ok(report)
}

// The model's record, of which 5 and 6 are tested, and the end after it.
fn at_model(
    ticket: &[u8],
    s: Progress,
    at: usize,
    r: usize,
    report: Report,
) -> Result<Report, Refusal>
    requires { ModelHere ticket.now s at r }
    ensures { (facts : ℕ) → facts ≤ report.facts
        → need_of result ≡ need_from ticket.now (asked ticket.now s) (taking facts) (report_is report) r at }
{
    let size = u32_at(ticket, at);
    model_fault(ticket, s, at + RECORD_HEAD, size).map_err(|fault| fault.at(r))?;
    end_fault(ticket, at + RECORD_HEAD + size).map_err(|fault| fault.at(r + 1))?;
    Ok(report)
}

// What a ticket will need. "It never gives 10".
pub fn need_ticket(ticket: &[u8]) -> Result<Report, Refusal>
    ensures { need_of result ≡ needed ticket.now }
{
    let read = read_question(NEEDING, ticket)?;
    let s = read.numbers;
    let claim = read_claim(ticket, s, read.at).map_err(|fault| fault.at(read.record))?;
    match walk(ticket, s, claim, read.at + 8, read.record + 1)? {
        Walked::Closed { at, record, report } => at_end(ticket, at, record, report),
        Walked::Model { at, record, report } => at_model(ticket, s, at, record, report),
    }
}
