// The derivation: what a step comes to, under either claim.
#![tactic(auto)]

ghost use Rattle.std.specs.Prelude.{◌≡◌, ℕ, ◌+◌, ◌≤◌, ◌<◌, length, IfOk};
ghost use Rattle.faults.specs.Numbers.{fault_in};
ghost use Rattle.format.specs.Records.{size as size_of};
ghost use Rattle.steps.specs.Rules.{rule_named};
ghost use Rattle.steps.specs.Conclusions.{conclusions_of};
ghost use Rattle.steps.specs.declared.Conclusions.TheVariants.{Nothing, One, Several};
ghost use Rattle.steps.specs.Ready.{ReadyBy};
ghost use Rattle.conclusions.specs.Labels.{Labelled};
ghost use Rattle.branch.specs.Stack.{stack, latest_of};
ghost use Rattle.derivation.specs.State.{tried_at, CutsBack, KeepsBelow};
ghost use Rattle.derivation.specs.Ok.{InOrder};
ghost use Rattle.derivation.specs.Actions.{ActsOn, ConcludesUnder, begun_child, begun_as, ReadyUnder};

use branch::{Branch, Split};
use delimiters::Claim;
use encoding::RECORD_HEAD;
use faults::Fault;
use limits::NODE_COUNT;
use question::Progress;
use records::{u16_at, u32_at};
use splits::put_child;
use steps::{CHILD_FIELD, Conclusions, Rule, Step};
use trials::split_fault;

// What a step that fits comes to. Closes: the branch is closed. Extends: the number of facts on the branch then. Splits: the number of facts on the branch of its
// first child, and that of its children.
#[derive(Clone, Copy, Debug, PartialEq, Eq)]
pub enum Action {
    Closes,
    Extends(usize),
    Splits(usize, usize),
}

// ---- a step on the branch of the first rows, with so many splits pending

// A step of A-Conf or S-Conf, which closes the branch where it fits. "Closing rules do not fit under claim 2".
fn take_closing(
    ticket: &[u8],
    s: Progress,
    claim: Claim,
    rule: Rule,
    record: usize,
    size: usize,
    work: &[i64],
    count: usize,
    labels: [u8; NODE_COUNT],
) -> Result<Action, Fault>
    requires ready_under { ReadyUnder claim rule ticket.now s «record» size work.now count }
    requires rule_value { (conclusions_of (rule_named rule) ≡ Nothing) × Labelled rule labels work.now count }
    ensures number { (pending : ℕ) → fault_in result ≡ tried_at claim ticket.now s «record» work.now count pending }
    ensures acts { (pending : ℕ) → IfOk result (λ a. ActsOn claim ticket.now s «record» pending work.now count work.now a) }
{
    match claim {
        Claim::NoSolution => {
            let body = record + RECORD_HEAD;
            let step = Step { rule, body, size };
            if !conclusions::closes(ticket, s, step, work, count, labels) {
                return Err(Fault::DoesNotFit);
            }
            Ok(Action::Closes)
        }
        Claim::Strings => Err(Fault::DoesNotFit),
    }
}

// A step of a rule with one conclusion, under either claim: its fact is added, where none of 8 to 10 applies.
fn take_conclusion(
    ticket: &[u8],
    s: Progress,
    rule: Rule,
    record: usize,
    size: usize,
    work: &mut [i64],
    count: usize,
    labels: [u8; NODE_COUNT],
) -> Result<Action, Fault>
    requires ready_by { ReadyBy rule One ticket.now s («record» + 6) size work.old count × (size ≡ size_of ticket.now «record») }
    requires labelled { Labelled rule labels work.old count }
    ensures { ConcludesUnder ticket.now s «record» size work.old count work.new result }
{
    let body = record + RECORD_HEAD;
    let step = Step { rule, body, size };
    conclusions::conclude(ticket, s, step, work, count, labels)?;
    Ok(Action::Extends(count + 1))
}

// The child of a split that begins: the first under claim 1, the one taken under claim 2.
fn begun_child(ticket: &[u8], claim: Claim, body: usize) -> usize
    requires { body + 4 ≤ length ticket.now }
    ensures { result ≡ begun_child claim ticket.now body }
{
    match claim {
        Claim::NoSolution => 1,
        Claim::Strings => u16_at(ticket, body + CHILD_FIELD),
    }
}

// What a split of so many children comes to, once a child has begun: it is pending under claim 1 alone, and only where a second child is left.
fn begun_as(claim: Claim, last: usize, begun: usize) -> Action
    ensures { result ≡ begun_as claim last begun }
{
    match claim {
        Claim::NoSolution => {
            if last <= 1 {
                Action::Extends(begun)
            } else {
                Action::Splits(begun, last)
            }
        }
        Claim::Strings => Action::Extends(begun),
    }
}

// A step of a rule with several conclusions: a child begins, where none of 8 to 10 applies.
fn take_split(
    ticket: &[u8],
    s: Progress,
    claim: Claim,
    rule: Rule,
    record: usize,
    size: usize,
    work: &mut [i64],
    count: usize,
    pending: usize,
) -> Result<Action, Fault>
    requires { ReadyUnder claim rule ticket.now s «record» size work.old count × (conclusions_of (rule_named rule) ≡ Several) }
    ensures number { fault_in result ≡ tried_at claim ticket.now s «record» work.old count pending }
    ensures acts { IfOk result (λ a. ActsOn claim ticket.now s «record» pending work.old count work.new a) }
{
    let body = record + RECORD_HEAD;
    let step = Step { rule, body, size };
    split_fault(ticket, s, claim, step, work, count, pending)?;
    let last = steps::child_count(rule, s.n, size);
    let child = begun_child(ticket, claim, body);
    let begun = put_child(ticket, s, step, work, count, child);
    Ok(begun_as(claim, last, begun))
}

// The step in the record at a position, with the labels of the branch where its rule asks for classes.
pub fn take_step(
    ticket: &[u8],
    s: Progress,
    claim: Claim,
    rule: Rule,
    record: usize,
    size: usize,
    work: &mut [i64],
    count: usize,
    pending: usize,
    labels: [u8; NODE_COUNT],
) -> Result<Action, Fault>
    requires { ReadyUnder claim rule ticket.now s «record» size work.old count × Labelled rule labels work.old count }
    ensures number { fault_in result ≡ tried_at claim ticket.now s «record» work.old count pending }
    ensures acts { IfOk result (λ a. ActsOn claim ticket.now s «record» pending work.old count work.new a) }
{
    match steps::conclusions_of(rule) {
        Conclusions::Nothing => {
            take_closing(ticket, s, claim, rule, record, size, work, count, labels)
        }
        Conclusions::One => take_conclusion(ticket, s, rule, record, size, work, count, labels),
        Conclusions::Several => {
            take_split(ticket, s, claim, rule, record, size, work, count, pending)
        }
    }
}

// ---- a closed branch

// "a closed branch is cut back to the mark of its last pending split", which is given, and its next child begins.
pub fn next_child(ticket: &[u8], s: Progress, work: &mut [i64], b: Branch, split: Split) -> Branch
    requires { InOrder ticket.now s work.old b × (0 < b.depth) × (split ≡ latest_of (stack b)) }
    ensures state { CutsBack ticket.now s work.old b work.new result }
    ensures holds { InOrder ticket.now s work.new result }
    ensures below { KeepsBelow split.mark work.old work.new result }
{
    let record = split.at as usize;
    let size = u32_at(ticket, record);
    let body = record + RECORD_HEAD;
    let rule = steps::rule_of(u16_at(ticket, body));
    let step = Step { rule, body, size };
    let count = put_child(
        ticket,
        s,
        step,
        work,
        split.mark as usize,
        split.child as usize,
    );
    b.cut_back().take_next_child().extend(count)
}
