// Trials of a split: the numbers 8 to 10 of all its children under claim 1, of the child taken under claim 2.
#![tactic(auto)]

ghost use Rattle.std.specs.Prelude.{◌≡◌, true, List, map, ℕ, ◌≤◌, length};
ghost use Rattle.calculus.specs.Limits.{fact_limit};
ghost use Rattle.calculus.specs.Facts.{Fact};
ghost use Rattle.faults.specs.Numbers.{fault_in};
ghost use Rattle.format.specs.StepForms.{form_for, fits_form, step_at, child_in_range};
ghost use Rattle.format.specs.Checking.{fits, room_for_all, room_to_pend};
ghost use Rattle.steps.specs.Rules.{rule_named, shape_of};
ghost use Rattle.steps.specs.Conclusions.{conclusions_of};
ghost use Rattle.steps.specs.declared.Conclusions.TheVariants.{Several};
ghost use Rattle.steps.specs.Faults.{field_fits};
ghost use Rattle.steps.specs.Offered.{offered_on, child_fault, all_fault, tried_under};
ghost use Rattle.steps.specs.Ready.{ReadyBy};
ghost use Rattle.trials.specs.Rooms.{ChildrenBy};

use delimiters::Claim;
use faults::Fault;
use limits::{FACT_LIMIT, PENDING_LIMIT};
use question::Progress;
use records::u16_at;
use steps::{CHILD_FIELD, Rule, Step};

// ---- a split under claim 1

// "10 when facts .. would pass theirs", of all children of a split: C-Valid's last child adds three facts, a child of any other rule one.
fn room_for_all(rule: Rule, count: usize) -> bool
    requires { (conclusions_of (rule_named rule) ≡ Several) × (count ≤ fact_limit) }
    ensures { (cs : List (List Fact)) → ChildrenBy rule cs → result ≡ room_for_all count cs }
{
    match rule {
        Rule::CValid => count + 3 <= FACT_LIMIT,
        Rule::Branch | Rule::Apart | Rule::LValid | Rule::CInj | Rule::Card => {
            count + 1 <= FACT_LIMIT
        }
        Rule::Sum | Rule::SProp | Rule::LIntro | Rule::CCollapse | Rule::Join => true,
        Rule::AConf | Rule::SConf | Rule::Unknown => true,
    }
}

// "10 when .. pending splits would pass theirs": Card with two variables over one character has one child only, and is never pending.
fn room_to_pend(rule: Rule, n: usize, size: usize, pending: usize) -> bool
    requires { fits_form (form_for (rule_named rule)) size ≡ true }
    ensures { (b : List ℕ) (body : ℕ) (cs : List (List Fact)) → map length cs ≡ shape_of rule n b body size → result ≡ room_to_pend pending cs }
{
    steps::child_count(rule, n, size) <= 1 || pending < PENDING_LIMIT
}

// "Under claim 1 all children of a split are tried for 9 and 10 at the split's own record", of a step that fits.
fn all_fault(
    ticket: &[u8],
    s: Progress,
    step: Step,
    work: &[i64],
    count: usize,
    pending: usize,
) -> Result<(), Fault>
    requires ready_by { ReadyBy step.rule Several ticket.now s step.body step.size work.now count }
    requires count_value { fits (offered_on ticket.now s step.body step.size work.now count) ≡ true }
    ensures { fault_in result ≡ all_fault ticket.now s step.body step.size work.now count pending }
{
    if !splits::children_within(ticket, s, step, work, count) {
        return Err(Fault::PassesLimit);
    }
    if !room_for_all(step.rule, count) || !room_to_pend(step.rule, s.n, step.size, pending) {
        return Err(Fault::NoRoom);
    }
    Ok(())
}

// ---- the child taken under claim 2

// "under claim 2 only the one taken": child k of a step that fits.
fn taken_fault(
    ticket: &[u8],
    s: Progress,
    step: Step,
    work: &[i64],
    count: usize,
    k: usize,
) -> Result<(), Fault>
    requires ready_by { ReadyBy step.rule Several ticket.now s step.body step.size work.now count }
    requires count_value { fits (offered_on ticket.now s step.body step.size work.now count) ≡ true }
    requires k_value { child_in_range s.n (step_at ticket.now step.body step.size) k ≡ true }
    ensures { fault_in result ≡ child_fault ticket.now s step.body step.size work.now count k }
{
    if !splits::child_within(ticket, s, step, work, count, k) {
        return Err(Fault::PassesLimit);
    }
    if FACT_LIMIT - count < steps::child_facts(step.rule, k) {
        return Err(Fault::NoRoom);
    }
    Ok(())
}

// ---- under either claim

// The first of 8 to 10 that applies to a split.
pub fn split_fault(
    ticket: &[u8],
    s: Progress,
    claim: Claim,
    step: Step,
    work: &[i64],
    count: usize,
    pending: usize,
) -> Result<(), Fault>
    requires ready_by { ReadyBy step.rule Several ticket.now s step.body step.size work.now count }
    requires size_value { field_fits claim ticket.now s.n step.body step.size ≡ true }
    ensures { fault_in result ≡ tried_under claim ticket.now s step.body step.size work.now count pending }
{
    if !splits::fits(ticket, s, step, work, count) {
        return Err(Fault::DoesNotFit);
    }
    match claim {
        Claim::NoSolution => all_fault(ticket, s, step, work, count, pending),
        Claim::Strings => {
            let k = u16_at(ticket, step.body + CHILD_FIELD);
            taken_fault(ticket, s, step, work, count, k)
        }
    }
}
