// The steps of a derivation under either claim: claim 1's walk over every branch, claim 2's path to its leaf.
#![tactic(auto)]

ghost use Rattle.std.specs.Prelude.{◌≡◌, ◌≤◌, IfOk};
ghost use Rattle.calculus.specs.Classes.{labels};
ghost use Rattle.rows.specs.Rows.{branch_of};
ghost use Rattle.rows.specs.Work.{Fine};
ghost use Rattle.question.specs.Posed.{Posed};
ghost use Rattle.cores.specs.Sets.{Roomy, Filled};
ghost use Rattle.delimiters.specs.declared.Claim.TheVariants.{NoSolution};
ghost use Rattle.calculus.specs.Limits.{fact_limit};
ghost use Rattle.claims.specs.Outcomes.{first_upto, Loaded, walk_from, walked_of, LeafAt, CoreAt};
ghost use Rattle.claims.specs.Steps.{FirstGrounds, BroughtUp, grounds_back, with_closing, SetOf, Added, NextAt};
ghost use Rattle.derivation.specs.Actions.{ReadyUnder};

use branch::Branch;
use classes::{Known, bring_up, nothing_known, set_back};
use conclusions::classes_for;
use cores::{Unions, Words, fill_sets, no_constraint, no_unions, root_sets, set_at, step_set};
use delimiters::{Claim, ends_steps};
use derivation::{Action, next_child, take_step};
use encoding::RECORD_HEAD;
use faults::{Fault, Refusal};
use question::Progress;
use records::{Found, read_at, u16_at};
use steps::{Rule, Step, record_fault, rule_of};

// ---- what is kept along the walk

// What is known of the classes of the question's constraints, for branches that are cut back. Under claim 2 none is.
fn first_known(claim: Claim, work: &[i64], constraints: usize) -> Known
    requires { Fine work.now constraints }
    ensures upto_value { result.upto ≡ first_upto claim constraints }
    ensures labels_value { result.labels ≡ labels (branch_of work.now (first_upto claim constraints)) }
{
    match claim {
        Claim::NoSolution => bring_up(nothing_known(), work, constraints),
        Claim::Strings => nothing_known(),
    }
}

// The unions of the sets of a branch's first facts, of as many as labels are known; those of the question's constraints, for branches that are cut back; and what
// the closing steps so far rest on. They are plain numbers, without an array.
#[derive(Clone, Copy)]
struct Grounds {
    unions: Unions,
    roots: Unions,
    core: Words,
}

impl Grounds {
    // At first: each constraint rests on itself. Under claim 2 no set is kept.
    fn first(claim: Claim, work: &[i64], sets: &mut [Words], constraints: usize) -> Grounds
        requires { Fine work.now constraints × Roomy sets.old }
        ensures { FirstGrounds claim work.now sets.new constraints result }
    {
        let core = no_constraint();
        match claim {
            Claim::NoSolution => {
                root_sets(sets, constraints);
                let roots = cores::bring_up(no_unions(), 0, work, sets, constraints);
                Grounds {
                    unions: roots,
                    roots,
                    core,
                }
            }
            Claim::Strings => {
                let roots = no_unions();
                Grounds {
                    unions: roots,
                    roots,
                    core,
                }
            }
        }
    }

    // The unions of the first `upto` facts are brought up to the first `count`.
    fn brought_up(
        self,
        claim: Claim,
        upto: usize,
        work: &[i64],
        sets: &[Words],
        count: usize,
    ) -> Grounds
        requires { (upto ≤ count) × Fine work.now count × Roomy sets.now }
        ensures { BroughtUp claim work.now sets.now upto count self result }
    {
        match claim {
            Claim::NoSolution => Grounds {
                unions: cores::bring_up(self.unions, upto, work, sets, count),
                ..self
            },
            Claim::Strings => self,
        }
    }

    // The unions of the first `mark` facts, where those of the first `upto` are kept: these, or, where they go further, those of the question's constraints.
    fn set_back(self, upto: usize, mark: usize) -> Grounds
        ensures { result ≡ grounds_back self upto mark }
    {
        if upto <= mark {
            self
        } else {
            Grounds {
                unions: self.roots,
                ..self
            }
        }
    }

    // A closing step rests on a set.
    fn with_closing(self, set: Words) -> Grounds
        ensures { result ≡ with_closing self set }
    {
        Grounds {
            core: self.core | set,
            ..self
        }
    }
}

// The set that the step in the record at a position rests on. Under claim 2 no set is kept.
fn set_of(
    claim: Claim,
    ticket: &[u8],
    s: Progress,
    rule: Rule,
    at: usize,
    size: usize,
    work: &[i64],
    count: usize,
    sets: &[Words],
    grounds: Grounds,
) -> Words
    requires { ReadyUnder claim rule ticket.now s at size work.now count × Roomy sets.now }
    ensures { SetOf claim rule ticket.now s at size work.now count sets.now grounds.unions result }
{
    match claim {
        Claim::NoSolution => {
            let step = Step {
                rule,
                body: at + RECORD_HEAD,
                size,
            };
            step_set(ticket, s, step, work, count, sets, grounds.unions)
        }
        Claim::Strings => no_constraint(),
    }
}

// The facts after the first `from`, which came with a child, rest on a set. Under claim 2 no set is kept.
fn keep_set(claim: Claim, sets: &mut [Words], from: usize, to: usize, set: Words)
    requires { (claim ≡ NoSolution → Added from to) × (to ≤ fact_limit) × Roomy sets.old }
    ensures { claim ≡ NoSolution → Filled sets.old from to set sets.new }
{
    match claim {
        Claim::NoSolution => fill_sets(sets, from, to, set),
        Claim::Strings => {}
    }
}

// ---- the records

// The record at a position where a branch is open: a step by its rule and the length of its body, or the model, which ends the steps.
#[derive(Clone, Copy)]
enum Next {
    Model,
    Step(Rule, usize),
}

fn next_record(ticket: &[u8], s: Progress, claim: Claim, at: usize) -> Result<Next, Fault>
    requires { Posed ticket.now s }
    ensures { NextAt claim ticket.now s at result }
{
    let Found::Whole(kind, size) = read_at(ticket, at) else {
        return Err(Fault::CutShort);
    };
    if ends_steps(claim, kind) {
        return Ok(Next::Model);
    }
    record_fault(ticket, s, claim, at, kind, size)?;
    let rule = rule_of(u16_at(ticket, at + RECORD_HEAD));
    Ok(Next::Step(rule, size))
}

// Closed: every branch is closed; the position and the number of the record after, and the core. Model: the position and the number of the model's record, and how
// many facts stand on the branch.
#[derive(Clone, Copy)]
pub enum Walked {
    Closed(usize, usize, Words),
    Model(usize, usize, usize),
}

// The records from the one after the claim, record r at a position, on the question's constraints: until every branch is closed, or up to the model. The sets of
// the facts stand in a lent slice. The branch's numbers are widened by `as` and not by `from`: what the loop keeps is said of them themselves.
pub fn walk(
    ticket: &[u8],
    s: Progress,
    claim: Claim,
    record: usize,
    r: usize,
    work: &mut [i64],
    sets: &mut [Words],
) -> Result<Walked, Refusal>
    requires { Loaded ticket.now s work.old × (r ≤ «record») × Roomy sets.old }
    ensures walked { walked_of ticket.now s work.new result ≡ walk_from claim ticket.now s r «record» }
    ensures leaf { IfOk result (λ w. LeafAt ticket.now work.new w) }
    ensures core { IfOk result (λ w. CoreAt ticket.now s «record» w) }
{
    let first = first_known(claim, work, s.constraints);
    let mut known = first;
    let mut grounds = Grounds::first(claim, work, sets, s.constraints);
    let mut b = Branch::new(s.constraints);
    let (mut i, mut k) = (record, r);
    loop {
        let mut count = b.count as usize;
        let found = next_record(ticket, s, claim, i).map_err(|fault| fault.at(k))?;
        let Next::Step(rule, size) = found else {
            return Ok(Walked::Model(i, k, count));
        };
        let next = i + RECORD_HEAD + size;
        let upto = known.upto;
        known = classes_for(rule, known, work, count);
        grounds = grounds.brought_up(claim, upto, work, sets, known.upto);
        let mut set = set_of(claim, ticket, s, rule, i, size, work, count, sets, grounds);
        let depth = b.depth as usize;
        let labels = known.labels;
        let step = take_step(ticket, s, claim, rule, i, size, work, count, depth, labels);
        let taken = step.map_err(|fault| fault.at(k))?;
        match taken {
            Action::Closes => {
                grounds = grounds.with_closing(set);
                if depth == 0 {
                    return Ok(Walked::Closed(next, k + 1, grounds.core));
                }
                let split = b.latest();
                count = split.mark as usize;
                set = set_at(sets, count);
                grounds = grounds.set_back(known.upto, count);
                known = set_back(known, first, count);
                b = next_child(ticket, s, work, b, split);
            }
            Action::Extends(facts) => b = b.extend(facts),
            Action::Splits(facts, last) => b = b.mark(i, last).extend(facts),
        }
        keep_set(claim, sets, count, b.count as usize, set);
        i = next;
        k += 1;
    }
}
