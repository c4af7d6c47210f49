// The rules that close a branch, A-Conf and S-Conf, and those with one conclusion: Sum, S-Prop, L-Intro, C-Collapse and Join.
#![tactic(auto)]

ghost use Rattle.std.specs.Prelude.{◌≡◌, ◌+◌, ◌*◌, ◌<◌, ◌≤◌, length, neg_ℤ, OnOk};
ghost use Rattle.calculus.specs.Limits.{variable_limit, literal_limit};
ghost use Rattle.calculus.specs.Classes as calculus;
ghost use Rattle.calculus.specs.Facts.{Question, value_of};
ghost use Rattle.calculus.specs.Steps.{AConf, SConf, SProp, Join};
ghost use Rattle.calculus.specs.Rules.{children};
ghost use Rattle.faults.specs.Numbers.{fault_in};
ghost use Rattle.format.specs.Fields.{u32s};
ghost use Rattle.format.specs.StepForms.{function_of};
ghost use Rattle.question.specs.Posed.{Posed};
ghost use Rattle.rows.specs.Rows.{branch_of};
ghost use Rattle.rows.specs.Work.{Fine};
ghost use Rattle.classes.specs.Classes.{Knows};
ghost use Rattle.steps.specs.declared.Conclusions.TheVariants.{Nothing, One};
ghost use Rattle.steps.specs.Offered.{offered_on, with_child, child_fault};
ghost use Rattle.steps.specs.Ready.{ReadyBy};
ghost use Rattle.conclusions.specs.Labels.{KnownFor, Labelled};
ghost use Rattle.conclusions.specs.Made.{closing_of, Concludes, ConcludesBy, of_literal};
ghost use Rattle.conclusions.specs.Sums.{FormedSum, sum_at};

use classes::Known;
use encoding::{CODE, EQ, LEN};
use faults::Fault;
use limits::{FACT_LIMIT, NODE_COUNT, ROW_LENGTH};
use question::{Progress, column_of};
use records::{u16_at, u32_at};
use steps::{OPERANDS, Rule, Step};

// ---- classes

// What is known of the classes where a step is by a rule: all `count` facts are brought in if the rule asks for classes.
pub fn classes_for(rule: Rule, known: Known, work: &[i64], count: usize) -> Known
    requires { Knows work.now count known × Fine work.now count }
    ensures { KnownFor rule known work.now count result }
{
    match rule {
        Rule::SConf | Rule::SProp | Rule::LIntro | Rule::CCollapse => {
            classes::bring_up(known, work, count)
        }
        Rule::Sum | Rule::AConf | Rule::Join | Rule::Unknown => known,
        Rule::Branch | Rule::Apart | Rule::LValid | Rule::CValid | Rule::CInj | Rule::Card => known,
    }
}

// ---- rules that close

// A-Conf: "an arithmetic fact without coefficients and false".
fn a_conf(k: usize, work: &[i64], count: usize) -> bool
    requires { Fine work.now count }
    ensures { (u : Question) → closing_of result ≡ children u (branch_of work.now count) (AConf k) }
{
    k < count && rows::is_false(rows::row_at(work, k))
}

// S-Conf, where the question has so many literals besides the empty one.
fn s_conf(literals: usize, work: &[i64], count: usize, labels: [u8; NODE_COUNT]) -> bool
    requires fine { Fine work.now count × (literals ≤ literal_limit) }
    requires labels_value { labels ≡ calculus.labels (branch_of work.now count) }
    ensures { (u : Question) → length u.literals ≡ literals → closing_of result ≡ children u (branch_of work.now count) SConf }
{
    classes::conflict(work, count, &labels, literals + 1)
}

// Does a step of A-Conf or S-Conf close the branch?
pub fn closes(
    ticket: &[u8],
    s: Progress,
    step: Step,
    work: &[i64],
    count: usize,
    labels: [u8; NODE_COUNT],
) -> bool
    requires ready_by { ReadyBy step.rule Nothing ticket.now s step.body step.size work.now count }
    requires labelled { Labelled step.rule labels work.now count }
    ensures { closing_of result ≡ offered_on ticket.now s step.body step.size work.now count }
{
    match step.rule {
        Rule::AConf => a_conf(u16_at(ticket, step.body + OPERANDS), work, count),
        Rule::SConf => s_conf(s.literals, work, count, labels),
        Rule::Sum | Rule::SProp | Rule::LIntro | Rule::CCollapse | Rule::Join => false,
        Rule::Branch | Rule::Apart | Rule::LValid | Rule::CValid | Rule::CInj | Rule::Card => false,
        Rule::Unknown => false,
    }
}

// ---- rules with one conclusion: the first of 8 to 10 that applies; where none does, the fact that the step adds stands after the others. Only Sum can make a number
// that passes the limit (9).

// Sum: "Adds a ≥ fact", or an equation. It is summed in a row aside: 8 and 9 come before 10, and after 128 facts there is no stretch to sum in.
fn sum(ticket: &[u8], body: usize, size: usize, work: &mut [i64], count: usize) -> Result<(), Fault>
    requires formed_sum { FormedSum ticket.now body size }
    requires fine { Fine work.old count }
    ensures { (u : Question) → ConcludesBy u (sum_at ticket.now body size) work.old count work.new result }
{
    let mut row = [0i64; ROW_LENGTH];
    let divisor = u32_at(ticket, body + OPERANDS);
    let pairs = (size - 8) / 6;
    if !sums::sum_row(&mut row, ticket, body + 8, pairs, divisor, work, count) {
        return Err(Fault::DoesNotFit);
    }
    if FACT_LIMIT <= count {
        return if rows::fact_within(&row) {
            Err(Fault::NoRoom)
        } else {
            Err(Fault::PassesLimit)
        };
    }
    if rows::put_within(work, count, &row) {
        Ok(())
    } else {
        Err(Fault::PassesLimit)
    }
}

// S-Prop: "Adds f(x) − f(y) = 0", for different variables of one class.
fn s_prop(
    p: usize,
    q: usize,
    function: usize,
    x: usize,
    y: usize,
    work: &mut [i64],
    count: usize,
    labels: [u8; NODE_COUNT],
) -> Result<(), Fault>
    requires fine { Fine work.old count × (p ≤ variable_limit) × (q ≤ variable_limit) × (x < p) × (y < p) }
    requires labels_value { labels ≡ calculus.labels (branch_of work.old count) }
    ensures { (u : Question) → u.p ≡ p → u.q ≡ q
        → ConcludesBy u (SProp (function_of function) x y) work.old count work.new result }
{
    if x == y || !classes::one_class(&labels, x, y) {
        return Err(Fault::DoesNotFit);
    }
    let column = column_of(p, q, function, x);
    let other = column_of(p, q, function, y);
    if FACT_LIMIT <= count {
        return Err(Fault::NoRoom);
    }
    rows::put_difference(work, count, EQ, column, other);
    Ok(())
}

// The negative of function (0 len, 1 code) of a text.
fn negative_of_text(ticket: &[u8], function: usize, at: usize, count: usize) -> i64
    requires { at + 4 * count ≤ length ticket.now }
    ensures { result ≡ neg_ℤ (value_of (function_of function) (u32s ticket.now at count)) }
{
    if function == LEN {
        -(count as i64)
    } else {
        -question::text_code(ticket, at, count)
    }
}

// L-Intro, with len: "Adds len(x) = length of l"; C-Collapse, with code: "Adds code(x) = code of l, or −1".
fn of_literal(
    ticket: &[u8],
    s: Progress,
    function: usize,
    x: usize,
    work: &mut [i64],
    count: usize,
    labels: [u8; NODE_COUNT],
) -> Result<(), Fault>
    requires posed { Posed ticket.now s × Fine work.old count × (x < s.p) }
    requires labels_value { labels ≡ calculus.labels (branch_of work.old count) }
    ensures { Concludes (of_literal ticket.now s work.old count function x) work.old count work.new result }
{
    let l = classes::class_literal(&labels, s.literals + 1, x).ok_or(Fault::DoesNotFit)?;
    let text = question::literal_text(ticket, l);
    let constant = negative_of_text(ticket, function, text.at, text.count);
    let column = column_of(s.p, s.q, function, x);
    if FACT_LIMIT <= count {
        return Err(Fault::NoRoom);
    }
    rows::put_single(work, count, EQ, constant, column, 1);
    Ok(())
}

// Join: "Adds the first as an equation", of two facts, each ≥ or an equation, one the negative of the other.
fn join(j: usize, k: usize, work: &mut [i64], count: usize) -> Result<(), Fault>
    requires { Fine work.old count }
    ensures { (u : Question) → ConcludesBy u (Join j k) work.old count work.new result }
{
    if count <= j || count <= k || !rows::joins(rows::row_at(work, j), rows::row_at(work, k)) {
        return Err(Fault::DoesNotFit);
    }
    if FACT_LIMIT <= count {
        return Err(Fault::NoRoom);
    }
    rows::put_equation(work, count, j);
    Ok(())
}

// The first of 8 to 10 that applies to a step of a rule with one conclusion; where none does, its fact stands after the others.
pub fn conclude(
    ticket: &[u8],
    s: Progress,
    step: Step,
    work: &mut [i64],
    count: usize,
    labels: [u8; NODE_COUNT],
) -> Result<(), Fault>
    requires ready_by { ReadyBy step.rule One ticket.now s step.body step.size work.old count }
    requires labelled { Labelled step.rule labels work.old count }
    ensures fault { fault_in result ≡ child_fault ticket.now s step.body step.size work.old count 1 }
    ensures added { OnOk result (branch_of work.new (count + 1) ≡ with_child ticket.now s step.body step.size work.old count 1) }
    ensures fine { OnOk result (Fine work.new (count + 1)) }
{
    let first = u16_at(ticket, step.body + OPERANDS);
    match step.rule {
        Rule::Sum => sum(ticket, step.body, step.size, work, count),
        Rule::SProp => {
            let x = u16_at(ticket, step.body + 6);
            let y = u16_at(ticket, step.body + 8);
            s_prop(s.p, s.q, first, x, y, work, count, labels)
        }
        Rule::LIntro => of_literal(ticket, s, LEN, first, work, count, labels),
        Rule::CCollapse => of_literal(ticket, s, CODE, first, work, count, labels),
        Rule::Join => join(first, u16_at(ticket, step.body + 6), work, count),
        Rule::AConf | Rule::SConf | Rule::Unknown => Err(Fault::DoesNotFit),
        Rule::Branch | Rule::Apart | Rule::LValid | Rule::CValid | Rule::CInj | Rule::Card => {
            Err(Fault::DoesNotFit)
        }
    }
}
