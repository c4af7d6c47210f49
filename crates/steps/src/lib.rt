// The form of a step's body: "6 step: u16 rule, u16 child, operands". Its length by its rule, the ranges of its fields, and the number of
// its rule's children. A body is its position and its size.
#![tactic(auto)]

ghost use Rattle.std.specs.Prelude.{◌≡◌, true, List, ℕ, ◌+◌, ◌*◌, ◌-◌, ◌<◌, ◌≤◌, length, get_or};
ghost use Rattle.calculus.specs.Limits.{variable_limit};
ghost use Rattle.calculus.specs.Alphabet.{character_count};
ghost use Rattle.calculus.specs.Steps.{pair_count, last_count};
ghost use Rattle.format.specs.Fields.{u16s, pairs_at};
ghost use Rattle.format.specs.StepForms as forms;
ghost use Rattle.format.specs.StepForms.{rule_of, form_for, fits_form, length_fits, multipliers_within, are_variables, operands_in_range, step_of, is_child};
ghost use Rattle.records.specs.Found.{WholeRecord};
ghost use Rattle.faults.specs.Numbers.{fault_in};
ghost use Rattle.delimiters.specs.Numbers.{open_fault};
ghost use Rattle.steps.specs.Rules.{rule_named, shape_of};
ghost use Rattle.steps.specs.Lengths.{counted, worked_out};
ghost use Rattle.steps.specs.Faults.{child_field_fits, fault_but, fault_under};
ghost use Rattle.steps.specs.Conclusions.{conclusions_of};

use delimiters::{Claim, open_fault};
use encoding::{CODE, RECORD_HEAD};
use faults::Fault;
use limits::{COLUMN_LIMIT, NUMBER_LIMIT, SUMMAND_LIMIT, TICKET_BYTES, VARIABLE_LIMIT};
use question::{Progress, form_in_range};
use records::{fields_at, u16_at, u32_at};

// ---- the rules

// By name; Unknown is every number that document 01 gives to none.
#[derive(Clone, Copy, Debug, PartialEq, Eq)]
pub enum Rule {
    Sum,
    Branch,
    Apart,
    AConf,
    SConf,
    SProp,
    LIntro,
    LValid,
    CCollapse,
    CValid,
    CInj,
    Card,
    Join,
    Unknown,
}

// By rule number. Nothing else tells rules apart by their numbers.
pub fn rule_of(number: usize) -> Rule
    ensures { rule_named result ≡ rule_of number }
{
    match number {
        1 => Rule::Sum,
        2 => Rule::Branch,
        3 => Rule::Apart,
        4 => Rule::AConf,
        5 => Rule::SConf,
        6 => Rule::SProp,
        7 => Rule::LIntro,
        8 => Rule::LValid,
        9 => Rule::CCollapse,
        10 => Rule::CValid,
        11 => Rule::CInj,
        12 => Rule::Card,
        13 => Rule::Join,
        _ => Rule::Unknown,
    }
}

// A step of proper form: its rule, and where its body stands in the ticket.
#[derive(Clone, Copy, Debug, PartialEq, Eq)]
pub struct Step {
    pub rule: Rule,
    pub body: usize,
    pub size: usize,
}

// ---- "Work out the operand length of each rule instead of storing the table of step forms"

// "u16 rule, u16 child, operands": where in a body the child stands, and from where the operands.
pub const CHILD_FIELD: usize = 2;

pub const OPERANDS: usize = 4;

// Up to here `form_for` takes a body of an unknown rule. No ticket has a longer one, of any rule.
const BODY_LIMIT: usize = OPERANDS + TICKET_BYTES;

// Whether a size is the least, or up to so many strides more.
fn counted(size: usize, least: usize, stride: usize, greatest: usize) -> bool
    requires { 0 < stride }
    ensures { result ≡ counted size least stride greatest }
{
    least <= size && (size - least) % stride == 0 && (size - least) / stride <= greatest
}

// Whether a body may have so many bytes, rule and child counted in, by the rule with this number. Each arm gives the answer itself, and none joins rules that
// `operands_in_range` parts: so the compiler makes one table of jumps for both.
fn fits_rule(number: usize, size: usize) -> bool
    ensures { result ≡ worked_out number size }
{
    if BODY_LIMIT < size {
        return false;
    }
    match rule_of(number) {
        Rule::Sum => counted(size, 14, 6, SUMMAND_LIMIT - 1),
        Rule::Branch => counted(size, 8, 6, COLUMN_LIMIT),
        Rule::Apart | Rule::AConf => size == 6,
        Rule::SConf => size == OPERANDS,
        Rule::SProp => size == 10,
        Rule::LIntro | Rule::LValid | Rule::CCollapse | Rule::CValid => size == 6,
        Rule::CInj => size == 8,
        Rule::Card => counted(size, 8, 2, VARIABLE_LIMIT - 2),
        Rule::Join => size == 8,
        // "for an unknown rule, only when under 4 bytes"
        Rule::Unknown => OPERANDS <= size,
    }
}

// Whether a body's length fits the form of its rule.
fn length_fits(b: &[u8], body: usize, size: usize) -> bool
    requires { body + size ≤ length b.now }
    ensures { result ≡ length_fits b.now body size }
{
    OPERANDS <= size && fits_rule(u16_at(b, body), size)
}

// ---- the ranges of the operands

// Whether the multipliers of the count pairs from a position are in their range.
fn multipliers_within(b: &[u8], at: usize, count: usize) -> bool
    requires { at + 6 * count ≤ length b.now }
    ensures { result ≡ multipliers_within (pairs_at b.now at count) }
{
    fields_at(b, at, count).all(|(_, z): (u16, i32)| z.unsigned_abs() as usize <= NUMBER_LIMIT)
}

// The largest i32.
const DIVISOR_LIMIT: usize = i32::MAX as usize;

// Sum: "i32 divisor of at least 1, then 1 to 8 pairs (fact, i32 multiplier)".
fn sum_in_range(b: &[u8], body: usize, size: usize) -> bool
    requires { (8 ≤ size) × (body + size ≤ length b.now) }
    ensures { (p c : ℕ) → result ≡ operands_in_range b.now p c forms.sum body size }
{
    let divisor = u32_at(b, body + OPERANDS);
    1 <= divisor && divisor <= DIVISOR_LIMIT && multipliers_within(b, body + 8, (size - 8) / 6)
}

// Whether the count variables from a position are below p.
fn variables_below(b: &[u8], p: usize, at: usize, count: usize) -> bool
    requires { at + 2 * count ≤ length b.now }
    ensures { result ≡ are_variables p (u16s b.now at count) }
{
    fields_at(b, at, count).all(|x: u16| usize::from(x) < p)
}

// S-Prop: "function (0 len, 1 code), different variables x, y".
fn s_prop_in_range(b: &[u8], p: usize, body: usize) -> bool
    requires { body + 10 ≤ length b.now }
    ensures { (c m : ℕ) → result ≡ operands_in_range b.now p c forms.s_prop body m }
{
    u16_at(b, body + OPERANDS) <= CODE && variables_below(b, p, body + 6, 2)
}

// Whether the fields of a body whose length fits are in their ranges, over p string variables and c columns; of an unknown rule they are not.
fn operands_in_range(b: &[u8], rule: Rule, p: usize, c: usize, body: usize, size: usize) -> bool
    requires { (body + size ≤ length b.now) × (fits_form (form_for (rule_named rule)) size ≡ true) }
    ensures { result ≡ operands_in_range b.now p c (rule_named rule) body size }
{
    match rule {
        Rule::Sum => sum_in_range(b, body, size),
        Rule::Branch => form_in_range(b, c, body + OPERANDS, (size - 8) / 6),
        Rule::Apart | Rule::AConf | Rule::SConf | Rule::Join => true,
        Rule::SProp => s_prop_in_range(b, p, body),
        Rule::LIntro | Rule::LValid | Rule::CCollapse | Rule::CValid => {
            variables_below(b, p, body + OPERANDS, 1)
        }
        Rule::CInj => variables_below(b, p, body + OPERANDS, 2),
        Rule::Card => variables_below(b, p, body + OPERANDS, (size - OPERANDS) / 2),
        Rule::Unknown => false,
    }
}

// ---- how many conclusions a rule has

// "a rule with one conclusion or none", or one that splits a branch. A rule without a conclusion closes the branch.
#[derive(Drop)]
pub enum Conclusions {
    Nothing,
    One,
    Several,
}

pub fn conclusions_of(rule: Rule) -> Conclusions
    ensures { result ≡ conclusions_of (rule_named rule) }
{
    match rule {
        Rule::AConf | Rule::SConf | Rule::Unknown => Conclusions::Nothing,
        Rule::Sum | Rule::SProp | Rule::LIntro | Rule::CCollapse | Rule::Join => Conclusions::One,
        Rule::Branch | Rule::Apart | Rule::LValid | Rule::CValid => Conclusions::Several,
        Rule::CInj | Rule::Card => Conclusions::Several,
    }
}

// ---- the number of children, by the form alone

// Card: "for each pair i < j" of its m variables, and the last; "With n = 1 the last child is left out".
fn card_children(n: usize, m: usize) -> usize
    requires { (1 ≤ m) × (m ≤ variable_limit) }
    ensures { result ≡ pair_count m + last_count (character_count n) }
{
    let pairs = m * (m - 1) / 2;
    if n < 2 { pairs } else { pairs + 1 }
}

// How many children a step of a rule has over n characters, with a body of so many bytes that fits; none where the rule closes.
pub fn child_count(rule: Rule, n: usize, size: usize) -> usize
    requires { fits_form (form_for (rule_named rule)) size ≡ true }
    ensures { (b : List ℕ) (body : ℕ) → result ≡ length (shape_of rule n b body size) }
{
    match rule {
        Rule::Sum | Rule::SProp | Rule::LIntro | Rule::CCollapse | Rule::Join => 1,
        Rule::Branch | Rule::Apart | Rule::LValid | Rule::CValid => 2,
        Rule::CInj => 3,
        Rule::Card => card_children(n, (size - OPERANDS) / 2),
        Rule::AConf | Rule::SConf | Rule::Unknown => 0,
    }
}

// How many facts child k of a rule's step adds, where it fits: C-Valid's children add two and three, all others one.
pub fn child_facts(rule: Rule, k: usize) -> usize
    ensures { (b : List ℕ) (n body m : ℕ) → 1 ≤ k → k ≤ length (shape_of rule n b body m) → result ≡ get_or (shape_of rule n b body m) (k - 1) 0 }
{
    match rule {
        Rule::CValid => { if k == 1 { 2 } else { 3 } }
        Rule::Sum | Rule::Branch | Rule::Apart | Rule::AConf | Rule::SConf | Rule::SProp => 1,
        Rule::LIntro | Rule::LValid | Rule::CCollapse | Rule::CInj | Rule::Card | Rule::Join => 1,
        Rule::Unknown => 1,
    }
}

// Claim 2: "the child taken, from 1; it is 1 for a rule with one conclusion or none".
fn child_in_range(rule: Rule, n: usize, size: usize, k: usize) -> bool
    requires { fits_form (form_for (rule_named rule)) size ≡ true }
    ensures { (b : List ℕ) (body : ℕ) → result ≡ is_child (shape_of rule n b body size) k }
{
    k == 1 || 1 < k && k <= child_count(rule, n, size)
}

// ---- the faults of a step's body: its length fits no form, or a field is outside its range

// All but the child field.
fn operands_fault(b: &[u8], s: Progress, body: usize, size: usize) -> Result<(), Fault>
    requires { (body + size ≤ length b.now) × (s.p ≤ variable_limit) × (s.q ≤ variable_limit) }
    ensures { fault_in result ≡ fault_but b.now s body size }
{
    if !length_fits(b, body, size) {
        return Err(Fault::NoForm);
    }
    let rule = rule_of(u16_at(b, body));
    if !operands_in_range(b, rule, s.p, s.q + (s.p + s.p), body, size) {
        return Err(Fault::OutOfRange);
    }
    Ok(())
}

// The child field under a claim: "Under claim 1 the child field is 0", "Under claim 2 it is the child taken".
fn child_field_fits(claim: Claim, rule: Rule, n: usize, size: usize, k: usize) -> bool
    requires { fits_form (form_for (rule_named rule)) size ≡ true }
    ensures { (b : List ℕ) (body : ℕ) → result ≡ child_field_fits claim n (step_of b (rule_named rule) body size) k }
{
    match claim {
        Claim::NoSolution => k == 0,
        Claim::Strings => child_in_range(rule, n, size, k),
    }
}

// The whole body.
fn step_fault(b: &[u8], s: Progress, claim: Claim, body: usize, size: usize) -> Result<(), Fault>
    requires { (body + size ≤ length b.now) × (s.p ≤ variable_limit) × (s.q ≤ variable_limit) }
    ensures { fault_in result ≡ fault_under claim b.now s body size }
{
    operands_fault(b, s, body, size)?;
    let rule = rule_of(u16_at(b, body));
    let k = u16_at(b, body + CHILD_FIELD);
    if !child_field_fits(claim, rule, s.n, size, k) {
        return Err(Fault::OutOfRange);
    }
    Ok(())
}

// ---- a record

// A whole record where a branch is open: its place, then its form. A step of proper form has no fault.
pub fn record_fault(
    b: &[u8],
    s: Progress,
    claim: Claim,
    at: usize,
    kind: usize,
    size: usize,
) -> Result<(), Fault>
    requires { WholeRecord b.now at kind size × (s.p ≤ variable_limit) × (s.q ≤ variable_limit) }
    ensures { fault_in result ≡ open_fault (length b.now) (at + 6 + size) kind size (fault_under claim b.now s (at + 6) size) }
{
    open_fault(b.len(), at + RECORD_HEAD + size, kind, size)?;
    step_fault(b, s, claim, at + RECORD_HEAD, size)
}
