// What facts and steps rest on: sets of the question's constraints, each as two words, for the facts of a branch in a lent slice (02, L5).
#![tactic(auto)]

ghost use Rattle.std.specs.Prelude.{◌≡◌, ◌≢◌, true, [], ◌∷◌, ◌++◌, ℕ, ◌+◌, ◌*◌, ◌<◌, ◌≤◌, length, take};
ghost use Rattle.calculus.specs.Limits.{variable_limit, fact_limit, work_numbers};
ghost use Rattle.calculus.specs.Rules.{distinct};
ghost use Rattle.calculus.specs.Cores.{Set, only, Rested, set_at, named_sets, lengths_set, neighbour_sets};
ghost use Rattle.format.specs.Fields.{u16, u16s, pairs_at};
ghost use Rattle.format.specs.StepForms.{are_variables, rule as rule_at};
ghost use Rattle.question.specs.Posed.{numbered};
ghost use Rattle.rows.specs.Rows.{row_length, fact_of};
ghost use Rattle.rows.specs.Work.{Fine};
ghost use Rattle.steps.specs.Rules.{rule_named};
ghost use Rattle.steps.specs.Ready.{Ready};
ghost use Rattle.cores.specs.Words.{words_of, union_of, unions_of};
ghost use Rattle.cores.specs.Sets.{Roomy, words_at, Carries, Stands, Filled, RestsOn};

use encoding::LEN;
use limits::{FACT_LIMIT, ROW_LENGTH};
use question::{Progress, column_of};
use records::{fields_at, u16_at};
use rows::{TAG_NE, TAG_NOT_SAME, lowest_difference, row_at, tag_of};
use std::ops::{BitOr, BitOrAssign};
use steps::{OPERANDS, Rule, Step};

// A set: constraint k is bit k of `low`, constraint 64 + k bit k of `high`.
#[derive(Clone, Copy)]
pub struct Words {
    pub low: u64,
    pub high: u64,
}

// The unions over all ≈ facts and over all ≉ facts, of a branch or of its first facts.
#[derive(Clone, Copy)]
pub struct Unions {
    pub equates: Words,
    pub separates: Words,
}

// ---- sets

// The empty set.
pub fn no_constraint() -> Words
    ensures { result ≡ words_of [] }
{
    Words { low: 0, high: 0 }
}

// The set of constraint k alone.
fn only_constraint(k: usize) -> Words
    requires { k < fact_limit }
    ensures { result ≡ words_of (only k) }
{
    if k < 64 {
        Words {
            low: 1 << k,
            high: 0,
        }
    } else {
        Words {
            low: 0,
            high: 1 << (k - 64),
        }
    }
}

// The union of two sets.
impl BitOr for Words {
    type Output = Words;

    ghost bitor_gives = { λ a b r. r ≡ union_of a b };

    fn bitor(self, other: Words) -> Words {
        Words {
            low: self.low | other.low,
            high: self.high | other.high,
        }
    }
}

impl BitOrAssign for Words {
    ghost bitor_assign_gives = { λ a b r. r ≡ union_of a b };

    fn bitor_assign(&mut self, other: Words) {
        *self = *self | other;
    }
}

// ---- the sets of facts

// The set at the place of fact k.
pub fn set_at(sets: &[Words], k: usize) -> Words
    requires { (k < fact_limit) × Roomy sets.now }
    ensures { result ≡ words_at sets.now k }
{
    sets[k]
}

// The facts of the places from `from` up to `to`, which a child added, rest on a set.
pub fn fill_sets(sets: &mut [Words], from: usize, to: usize, set: Words)
    requires { (from < to) × (to ≤ from + 3) × (to ≤ fact_limit) × Roomy sets.old }
    ensures { Filled sets.old from to set sets.new }
{
    sets[from..to].fill(set);
}

// "A root constraint rests on itself".
pub fn root_sets(sets: &mut [Words], constraints: usize)
    requires { (constraints ≤ fact_limit) × Roomy sets.old }
    ensures { (k : ℕ) → k < constraints → words_at sets.new k ≡ words_of (only k) }
{
    for k in 0..constraints {
        sets[k] = only_constraint(k);
    }
}

// ---- unions that are carried along

// The unions of no fact.
pub fn no_unions() -> Unions
    ensures { result ≡ unions_of [] }
{
    Unions {
        equates: no_constraint(),
        separates: no_constraint(),
    }
}

// The unions once the fact of a row stands, which rests on a set.
fn with_fact(unions: Unions, row: &[i64; ROW_LENGTH], set: Words) -> Unions
    ensures { (r : Rested) (s : Set) → unions ≡ unions_of r → set ≡ words_of s → result ≡ unions_of (r ++ ((fact_of row.now, s) ∷ [])) }
{
    let tag = tag_of(row);
    if tag <= TAG_NE {
        return unions;
    }
    if tag == TAG_NOT_SAME {
        return Unions {
            separates: unions.separates | set,
            ..unions
        };
    }
    Unions {
        equates: unions.equates | set,
        ..unions
    }
}

// The unions of the first `count` facts, from those of the first `upto`.
pub fn bring_up(unions: Unions, upto: usize, work: &[i64], sets: &[Words], count: usize) -> Unions
    requires { (upto ≤ count) × Fine work.now count × Roomy sets.now }
    ensures { (r : Rested) → Stands work.now sets.now count r → unions ≡ unions_of (take upto r) → result ≡ unions_of r }
{
    let mut out = unions;
    for k in upto..count {
        out = with_fact(out, row_at(work, k), sets[k]);
    }
    out
}

// ---- what a step rests on

// The set of fact k, empty where there is none.
fn fact_set(sets: &[Words], count: usize, k: usize) -> Words
    requires { (count ≤ fact_limit) × Roomy sets.now }
    ensures { (r : Rested) → Carries sets.now count r → result ≡ words_of (set_at r k) }
{
    if k < count { sets[k] } else { no_constraint() }
}

// Sum: the sets of the facts that its pairs name.
fn named_sets(b: &[u8], at: usize, pairs: usize, sets: &[Words], count: usize) -> Words
    requires { (at + 6 * pairs ≤ length b.now) × (count ≤ fact_limit) × Roomy sets.now }
    ensures { (r : Rested) → Carries sets.now count r → result ≡ words_of (named_sets r (pairs_at b.now at pairs)) }
{
    let mut set = no_constraint();
    for (fact, _) in fields_at::<(u16, i32)>(b, at, pairs) {
        set |= fact_set(sets, count, usize::from(fact));
    }
    set
}

// Card: the set of "the lowest matching fact" for two different variables.
fn lengths_set(s: Progress, x: usize, y: usize, work: &[i64], count: usize, sets: &[Words]) -> Words
    requires x_lt_variable_limit { (x < variable_limit) × (y < variable_limit) × (s.p ≤ variable_limit) × (s.q ≤ variable_limit) }
    requires count_le_fact_limit { (count ≤ fact_limit) × (work_numbers ≤ length work.now) × Roomy sets.now }
    ensures { (r : Rested) → Stands work.now sets.now count r → x ≢ y → result ≡ words_of (lengths_set (numbered s) r x y) }
{
    if x == y {
        return no_constraint();
    }
    let i = column_of(s.p, s.q, LEN, x);
    let j = column_of(s.p, s.q, LEN, y);
    match lowest_difference(work, count, i, j) {
        Some(k) => fact_set(sets, count, k),
        None => no_constraint(),
    }
}

// Card: the union of these sets "for each neighbouring pair", of the variable at a position and the others after it.
fn neighbour_sets(
    b: &[u8],
    s: Progress,
    at: usize,
    others: usize,
    work: &[i64],
    count: usize,
    sets: &[Words],
) -> Words
    requires others_in_bounds { (at + 2 + 2 * others ≤ length b.now) × (s.p ≤ variable_limit) × (s.q ≤ variable_limit) }
    requires others_value { are_variables s.p (u16s b.now at (others + 1)) ≡ true }
    requires count_le_fact_limit { (count ≤ fact_limit) × (work_numbers ≤ length work.now) × Roomy sets.now }
    ensures { (r : Rested) → Stands work.now sets.now count r → distinct (u16s b.now at (others + 1)) ≡ true
        → result ≡ words_of (neighbour_sets (numbered s) r (u16 b.now at) (u16s b.now (at + 2) others)) }
{
    let mut set = no_constraint();
    for k in 0..others {
        let i = at + 2 * k;
        set |= lengths_set(s, u16_at(b, i), u16_at(b, i + 2), work, count, sets);
    }
    set
}

// What a step rests on. The unions are those of the whole branch where its rule asks for classes.
pub fn step_set(
    ticket: &[u8],
    s: Progress,
    step: Step,
    work: &[i64],
    count: usize,
    sets: &[Words],
    unions: Unions,
) -> Words
    requires { Ready ticket.now s step.body step.size work.now count × (rule_named step.rule ≡ rule_at ticket.now step.body) × Roomy sets.now }
    ensures { RestsOn step ticket.now s work.now count sets.now unions result }
{
    let Step { rule, body, size } = step;
    let at = body + OPERANDS;
    match rule {
        Rule::Sum => named_sets(ticket, body + 8, (size - 8) / 6, sets, count),
        Rule::Apart | Rule::AConf => fact_set(sets, count, u16_at(ticket, at)),
        Rule::SConf => unions.equates | unions.separates,
        Rule::SProp | Rule::LIntro | Rule::CCollapse => unions.equates,
        Rule::Card => neighbour_sets(ticket, s, at, (size - OPERANDS) / 2 - 1, work, count, sets),
        Rule::Join => {
            let first = fact_set(sets, count, u16_at(ticket, at));
            let second = fact_set(sets, count, u16_at(ticket, at + 2));
            first | second
        }
        Rule::Branch | Rule::LValid | Rule::CValid | Rule::CInj | Rule::Unknown => no_constraint(),
    }
}
