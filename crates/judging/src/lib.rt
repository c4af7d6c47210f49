// Judging: it "takes a question .. and an answer", says "all met", or names "the lowest-numbered constraint that is not met. It also shows the very bytes of the
// record concerned" (02, L1), and "It writes nothing".
#![tactic(auto)]

ghost use Rattle.std.specs.Prelude.{◌≡◌, true, [], ◌∷◌, ℕ, ◌+◌, ◌-◌, ◌/◌, ◌≤◌, length, get_or, pos};
ghost use Rattle.std.proofs.Math.Option.{none};
ghost use Rattle.calculus.specs.LinearForms.{dot};
ghost use Rattle.calculus.specs.Facts.{holds};
ghost use Rattle.calculus.specs.Strings.{eq_string};
ghost use Rattle.calculus.specs.Extended.{meets_extended};
ghost use Rattle.format.specs.Fields.{u16};
ghost use Rattle.format.specs.Records.{next};
ghost use Rattle.format.specs.Question.{string_fault, string_fact, form_of, relation_of, extended_fault, extended_of};
ghost use Rattle.format.specs.Places.{skip, text_at, constraint_at, texts, literals_from};
ghost use Rattle.format.specs.Answer.{answer_form, outside};
ghost use Rattle.format.specs.Judging.{meets, meets_constraint, Submitted, judge_answer, submission, part_within};
ghost use Rattle.format.specs.Standing.{ConstraintAt};
ghost use Rattle.question.specs.Posed.{asked, extended_asked, Posed};
ghost use Rattle.judging.specs.Ready.{values_of, FormIn, Texts, Judgeable};
ghost use Rattle.judging.specs.Judgements.{shown_of, Finds};
ghost use Rattle.judging.specs.Parts.{Part, PartShown};

use assignment::{answer_formed, fill_columns, first_outside};
use encoding::{
    IS_DECIMAL, IS_LITERAL, IS_LOWER, IS_UPPER, IS_VALUE, KIND_ARITHMETIC, KIND_EXTENDED,
    KIND_STRING, RECORD_HEAD, SAME,
};
use extended::{is_lower, is_upper, precedes, reads_as, written_as};
use faults::{Fault, Refusal};
use limits::COLUMN_LIMIT;
use question::{
    HEAD_RANK, JUDGING, Progress, behind_literals, literal_text, read_question, same_text,
};
use records::{fields_at, i32_at, record_places, u16_at, u32_at};
use rows::relation_holds;

// ---- string constraints

// Whether the strings at two places of the answer are the same.
fn same_strings(v: &[u8], x: usize, y: usize) -> bool
    requires { (next v.now x ≤ length v.now) × (next v.now y ≤ length v.now) }
    ensures { result ≡ eq_string (text_at v.now x) (text_at v.now y) }
{
    let m = u32_at(v, x) / 4;
    let k = u32_at(v, y) / 4;
    same_text(v, x + RECORD_HEAD, m, v, y + RECORD_HEAD, k)
}

// Whether the string at a place of the answer is literal l of the question.
fn is_literal(b: &[u8], v: &[u8], x: usize, l: usize) -> bool
    requires { (next v.now x ≤ length v.now) × (skip b.now l literals_from ≤ length b.now) }
    ensures { (k : ℕ) → l ≤ k → result ≡ eq_string (text_at v.now x) (get_or ([] ∷ texts b.now k literals_from) l []) }
{
    let m = u32_at(v, x) / 4;
    let text = literal_text(b, l);
    same_text(v, x + RECORD_HEAD, m, b, text.at, text.count)
}

// Whether the answer meets the string constraint with its body at a position.
fn string_met(b: &[u8], v: &[u8], s: Progress, places: &[usize], at: usize) -> bool
    requires { Texts b.now v.now s places.now × (at + 6 ≤ length b.now) × (string_fault b.now s.p s.literals at 6 ≡ 0) }
    ensures { result ≡ meets (asked b.now s) (values_of b.now v.now s)
        (string_fact (u16 b.now at) (u16 b.now (at + 2)) (u16 b.now (at + 4))) }
{
    let relation = u16_at(b, at);
    let x = u16_at(b, at + 2);
    let y = u16_at(b, at + 4);
    if relation == IS_LITERAL {
        return is_literal(b, v, places[x], y);
    }
    let same = same_strings(v, places[x], places[y]);
    if relation == SAME { same } else { !same }
}

// ---- arithmetic constraints

// The value of the form at a position: its constant, and each coefficient times the value of its column.
fn form_value(b: &[u8], at: usize, count: usize, values: &[i64]) -> i64
    requires { FormIn b.now at count values.now }
    ensures { result ≡ dot (form_of b.now at count) (pos 1 ∷ values.now) }
{
    let mut sum = i32_at(b, at);
    for (column, coefficient) in fields_at::<(u16, i32)>(b, at + 4, count) {
        sum += i64::from(coefficient) * values[usize::from(column)];
    }
    sum
}

// Whether the values meet the arithmetic constraint with its body at a position.
fn arithmetic_met(b: &[u8], at: usize, size: usize, values: &[i64]) -> bool
    requires { (6 ≤ size) × FormIn b.now (at + 2) (size / 6 - 1) values.now }
    ensures { result ≡ holds (relation_of (u16 b.now at)) (dot (form_of b.now (at + 2) (size / 6 - 1)) (pos 1 ∷ values.now)) }
{
    relation_holds(u16_at(b, at), form_value(b, at + 2, size / 6 - 1, values))
}

// ---- extended constraints

// Whether the answer meets the extended constraint with its body at a position. The last arm is function 4's: no other is in its range.
fn extended_met(
    b: &[u8],
    v: &[u8],
    s: Progress,
    places: &[usize],
    values: &[i64],
    at: usize,
) -> bool
    requires { Judgeable b.now v.now s places.now values.now × (at + 6 ≤ length b.now) × (extended_fault b.now s.p s.q at 6 ≡ 0) }
    ensures { result ≡ meets_extended (values_of b.now v.now s) (extended_of b.now at) }
{
    let function = u16_at(b, at);
    let x = u16_at(b, at + 2);
    let y = u16_at(b, at + 4);
    match function {
        IS_UPPER => is_upper(v, places[x], places[y]),
        IS_LOWER => is_lower(v, places[x], places[y]),
        IS_VALUE => reads_as(v, places[y], values[x]),
        IS_DECIMAL => written_as(v, places[x], values[y]),
        _ => precedes(v, places[x], places[y]),
    }
}

// ---- all constraints

// "it meets a constraint when the relation holds for those values with their len and code"; an extended one by its function. A kind that is no constraint's
// does not come here.
fn constraint_met(
    b: &[u8],
    v: &[u8],
    s: Progress,
    places: &[usize],
    values: &[i64],
    at: usize,
) -> bool
    requires { Judgeable b.now v.now s places.now values.now × ConstraintAt b.now s.p s.q s.literals at }
    ensures { result ≡ meets_constraint (asked b.now s) (values_of b.now v.now s) (constraint_at b.now at) }
{
    let body = at + RECORD_HEAD;
    match u16_at(b, at + 4) {
        KIND_STRING => string_met(b, v, s, places, body),
        KIND_ARITHMETIC => arithmetic_met(b, body, u32_at(b, at), values),
        KIND_EXTENDED => extended_met(b, v, s, places, values, body),
        _ => false,
    }
}

// ---- what is said and shown

#[derive(Clone, Copy, Debug, PartialEq, Eq)]
pub enum Verdict {
    AllMet,
    // The number of the first constraint that is not met.
    Unmet(usize),
}

#[derive(Clone, Copy, Debug, PartialEq, Eq)]
pub enum Side {
    Question,
    Answer,
}

// The part of the question or of the answer from a position up to another.
#[derive(Clone, Copy, Debug, PartialEq, Eq)]
pub struct Shown {
    pub side: Side,
    pub from: usize,
    pub to: usize,
}

#[derive(Clone, Copy, Debug, PartialEq, Eq)]
pub struct Finding {
    pub said: Result<Verdict, Refusal>,
    pub shown: Shown,
}

fn found(said: Result<Verdict, Refusal>, side: Side, from: usize, to: usize) -> Finding
    ensures { result ≡ record { said = said; shown = record { side = side; from = from; to = to } } }
{
    Finding {
        said,
        shown: Shown { side, from, to },
    }
}

// The part of a slice from a position up to another.
fn between(s: &[u8], from: usize, to: usize) -> &[u8]
    requires { (from ≤ to) × (to ≤ length s.now) }
    ensures { Part s.entry result from to }
{
    &s[from..to]
}

// Whether a part lies within a question and an answer of these lengths.
fn part_within(question: usize, answer: usize, s: Shown) -> bool
    ensures { result ≡ part_within question answer (shown_of s) }
{
    let length = match s.side {
        Side::Question => question,
        Side::Answer => answer,
    };
    s.from <= s.to && s.to <= length
}

// "the very bytes of the record concerned". What does not lie within the question or the answer is shown as "an empty part of the question".
pub fn show<'a>(question: &'a [u8], answer: &'a [u8], s: Shown) -> &'a [u8]
    ensures { PartShown question.entry answer.entry (shown_of s) result }
{
    if !part_within(question.len(), answer.len(), s) {
        return between(question, 0, 0);
    }
    match s.side {
        Side::Question => between(question, s.from, s.to),
        Side::Answer => between(answer, s.from, s.to),
    }
}

// ---- the operation

// Where the whole record at a position ends.
fn record_end(b: &[u8], at: usize) -> usize
    requires { next b.now at ≤ length b.now }
    ensures { result ≡ next b.now at }
{
    at + RECORD_HEAD + u32_at(b, at)
}

// The first constraint that the answer does not meet, by its number and with its record.
fn first_unmet(b: &[u8], v: &[u8], s: Progress, places: &[usize], values: &[i64]) -> Finding
    requires { Judgeable b.now v.now s places.now values.now }
    ensures { Finds b.now v.now (Submitted (asked b.now s) (extended_asked b.now s) (values_of b.now v.now s)) result }
{
    let count = s.constraints + s.extended;
    let mut at = behind_literals(b, s.literals);
    for k in 0..count {
        if !constraint_met(b, v, s, places, values, at) {
            return found(Ok(Verdict::Unmet(k)), Side::Question, at, record_end(b, at));
        }
        at = record_end(b, at);
    }
    found(Ok(Verdict::AllMet), Side::Question, 0, 0)
}

// An answer of its form and in its ranges: its strings' places and its columns' values are found once.
fn judge_values(b: &[u8], v: &[u8], s: Progress) -> Finding
    requires { Posed b.now s × (answer_form v.now s.p s.q 0 ≡ true) × (outside v.now (asked b.now s) s.p 0 0 ≡ none) }
    ensures { Finds b.now v.now (Submitted (asked b.now s) (extended_asked b.now s) (values_of b.now v.now s)) result }
{
    let places = record_places(v, 0, s.p);
    let mut columns = [0i64; COLUMN_LIMIT];
    let values = &mut columns[..s.q + (s.p + s.p)];
    fill_columns(values, v, s.p, s.q, &places);
    first_unmet(b, v, s, &places, values)
}

// "then 15 (record 0) when the answer is not exactly of its form, 16 (the answer's first such record) .."
fn judge_behind(b: &[u8], v: &[u8], s: Progress) -> Finding
    requires { Posed b.now s }
    ensures { Finds b.now v.now (judge_answer (asked b.now s) (extended_asked b.now s) v.now) result }
{
    if !answer_formed(v, s.p, s.q) {
        return found(Err(Fault::AnswerForm.at(0)), Side::Answer, 0, v.len());
    }
    match first_outside(v, s.n, s.p, s.q) {
        Some(outside) => found(
            Err(Fault::AnswerRange.at(outside.number)),
            Side::Answer,
            outside.at,
            record_end(v, outside.at),
        ),
        None => judge_values(b, v, s),
    }
}

// Judges an answer by a question: all met, the first constraint that is not met, or the refusal of the question or the answer; and which part is to be shown.
pub fn judge_answer(question: &[u8], answer: &[u8]) -> Finding
    ensures { Finds question.now answer.now (submission question.now answer.now) result }
{
    match read_question(JUDGING, question) {
        Err(refusal) => found(Err(refusal), Side::Question, 0, 0),
        Ok(read) if read.numbers.last < HEAD_RANK => {
            found(Err(Fault::OutOfPlace.at(read.record)), Side::Question, 0, 0)
        }
        Ok(read) => judge_behind(question, answer, read.numbers),
    }
}
