// Whether two questions are the same: "Have we put this question before?" (02, L6).
#![tactic(auto)]

ghost use Rattle.std.specs.Prelude.{◌≡◌, List, [], ◌∷◌, ℕ, ◌+◌, ◌≤◌, length, get_or};
ghost use Rattle.calculus.specs.Limits.{work_numbers};
ghost use Rattle.calculus.specs.Facts.{Question};
ghost use Rattle.calculus.specs.Strings.{eq_string};
ghost use Rattle.calculus.specs.Extended.{basic, extended};
ghost use Rattle.calculus.specs.NormalForms.{alike, occurrences, agrees_by, eq_heads, same_by};
ghost use Rattle.format.specs.Fields.{u16};
ghost use Rattle.format.specs.Question.{extended_of};
ghost use Rattle.format.specs.Places.{skip, texts, literals_from, extended_from};
ghost use Rattle.format.specs.Sameness.{agreement, sameness};
ghost use Rattle.question.specs.declared.Progress.{Progress};
ghost use Rattle.question.specs.Posed.{asked, extended_asked, Posed};
ghost use Rattle.rows.specs.Rows.{row_length, fact_of};
ghost use Rattle.sameness.specs.Asked.{sameness_of, AskedAs};
ghost use Rattle.sameness.specs.Ready.{literal_named, LiteralIn, Ready, facts_in, extended_in};

use constraints::load;
use encoding::RECORD_HEAD;
use faults::{Fault, Refusal};
use limits::{ROW_LENGTH, WORK_NUMBERS};
use normal::normalise;
use question::{
    HEAD_RANK, JUDGING, Progress, behind_literals, behind_records, literal_text, read_question,
    same_text,
};
use records::{u16_at, u32_at};
use rows::{
    CONSTANT, FIRST, SECOND, TAG_LITERAL, TAG_NE, literal_at, row_at, same_from, tag_of,
    variable_at,
};

// ---- facts, by the rows of their normal forms

// "Literals compare by their characters": literal l of one question and literal k of another.
fn same_literals(b: &[u8], l: usize, c: &[u8], k: usize) -> bool
    requires { (skip b.now l literals_from ≤ length b.now) × (skip c.now k literals_from ≤ length c.now) }
    ensures { (m n : ℕ) → l ≤ m → k ≤ n
        → result ≡ eq_string (get_or ([] ∷ texts b.now m literals_from) l []) (get_or ([] ∷ texts c.now n literals_from) k []) }
{
    let text = literal_text(b, l);
    let other = literal_text(c, k);
    same_text(b, text.at, text.count, c, other.at, other.count)
}

// Are two facts alike, each in the bytes of its question?
fn rows_alike(b: &[u8], row: &[i64; ROW_LENGTH], c: &[u8], other: &[i64; ROW_LENGTH]) -> bool
    requires row_literal { LiteralIn b.now (fact_of row.now) }
    requires other_literal { LiteralIn c.now (fact_of other.now) }
    ensures { (s t : Progress) → literal_named (fact_of row.now) ≤ s.literals → literal_named (fact_of other.now) ≤ t.literals
        → result ≡ alike (asked b.now s) (asked c.now t) (basic (fact_of row.now)) (basic (fact_of other.now)) }
{
    let tag = tag_of(row);
    if tag != tag_of(other) {
        return false;
    }
    if tag <= TAG_NE {
        return same_from(row, other, CONSTANT);
    }
    if variable_at(row, FIRST) != variable_at(other, FIRST) {
        return false;
    }
    if tag == TAG_LITERAL {
        return same_literals(b, literal_at(row, SECOND), c, literal_at(other, SECOND));
    }
    variable_at(row, SECOND) == variable_at(other, SECOND)
}

// How many facts of a question are like one.
// A `for`: in a chain the closure would have to ask in a clause of its own that k is below the count and the question ready. The same in `rows_agree`.
fn count_rows(b: &[u8], row: &[i64; ROW_LENGTH], c: &[u8], t: Progress, work: &[i64]) -> usize
    requires { LiteralIn b.now (fact_of row.now) × Ready c.now t work.now }
    ensures { (s : Progress) → literal_named (fact_of row.now) ≤ s.literals
        → result ≡ occurrences (asked b.now s) (asked c.now t) (basic (fact_of row.now)) (facts_in work.now t.constraints) }
{
    let mut found = 0;
    for k in 0..t.constraints {
        if rows_alike(b, row, c, row_at(work, k)) {
            found += 1;
        }
    }
    found
}

// "the sets of constraints agree, order and repeats aside": a constraint by how often it occurs on its own side and on the other.
fn agree(mine: usize, theirs: usize) -> bool
    ensures { result ≡ agreement mine theirs }
{
    1 <= theirs
}

// Does each fact of the first question agree with the second?
fn rows_agree(b: &[u8], s: Progress, mine: &[i64], c: &[u8], t: Progress, theirs: &[i64]) -> bool
    requires { Ready b.now s mine.now × Ready c.now t theirs.now }
    ensures { result ≡ agrees_by agreement (asked b.now s) (facts_in mine.now s.constraints)
        (asked c.now t) (facts_in theirs.now t.constraints) }
{
    for k in 0..s.constraints {
        let row = row_at(mine, k);
        if !agree(
            count_rows(b, row, b, s, mine),
            count_rows(b, row, c, t, theirs),
        ) {
            return false;
        }
    }
    true
}

// ---- extended constraints, in the bytes

// "Kind 11 compares field by field": two bodies.
fn records_alike(b: &[u8], x: usize, c: &[u8], y: usize) -> bool
    requires { (x + 6 ≤ length b.now) × (u16 b.now x ≤ 4) × (y + 6 ≤ length c.now) × (u16 c.now y ≤ 4) }
    ensures { (u v : Question) → result ≡ alike u v (extended (extended_of b.now x)) (extended (extended_of c.now y)) }
{
    u16_at(b, x) == u16_at(c, y)
        && u16_at(b, x + 2) == u16_at(c, y + 2)
        && u16_at(b, x + 4) == u16_at(c, y + 4)
}

// The position of a question's first extended constraint.
fn extended_from(b: &[u8], s: Progress) -> usize
    requires { Posed b.now s }
    ensures { result ≡ extended_from b.now s.literals s.constraints }
{
    behind_records(b, s.constraints, behind_literals(b, s.literals))
}

// How many extended constraints of a question are like the one with its body at a position.
// Rows are found by their numbers, records only one behind another: so this shares no loop with `count_rows`, and `records_agree` none with `rows_agree`.
fn count_records(b: &[u8], x: usize, c: &[u8], t: Progress) -> usize
    requires { (x + 6 ≤ length b.now) × (u16 b.now x ≤ 4) × Posed c.now t }
    ensures { (u v : Question) → result ≡ occurrences u v (extended (extended_of b.now x)) (extended_in c.now t) }
{
    let mut at = extended_from(c, t);
    let mut found = 0;
    for _ in 0..t.extended {
        let y = at + RECORD_HEAD;
        if records_alike(b, x, c, y) {
            found += 1;
        }
        at = y + u32_at(c, at);
    }
    found
}

// Does each extended constraint of the first question agree with the second?
fn records_agree(b: &[u8], s: Progress, c: &[u8], t: Progress) -> bool
    requires { Posed b.now s × Posed c.now t }
    ensures { (u v : Question) → result ≡ agrees_by agreement u (extended_in b.now s) v (extended_in c.now t) }
{
    let mut at = extended_from(b, s);
    for _ in 0..s.extended {
        let x = at + RECORD_HEAD;
        if !agree(count_records(b, x, b, s), count_records(b, x, c, t)) {
            return false;
        }
        at = x + u32_at(b, at);
    }
    true
}

// ---- two questions

// "n, p and q agree".
fn same_heads(s: Progress, t: Progress) -> bool
    ensures { (b c : List ℕ) → result ≡ eq_heads (asked b s) (asked c t) }
{
    s.n == t.n && s.p == t.p && s.q == t.q
}

// The normal forms of a question's facts, each in its row.
fn prepare(b: &[u8], s: Progress, work: &mut [i64])
    requires { Posed b.now s × (work_numbers ≤ length work.old) }
    ensures { Ready b.now s work.new }
{
    load(b, s, work);
    normalise(work, s.constraints);
}

// Are two questions that were read the same? Facts and extended constraints are never alike, so they are compared apart.
fn same_asked(b: &[u8], s: Progress, c: &[u8], t: Progress) -> bool
    requires { Posed b.now s × Posed c.now t }
    ensures { result ≡ same_by agreement (asked b.now s) (extended_asked b.now s) (asked c.now t) (extended_asked c.now t) }
{
    if !same_heads(s, t) || !records_agree(b, s, c, t) || !records_agree(c, t, b, s) {
        return false;
    }
    let mut mine = [0i64; WORK_NUMBERS];
    prepare(b, s, &mut mine);
    let mut theirs = [0i64; WORK_NUMBERS];
    prepare(c, t, &mut theirs);
    rows_agree(b, s, &mine, c, t, &theirs) && rows_agree(c, t, &theirs, b, s, &mine)
}

// ---- the operation

// One of the two questions.
#[derive(Clone, Copy, Debug, PartialEq, Eq)]
pub enum Which {
    First,
    Second,
}

// A refusal and the question that it concerns.
#[derive(Clone, Copy, Debug, PartialEq, Eq)]
pub struct Refused {
    pub which: Which,
    pub refusal: Refusal,
}

// Reads a question "by judging's rules"; one without a head gives 4.
fn read_asked(b: &[u8]) -> Result<Progress, Refusal>
    ensures { AskedAs b.now result }
{
    let read = read_question(JUDGING, b)?;
    if read.numbers.last < HEAD_RANK {
        return Err(Fault::OutOfPlace.at(read.record));
    }
    Ok(read.numbers)
}

// Says whether two questions are the same. "The first question's refusal .. comes before the second's, and a refusal says which of the two it concerns".
pub fn same_questions(first: &[u8], second: &[u8]) -> Result<bool, Refused>
    ensures { sameness_of result ≡ sameness first.now second.now }
{
    let s = read_asked(first).map_err(|refusal| Refused {
        which: Which::First,
        refusal,
    })?;
    let t = read_asked(second).map_err(|refusal| Refused {
        which: Which::Second,
        refusal,
    })?;
    Ok(same_asked(first, s, second, t))
}
