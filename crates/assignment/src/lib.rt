// The assignment that an answer holds, read for judging: the answer's form, its ranges, and the columns' values.
#![tactic(auto)]

ghost use Rattle.std.specs.Prelude.{◌≡◌, true, ◌+◌, ◌≤◌, ◌<◌, length, get_or, pos};
ghost use Rattle.calculus.specs.Limits.{variable_limit};
ghost use Rattle.calculus.specs.Facts.{code_of, blank};
ghost use Rattle.format.specs.Records.{next};
ghost use Rattle.format.specs.Places.{text_at};
ghost use Rattle.format.specs.Answer.{record_is, string_form, answer_form, outside};
ghost use Rattle.records.specs.Placed.{Placed};
ghost use Rattle.assignment.specs.Form.{placed_in, columns_at};

use encoding::{KIND_END, KIND_INTEGERS, KIND_VALUE, RECORD_HEAD};
use limits::TEXT_BYTES;
use question::{all_characters, text_code};
use records::{Found, i32_at, integers_within, read_at, u32_at};

// ---- its form

// Whether a whole record of this kind and size stands at a position.
fn record_is(v: &[u8], at: usize, kind: usize, size: usize) -> bool
    ensures { result ≡ record_is v.now at kind size }
{
    match read_at(v, at) {
        Found::Whole(k, m) => k == kind && m == size,
        _ => false,
    }
}

// Whether a string's record stands at a position.
fn string_formed(v: &[u8], at: usize) -> bool
    ensures { result ≡ string_form v.now at }
{
    match read_at(v, at) {
        Found::Whole(kind, size) => kind == KIND_VALUE && size % 4 == 0 && size <= TEXT_BYTES,
        _ => false,
    }
}

// Whether the integers' record, the end record and nothing after it stand at a position.
fn tail_formed(v: &[u8], q: usize, at: usize) -> bool
    requires { q ≤ variable_limit }
    ensures { result ≡ answer_form v.now 0 q at }
{
    let size = 4 * q;
    if !record_is(v, at, KIND_INTEGERS, size) {
        return false;
    }
    let end = at + RECORD_HEAD + size;
    record_is(v, end, KIND_END, 0) && end + RECORD_HEAD == v.len()
}

// "15 (record 0) when the answer is not exactly of its form"
pub fn answer_formed(v: &[u8], p: usize, q: usize) -> bool
    requires { q ≤ variable_limit }
    ensures { result ≡ answer_form v.now p q 0 }
{
    let mut at = 0;
    for _ in 0..p {
        if !string_formed(v, at) {
            return false;
        }
        at += RECORD_HEAD + u32_at(v, at);
    }
    tail_formed(v, q, at)
}

// ---- its ranges

// A record of the answer that is out of range: its number and its position.
#[derive(Clone, Copy)]
pub struct Outside {
    pub number: usize,
    pub at: usize,
}

// "16 (the answer's first such record) when a character is not below n or an integer is outside ±100,000,000"
pub fn first_outside(v: &[u8], n: usize, p: usize, q: usize) -> Option<Outside>
    requires { answer_form v.now p q 0 ≡ true }
    ensures { result ≡ placed_in v.now (outside v.now (blank n p q) p 0 0) }
{
    let mut at = 0;
    for number in 0..p {
        let size = u32_at(v, at);
        if !all_characters(v, n, at + RECORD_HEAD, size / 4) {
            return Some(Outside { number, at });
        }
        at += RECORD_HEAD + size;
    }
    if integers_within(v, at + RECORD_HEAD, q) {
        None
    } else {
        Some(Outside { number: p, at })
    }
}

// ---- its values

// The code of the string whose record stands at a position.
fn string_code(v: &[u8], at: usize) -> i64
    requires { next v.now at ≤ length v.now }
    ensures { result ≡ code_of (text_at v.now at) }
{
    text_code(v, at + RECORD_HEAD, u32_at(v, at) / 4)
}

// The value of column j, where the answer's records stand at their places.
fn column_value(v: &[u8], p: usize, q: usize, places: &[usize], j: usize) -> i64
    requires { (answer_form v.now p q 0 ≡ true) × Placed v.now 0 p places.now × (p < length places.now) × (j < q + (p + p)) × (q ≤ variable_limit) }
    ensures { result ≡ get_or (columns_at v.now p q) j (pos 0) }
{
    if j < q {
        return i32_at(v, places[p] + RECORD_HEAD + 4 * j);
    }
    let x = j - q;
    if x < p {
        (u32_at(v, places[x]) / 4) as i64
    } else {
        string_code(v, places[x - p])
    }
}

// The columns' values, into a slice of as many numbers.
pub fn fill_columns(values: &mut [i64], v: &[u8], p: usize, q: usize, places: &[usize])
    requires values_len { length values.old ≡ q + (p + p) }
    requires q_value { (answer_form v.now p q 0 ≡ true) × Placed v.now 0 p places.now × (p < length places.now) × (p ≤ variable_limit) × (q ≤ variable_limit) }
    ensures { values.new ≡ columns_at v.now p q }
{
    for (j, value) in values.iter_mut().enumerate() {
        *value = column_value(v, p, q, places, j);
    }
}
