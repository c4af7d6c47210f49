// The question: "Kinds 1 to 4 are the question"; judging takes kind 11 besides (02, L3). Checking and judging read it with this one reader, each in its manner,
// by position: what is kept of it is numbers, and its literals and constraints stay where they stand in the bytes.
#![tactic(auto)]

ghost use Rattle.std.specs.Prelude.{ℕ, Bool, ◌≡◌, cond, ◌+◌, ◌*◌, ◌-◌, ◌<◌, ◌≤◌, length, eqb, nat_abs};
ghost use Rattle.calculus.specs.Limits.{variable_limit, column_limit};
ghost use Rattle.calculus.specs.Alphabet.{all_characters};
ghost use Rattle.calculus.specs.Facts.{code_of};
ghost use Rattle.calculus.specs.Strings.{eq_string, given};
ghost use Rattle.format.specs.Fields.{u16, u32, u32s, pairs_at};
ghost use Rattle.format.specs.Records.{kind as kind_at, size as size_at};
ghost use Rattle.format.specs.Question.{head_rank, literal_rank, rank_of, head_fault, text_of, literal_fault, three_fault, string_range, string_fault, coefficient_in_range, pair_in_range};
ghost use Rattle.format.specs.Question.{rising, form_range, arithmetic_fault, fact_fault, extended_range, extended_fault, rank_in_place, question_body_fault};
ghost use Rattle.format.specs.Question.{room_for, question_fault, question_advanced, read_by};
ghost use Rattle.format.specs.Places.{skip, texts, literals_from};
ghost use Rattle.records.specs.Placed.{Placed};
ghost use Rattle.faults.specs.Numbers.{fault_in};
ghost use Rattle.question.specs.Progress.{manner_of, progress_of, ends_at, reading_of};
ghost use Rattle.question.specs.Standing.{StandsTo, NextAt};
ghost use Rattle.question.specs.Columns.{column_at};
ghost use Rattle.question.specs.Texts.{LiteralText};

use encoding::{
    IN_ORDER, IS_DECIMAL, IS_LITERAL, IS_VALUE, KIND_ARITHMETIC, KIND_CLAIM, KIND_END,
    KIND_EXTENDED, KIND_HEAD, KIND_LITERAL, KIND_STRING, LEN, NE, RECORD_HEAD,
};
use faults::{Fault, Refusal};
use limits::{
    ALPHABET_LIMIT, COLUMN_LIMIT, FACT_LIMIT, LITERAL_LIMIT, LITERALS_FROM, NUMBER_LIMIT,
    TEXT_BYTES, TICKET_BYTES, VARIABLE_LIMIT,
};
use records::{Found, bits_within, fields_at, read_at, u16_at, u32_at};

// An arithmetic constraint in units of six bytes: the relation and the constant are one, each pair is one.
const SIXTHS_LIMIT: usize = COLUMN_LIMIT + 1;

// ---- the bodies of the question's records: the first fault of one. A body is its position and its size.

// "1 head, once: u32 n (1 to 196,608), u16 p string variables, u16 q integer variables (each 0 to 16)"
fn head_fault(b: &[u8], at: usize, size: usize) -> Result<(), Fault>
    requires { at + size ≤ length b.now }
    ensures { fault_in result ≡ head_fault b.now at size }
{
    if size != 8 {
        return Err(Fault::NoForm);
    }
    let n = u32_at(b, at);
    let p = u16_at(b, at + 4);
    let q = u16_at(b, at + 6);
    if n < 1 || ALPHABET_LIMIT < n || VARIABLE_LIMIT < p || VARIABLE_LIMIT < q {
        return Err(Fault::OutOfRange);
    }
    Ok(())
}

// Whether all of the count characters from a position are below n.
pub fn all_characters(b: &[u8], n: usize, at: usize, count: usize) -> bool
    requires { at + 4 * count ≤ length b.now }
    ensures { result ≡ all_characters n (u32s b.now at count) }
{
    fields_at(b, at, count).all(|c: u32| (c as usize) < n)
}

// Whether the m characters at one position and the k at another are the same: their bytes are. The last ones are compared first, since texts that share their
// front are common.
pub fn same_text(a: &[u8], x: usize, m: usize, b: &[u8], y: usize, k: usize) -> bool
    requires { (x + 4 * m ≤ length a.now) × (y + 4 * k ≤ length b.now) }
    ensures { result ≡ eq_string (u32s a.now x m) (u32s b.now y k) }
{
    if m != k {
        return false;
    }
    if m == 0 {
        return true;
    }
    let last = 4 * (m - 1);
    u32_at(a, x + last) == u32_at(b, y + last) && a[x..x + 4 * m] == b[y..y + 4 * k]
}

// Whether the text of a body is one of those of the first k literals.
fn repeats(b: &[u8], k: usize, at: usize, size: usize) -> bool
    requires { (at + size ≤ length b.now) × (skip b.now k literals_from ≤ length b.now) }
    ensures { result ≡ given (text_of b.now at size) (texts b.now k literals_from) }
{
    let mut j = LITERALS_FROM;
    for _ in 0..k {
        let other = u32_at(b, j);
        if same_text(b, at, size / 4, b, j + RECORD_HEAD, other / 4) {
            return true;
        }
        j += RECORD_HEAD + other;
    }
    false
}

// "2 literal, 0 to 15 of them: 1 to 64 characters, u32 each, below n"; "7 when a literal repeats"
fn literal_fault(b: &[u8], n: usize, k: usize, at: usize, size: usize) -> Result<(), Fault>
    requires { (at + size ≤ length b.now) × (skip b.now k literals_from ≤ length b.now) }
    ensures { fault_in result ≡ literal_fault b.now n (texts b.now k literals_from) at size }
{
    if size < 4 || TEXT_BYTES < size || size % 4 != 0 {
        return Err(Fault::NoForm);
    }
    if !all_characters(b, n, at, size / 4) {
        return Err(Fault::OutOfRange);
    }
    if repeats(b, k, at, size) {
        return Err(Fault::Repeats);
    }
    Ok(())
}

// A body of three u16 fields that are to be in a range.
fn three_fault<R: FnOnce(usize, usize, usize) -> bool>(
    b: &[u8],
    at: usize,
    size: usize,
    in_range: R,
) -> Result<(), Fault>
    requires there { at + size ≤ length b.now }
    requires callable { R.IsAlwaysCallable in_range }
    ensures { (range : ℕ → ℕ → ℕ → Bool) → ((f x y : ℕ) (r : Bool) → R.post in_range f x y r → r ≡ range f x y) → fault_in result ≡ three_fault range b.now at size }
{
    if size != 6 {
        return Err(Fault::NoForm);
    }
    if !in_range(u16_at(b, at), u16_at(b, at + 2), u16_at(b, at + 4)) {
        return Err(Fault::OutOfRange);
    }
    Ok(())
}

// Whether a string constraint's fields are in their ranges, over p variables and k literals besides the empty one.
fn string_in_range(p: usize, k: usize, relation: usize, x: usize, y: usize) -> bool
    ensures { result ≡ string_range p k relation x y }
{
    relation <= IS_LITERAL
        && x < p
        && if relation == IS_LITERAL {
            y <= k
        } else {
            y < p
        }
}

// "3 string constraint: u16 relation, u16 a, u16 b"
fn string_fault(b: &[u8], p: usize, k: usize, at: usize, size: usize) -> Result<(), Fault>
    requires { at + size ≤ length b.now }
    ensures { fault_in result ≡ string_fault b.now p k at size }
{
    three_fault(
        b,
        at,
        size,
        |relation, x, y| string_in_range(p, k, relation, x, y),
    )
}

// Whether a number may be a coefficient.
fn coefficient_in_range(v: i32) -> bool
    ensures { result ≡ coefficient_in_range v }
{
    v != 0 && v.unsigned_abs() as usize <= NUMBER_LIMIT
}

// Whether a column is at least low and below c, and a number may be its coefficient.
fn pair_in_range(c: usize, low: usize, column: usize, v: i32) -> bool
    ensures { result ≡ pair_in_range c low (column, v) }
{
    low <= column && column < c && coefficient_in_range(v)
}

// Whether the columns of the count pairs from a position rise strictly below c, with coefficients in their range.
fn pairs_rise(b: &[u8], c: usize, at: usize, count: usize) -> bool
    requires { at + 6 * count ≤ length b.now }
    ensures { result ≡ rising c 0 (pairs_at b.now at count) }
{
    let mut low = 0;
    for (column, v) in fields_at(b, at, count) {
        let column = usize::from(column);
        if !pair_in_range(c, low, column, v) {
            return false;
        }
        low = column + 1;
    }
    true
}

// Whether a form, an i32 constant and then count pairs, is in its ranges over c columns.
pub fn form_in_range(b: &[u8], c: usize, at: usize, count: usize) -> bool
    requires { at + 4 + 6 * count ≤ length b.now }
    ensures { result ≡ form_range b.now c at count }
{
    bits_within(u32_at(b, at), NUMBER_LIMIT) && pairs_rise(b, c, at + 4, count)
}

// "4 arithmetic constraint: u16 relation .., i32 constant, then 0 to 48 pairs"
fn arithmetic_fault(b: &[u8], c: usize, at: usize, size: usize) -> Result<(), Fault>
    requires { at + size ≤ length b.now }
    ensures { fault_in result ≡ arithmetic_fault b.now c at size }
{
    if size < 6 || size % 6 != 0 || SIXTHS_LIMIT < size / 6 {
        return Err(Fault::NoForm);
    }
    if NE < u16_at(b, at) || !form_in_range(b, c, at + 2, size / 6 - 1) {
        return Err(Fault::OutOfRange);
    }
    Ok(())
}

// The first fault of the body of a constraint, over p string variables, k literals besides the empty one and c columns; a kind that is no constraint's is out of
// its place.
fn fact_fault(
    b: &[u8],
    p: usize,
    k: usize,
    c: usize,
    kind: usize,
    at: usize,
    size: usize,
) -> Result<(), Fault>
    requires { at + size ≤ length b.now }
    ensures { fault_in result ≡ fact_fault b.now p k c kind at size }
{
    match kind {
        KIND_STRING => string_fault(b, p, k, at, size),
        KIND_ARITHMETIC => arithmetic_fault(b, c, at, size),
        _ => Err(Fault::OutOfPlace),
    }
}

// How many variables an operand of an extended constraint is one of: it is an integer variable in one function, and in the others a string variable.
fn operand_limit(p: usize, q: usize, function: usize, integer: usize) -> usize
    ensures { result ≡ cond (eqb function integer) q p }
{
    if function == integer { q } else { p }
}

// Whether an extended constraint's fields are in their ranges, over p string and q integer variables.
fn extended_in_range(p: usize, q: usize, function: usize, x: usize, y: usize) -> bool
    ensures { result ≡ extended_range p q function x y }
{
    function <= IN_ORDER
        && x < operand_limit(p, q, function, IS_VALUE)
        && y < operand_limit(p, q, function, IS_DECIMAL)
}

// "kind 11 ..: u16 function, u16 a, u16 b"
fn extended_fault(b: &[u8], p: usize, q: usize, at: usize, size: usize) -> Result<(), Fault>
    requires { at + size ≤ length b.now }
    ensures { fault_in result ≡ extended_fault b.now p q at size }
{
    three_fault(
        b,
        at,
        size,
        |function, x, y| extended_in_range(p, q, function, x, y),
    )
}

// ---- kinds and their order

// "They stand in order of kind": the ranks of the records in this order; 0 stands before the head. Kinds 1 to 4 are their own ranks, and kind 11 stands after.
// They are numbers and no enum, since a rank is compared by its order alone and a kind's number is its rank without a table.
pub const HEAD_RANK: usize = KIND_HEAD;

const LITERAL_RANK: usize = KIND_LITERAL;

const ARITHMETIC_RANK: usize = KIND_ARITHMETIC;

const EXTENDED_RANK: usize = 5;

// The rank of a kind, 0 for a kind that has no place in a question. A table of all kinds would cost each record a jump.
fn rank_of(kind: usize) -> usize
    ensures { result ≡ rank_of kind }
{
    if kind <= KIND_ARITHMETIC {
        kind
    } else if kind == KIND_EXTENDED {
        EXTENDED_RANK
    } else {
        0
    }
}

// How a question is read.
#[derive(Clone, Copy)]
pub struct Manner {
    // Whether 10 is looked for.
    pub limited: bool,
    // The greatest rank that is taken: a kind of a greater one is out of its place.
    pub greatest: usize,
}

// Checking looks for 10, and judging: "2 to 7 and 10 for the question". Judging alone takes kind 11.
pub const CHECKING: Manner = Manner {
    limited: true,
    greatest: ARITHMETIC_RANK,
};

pub const JUDGING: Manner = Manner {
    limited: true,
    greatest: EXTENDED_RANK,
};

// What a ticket will need: "It never gives 10" (02, L2).
pub const NEEDING: Manner = Manner {
    limited: false,
    greatest: ARITHMETIC_RANK,
};

// ---- one record

// What was read so far: the rank of the last record, 0 before the head, and the question by its numbers.
#[derive(Clone, Copy)]
pub struct Progress {
    pub last: usize,
    pub n: usize,
    pub p: usize,
    pub q: usize,
    pub literals: usize,
    pub constraints: usize,
    pub extended: usize,
}

impl Progress {
    // "Columns: the q integer variables, then len of each string variable, then code of each": how many there are.
    pub fn columns(self) -> usize
        requires { (self.p ≤ variable_limit) × (self.q ≤ variable_limit) }
        ensures { result ≡ self.q + (self.p + self.p) }
    {
        self.q + 2 * self.p
    }
}

// "They stand in order of kind"; "4 when a kind is unknown or out of its place (a 16th literal .. included)": a record of a rank after the rank last and so many
// literals, where ranks up to the greatest are taken.
fn in_place(greatest: usize, last: usize, literals: usize, rank: usize) -> bool
    ensures { result ≡ rank_in_place greatest last literals rank }
{
    if rank == HEAD_RANK {
        return last == 0;
    }
    HEAD_RANK <= last
        && LITERAL_RANK <= rank
        && last <= rank
        && rank <= greatest
        && (rank != LITERAL_RANK || literals < LITERAL_LIMIT)
}

// The first fault of a body of a kind.
fn body_fault(b: &[u8], s: Progress, kind: usize, at: usize, size: usize) -> Result<(), Fault>
    requires { (at + size ≤ length b.now) × (rank_of kind ≡ literal_rank → skip b.now s.literals literals_from ≤ length b.now) × (s.p ≤ variable_limit) × (s.q ≤ variable_limit) }
    ensures { fault_in result ≡ question_body_fault b.now (progress_of b.now s).question kind at size }
{
    match rank_of(kind) {
        HEAD_RANK => head_fault(b, at, size),
        LITERAL_RANK => literal_fault(b, s.n, s.literals, at, size),
        EXTENDED_RANK => extended_fault(b, s.p, s.q, at, size),
        _ => fact_fault(b, s.p, s.literals, s.columns(), kind, at, size),
    }
}

// "At most 128 facts stand on a branch": where 10 is looked for, a constraint must find room after those before it.
fn has_room(limited: bool, rank: usize, constraints: usize) -> bool
    ensures { result ≡ room_for limited rank constraints }
{
    !limited || rank <= LITERAL_RANK || constraints < FACT_LIMIT
}

// The first fault of a whole record; that it finds no room comes after the others.
fn record_fault(
    m: Manner,
    b: &[u8],
    s: Progress,
    kind: usize,
    at: usize,
    size: usize,
) -> Result<(), Fault>
    requires stands_to { StandsTo b.now s at }
    requires kind_value { (kind ≡ kind_at b.now at) × (size ≡ size_at b.now at) × (at + 6 + size ≤ length b.now) }
    ensures { fault_in result ≡ question_fault (manner_of m) b.now (progress_of b.now s) at }
{
    let rank = rank_of(kind);
    if !in_place(m.greatest, s.last, s.literals, rank) {
        return Err(Fault::OutOfPlace);
    }
    body_fault(b, s, kind, at + RECORD_HEAD, size)?;
    if !has_room(m.limited, rank, s.constraints + s.extended) {
        return Err(Fault::NoRoom);
    }
    Ok(())
}

// What was read after the head with its body at a position.
fn read_head(b: &[u8], body: usize) -> Progress
    requires { body + 8 ≤ length b.now }
    ensures { result ≡ record {
      last = head_rank;
      n = u32 b.now body;
      p = u16 b.now (body + 4);
      q = u16 b.now (body + 6);
      literals = 0;
      constraints = 0;
      extended = 0;
    } }
{
    Progress {
        last: HEAD_RANK,
        n: u32_at(b, body),
        p: u16_at(b, body + 4),
        q: u16_at(b, body + 6),
        literals: 0,
        constraints: 0,
        extended: 0,
    }
}

// What was read after a record without fault.
fn advance(b: &[u8], s: Progress, kind: usize, at: usize) -> Progress
    requires { NextAt b.now s at × (kind ≡ kind_at b.now at) }
    ensures { progress_of b.now result ≡ question_advanced b.now (progress_of b.now s) at }
{
    match rank_of(kind) {
        HEAD_RANK => read_head(b, at + RECORD_HEAD),
        LITERAL_RANK => Progress {
            last: LITERAL_RANK,
            literals: s.literals + 1,
            ..s
        },
        EXTENDED_RANK => Progress {
            last: EXTENDED_RANK,
            extended: s.extended + 1,
            ..s
        },
        rank => Progress {
            last: rank,
            constraints: s.constraints + 1,
            ..s
        },
    }
}

// ---- the whole question

// What was read, and the position and the record where reading ended.
#[derive(Clone, Copy)]
pub struct Read {
    pub numbers: Progress,
    pub at: usize,
    pub record: usize,
}

// Whether the question ends at what stands at a position: at the head of a claim or an end record, whole or not.
fn ends_question(found: Found) -> bool
    ensures { result ≡ ends_at found }
{
    match found {
        Found::Whole(kind, _) | Found::Cut(kind) => kind == KIND_CLAIM || kind == KIND_END,
        Found::Nothing => false,
    }
}

// The question of the bytes, read in a manner; "reading ends at the six leading bytes of the first claim or end record".
pub fn read_question(m: Manner, b: &[u8]) -> Result<Read, Refusal>
    ensures { reading_of b.now result ≡ read_by (question_fault (manner_of m)) b.now }
{
    if TICKET_BYTES < b.len() {
        return Err(Fault::LongTicket.at(0));
    }
    let mut numbers = Progress {
        last: 0,
        n: 0,
        p: 0,
        q: 0,
        literals: 0,
        constraints: 0,
        extended: 0,
    };
    let mut at = 0;
    let mut record = 0;
    // The bytes say where the question ends: no count is known before.
    loop {
        let found = read_at(b, at);
        if ends_question(found) {
            return Ok(Read {
                numbers,
                at,
                record,
            });
        }
        let Found::Whole(kind, size) = found else {
            return Err(Fault::CutShort.at(record));
        };
        if let Err(fault) = record_fault(m, b, numbers, kind, at, size) {
            return Err(fault.at(record));
        }
        numbers = advance(b, numbers, kind, at);
        at += RECORD_HEAD + size;
        record += 1;
    }
}

// ---- literals by number

// The position after k records from a position on.
pub fn behind_records(b: &[u8], k: usize, from: usize) -> usize
    requires { skip b.now k from ≤ length b.now }
    ensures { result ≡ skip b.now k from }
{
    let mut j = from;
    for _ in 0..k {
        j += RECORD_HEAD + u32_at(b, j);
    }
    j
}

// The position after l literals.
pub fn behind_literals(b: &[u8], l: usize) -> usize
    requires { skip b.now l literals_from ≤ length b.now }
    ensures { result ≡ skip b.now l literals_from }
{
    behind_records(b, l, LITERALS_FROM)
}

// The characters of a literal: the position of the first, and how many there are.
#[derive(Clone, Copy)]
pub struct Text {
    pub at: usize,
    pub count: usize,
}

// The text of literal l, which is written: its record stands at a position.
fn written_text(b: &[u8], l: usize, from: usize) -> Text
    requires { (0 < l) × (skip b.now l literals_from ≤ length b.now) × (from ≡ skip b.now (l - 1) literals_from) }
    ensures { LiteralText b.now l result }
{
    Text {
        at: from + RECORD_HEAD,
        count: u32_at(b, from) / 4,
    }
}

// "literal 0 is the empty string and is never written"
const EMPTY_TEXT: Text = Text { at: 0, count: 0 };

// The text of literal l, which is looked for from the first one on.
pub fn literal_text(b: &[u8], l: usize) -> Text
    requires { skip b.now l literals_from ≤ length b.now }
    ensures { LiteralText b.now l result }
{
    if l == 0 {
        EMPTY_TEXT
    } else {
        written_text(b, l, behind_literals(b, l - 1))
    }
}

// The text of literal l, where the places of the literals are known.
pub fn placed_text(b: &[u8], places: &[usize], l: usize) -> Text
    requires literals_from_in_bounds { skip b.now l literals_from ≤ length b.now }
    requires placed { Placed b.now literals_from l places.now × (l < length places.now) }
    ensures { LiteralText b.now l result }
{
    if l == 0 {
        EMPTY_TEXT
    } else {
        written_text(b, l, places[l - 1])
    }
}

// "code (the code point of a one-character string, else −1)", of a text.
pub fn text_code(b: &[u8], at: usize, count: usize) -> i64
    requires { at + 4 * count ≤ length b.now }
    ensures { (result ≡ code_of (u32s b.now at count)) × (nat_abs result < 4294967296) }
{
    if count == 1 { u32_at(b, at) as i64 } else { -1 }
}

// ---- columns

// "Columns: the q integer variables, then len of each string variable, then code of each": that of function (0 len, 1 code) of variable x.
pub fn column_of(p: usize, q: usize, function: usize, x: usize) -> usize
    requires { (p ≤ variable_limit) × (q ≤ variable_limit) × (x < variable_limit) }
    ensures { (result ≡ column_at p q function x) × (result < column_limit) }
{
    if function == LEN { q + x } else { q + (p + x) }
}
