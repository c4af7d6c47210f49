// The bytes of a ticket or an answer: little-endian fields, and the record at a position.
#![tactic(auto)]

ghost use Rattle.std.specs.Prelude.{◌≡◌, ◌+◌, ◌*◌, ◌<◌, ◌≤◌, length, nat_abs};
ghost use Rattle.calculus.specs.Limits.{variable_limit, value_limit};
ghost use Rattle.format.specs.Fields.{u16, u32, i32, i32s, pair_at, fields, signed, within, all_within};
ghost use Rattle.std.specs.Iterator.{YieldsFirst, item_count};
ghost use Rattle.std.specs.Prelude.{List, ℕ};
ghost use Rattle.format.specs.Places.{skip};
ghost use Rattle.records.specs.Found.{found_at};
ghost use Rattle.records.specs.Placed.{Placed};

use encoding::RECORD_HEAD;
use limits::{VALUE_LIMIT, VARIABLE_LIMIT};
use std::marker::{Model, PhantomData};

// ---- "Fields are little-endian"

// A field: so many bytes, and the value that stands in them at a position.
pub trait Field {
    ghost bytes: { ℕ };

    ghost value: { List ℕ → ℕ → Self };

    fn width() -> usize
        ensures { result ≡ bytes };

    fn read(b: &[u8], at: usize) -> Self
        requires { at + bytes ≤ length b.now }
        ensures { result ≡ value b.now at };
}

impl Field for u16 {
    ghost bytes = { 2 };

    ghost value = { u16 };

    fn width() -> usize {
        2
    }

    fn read(b: &[u8], at: usize) -> u16 {
        u16::from_le_bytes([b[at], b[at + 1]])
    }
}

impl Field for u32 {
    ghost bytes = { 4 };

    ghost value = { u32 };

    fn width() -> usize {
        4
    }

    fn read(b: &[u8], at: usize) -> u32 {
        u32::from_le_bytes([b[at], b[at + 1], b[at + 2], b[at + 3]])
    }
}

impl Field for i32 {
    ghost bytes = { 4 };

    ghost value = { i32 };

    fn width() -> usize {
        4
    }

    fn read(b: &[u8], at: usize) -> i32 {
        u32::read(b, at).cast_signed()
    }
}

// A pair is a u16 and an i32 after it.
impl Field for (u16, i32) {
    ghost bytes = { 6 };

    ghost value = { pair_at };

    fn width() -> usize {
        6
    }

    fn read(b: &[u8], at: usize) -> (u16, i32) {
        (u16::read(b, at), i32::read(b, at + 2))
    }
}

pub fn u16_at(b: &[u8], at: usize) -> usize
    requires { at + 2 ≤ length b.now }
    ensures { (result ≡ u16 b.now at) × (result < 65536) }
{
    usize::from(u16::read(b, at))
}

pub fn u32_at(b: &[u8], at: usize) -> usize
    requires { at + 4 ≤ length b.now }
    ensures { (result ≡ u32 b.now at) × (result < 4294967296) }
{
    u32::read(b, at) as usize
}

pub fn i32_at(b: &[u8], at: usize) -> i64
    requires { at + 4 ≤ length b.now }
    ensures { (result ≡ i32 b.now at) × (nat_abs result ≤ 2147483648) }
{
    i64::from(i32::read(b, at))
}

// ---- fields one after another

// Those that are left.
#[derive(Drop)]
pub struct FieldRun<'a, F: Field> {
    bytes: &'a [u8],
    at: usize,
    left: usize,
    kind: PhantomData<F>,
}

impl<'a, F: Field> Model for FieldRun<'a, F> {
    ghost Value = { List F };

    ghost view = { λ s. fields F.bytes (F.value s.bytes.now) s.at s.left };

    ghost invariant = { λ s. s.at + F.bytes * s.left ≤ length s.bytes.now };
}

impl<'a, F: Field> Iterator for FieldRun<'a, F> {
    type Item = F;

    ghost next_gives = { YieldsFirst (λ s. s) };

    ghost remaining = { item_count (λ s. s) };

    fn next(&mut self) -> Option<F> {
        if self.left == 0 {
            return None;
        }
        let field = F::read(self.bytes, self.at);
        self.at += F::width();
        self.left -= 1;
        Some(field)
    }
}

// So many fields, the first at a position.
pub fn fields_at<'a, F: Field>(bytes: &'a [u8], at: usize, count: usize) -> FieldRun<'a, F>
    requires { at + F.bytes * count ≤ length bytes.now }
    ensures { result ≡ fields F.bytes (F.value bytes.now) at count }
{
    FieldRun {
        bytes,
        at,
        left: count,
        kind: PhantomData,
    }
}

// Whether the number with these 32 bits lies within the limit on both sides.
pub fn bits_within(v: usize, limit: usize) -> bool
    requires { (v < 4294967296) × (limit < 2147483648) }
    ensures { result ≡ within limit (signed v) }
{
    if v < 2147483648 {
        v <= limit
    } else {
        4294967296 - v <= limit
    }
}

// Whether the count integers from a position lie within ±100,000,000: those of an answer, and the values of a model.
pub fn integers_within(v: &[u8], at: usize, count: usize) -> bool
    requires { at + 4 * count ≤ length v.now }
    ensures { result ≡ all_within value_limit (i32s v.now at count) }
{
    fields_at(v, at, count).all(|z: i32| z.unsigned_abs() as usize <= VALUE_LIMIT)
}

// ---- "A record is a u32 body length, a u16 kind, a body"

// What stands at a position.
#[derive(Clone, Copy, Debug, PartialEq, Eq)]
pub enum Found {
    // A record that is all there: its kind and its body's length.
    Whole(usize, usize),
    // The six leading bytes without the whole body: its kind.
    Cut(usize),
    // Fewer than six bytes.
    Nothing,
}

pub fn record_at(b: &[u8], at: usize) -> Found
    ensures { result ≡ found_at b.now at }
{
    if b.len() < RECORD_HEAD || b.len() - RECORD_HEAD < at {
        return Found::Nothing;
    }
    let size = u32_at(b, at);
    let kind = u16_at(b, at + 4);
    if b.len() - at - RECORD_HEAD < size {
        Found::Cut(kind)
    } else {
        Found::Whole(kind, size)
    }
}

// "Records are read one after another from the lent bytes": the ticket and a position in it.
#[derive(Drop)]
pub struct Reader<'a> {
    pub ticket: &'a [u8],
    pub at: usize,
}

pub fn reader_at<'a>(ticket: &'a [u8], at: usize) -> Reader<'a>
    ensures { (result.ticket ≡ ticket.entry) × (result.at ≡ at) }
{
    Reader { ticket, at }
}

// The record at the reader's position.
pub fn next_record<'a>(r: Reader<'a>) -> Found
    ensures { result ≡ found_at r.entry.ticket.now r.entry.at }
{
    record_at(r.ticket, r.at)
}

// The record at a position, by way of a reader.
pub fn read_at(b: &[u8], at: usize) -> Found
    ensures { result ≡ found_at b.now at }
{
    next_record(reader_at(b, at))
}

// The positions of count records from a position on, and of what stands after them.
pub fn record_places(b: &[u8], from: usize, count: usize) -> [usize; VARIABLE_LIMIT + 1]
    requires { (count ≤ variable_limit) × (skip b.now count from ≤ length b.now) }
    ensures { Placed b.now from count result }
{
    let mut places = [0usize; VARIABLE_LIMIT + 1];
    let mut at = from;
    for x in 0..count {
        places[x] = at;
        at += RECORD_HEAD + u32_at(b, at);
    }
    places[count] = at;
    places
}
