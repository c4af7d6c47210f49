// "Case, digits and order in judging" (02, L3): whether the strings of an answer meet an extended constraint. A string is named by the position of its record;
// its characters are u32 each.
#![tactic(auto)]

ghost use Rattle.std.specs.Prelude.{◌≡◌, true, ◌&&◌, ℕ, ◌+◌, ◌*◌, ◌<◌, ◌≤◌, length, map, eqb, nat_abs};
ghost use Rattle.lists.specs.Lists.{all};
ghost use Rattle.calculus.specs.Limits.{value_limit};
ghost use Rattle.calculus.specs.LinearForms.{eqℤ};
ghost use Rattle.calculus.specs.Strings.{eq_string};
ghost use Rattle.calculus.specs.Extended.{upper_character, lower_character, upper, lower, is_digit, numeric, numeral, to_int, from_int, precedes as precedes_test};
ghost use Rattle.format.specs.Fields.{u32s};
ghost use Rattle.format.specs.Records.{next};
ghost use Rattle.format.specs.Places.{text_at};

use encoding::RECORD_HEAD;
use limits::VALUE_LIMIT;
use records::{Field, FieldRun, fields_at, u32_at};

// ---- case

// "97 to 122 become 65 to 90", and every other character stays.
fn upper_character(c: u32) -> u32
    ensures { result ≡ upper_character c }
{
    match c {
        97..=122 => c - 32,
        _ => c,
    }
}

// 65 to 90 become 97 to 122, and every other character stays.
fn lower_character(c: u32) -> u32
    ensures { result ≡ lower_character c }
{
    match c {
        65..=90 => c + 32,
        _ => c,
    }
}

// The characters of the string whose record stands at a position.
fn characters<'a>(v: &'a [u8], at: usize) -> FieldRun<'a, u32>
    requires { next v.now at ≤ length v.now }
    ensures { result ≡ text_at v.now at }
{
    fields_at(v, at + RECORD_HEAD, u32_at(v, at) / 4)
}

// Whether one string is another with each character changed.
fn cased<F: Fn(u32) -> u32>(v: &[u8], x: usize, y: usize, change: F) -> bool
    requires { (next v.now x ≤ length v.now) × (next v.now y ≤ length v.now) × F.IsAlwaysCallable change }
    ensures { (f : ℕ → ℕ) → ((c d : ℕ) → F.post change c d → d ≡ f c)
        → result ≡ eq_string (text_at v.now x) (map f (text_at v.now y)) }
{
    u32_at(v, x) / 4 == u32_at(v, y) / 4
        && characters(v, x)
            .zip(characters(v, y))
            .all(|(c, d)| c == change(d))
}

// "string a is b in upper case"
pub fn is_upper(v: &[u8], x: usize, y: usize) -> bool
    requires { (next v.now x ≤ length v.now) × (next v.now y ≤ length v.now) }
    ensures { result ≡ eq_string (text_at v.now x) (upper (text_at v.now y)) }
{
    cased(v, x, y, upper_character)
}

// "string a is b in lower case"
pub fn is_lower(v: &[u8], x: usize, y: usize) -> bool
    requires { (next v.now x ≤ length v.now) × (next v.now y ≤ length v.now) }
    ensures { result ≡ eq_string (text_at v.now x) (lower (text_at v.now y)) }
{
    cased(v, x, y, lower_character)
}

// ---- numerals

// The digits are the characters 48 to 57.
const ZERO: u32 = 48;

const NINE: u32 = 57;

// Whether all of the count characters from a position are digits.
fn all_digits(v: &[u8], at: usize, count: usize) -> bool
    requires { at + 4 * count ≤ length v.now }
    ensures { result ≡ all is_digit (u32s v.now at count) }
{
    fields_at(v, at, count).all(|c: u32| (ZERO..=NINE).contains(&c))
}

// "not empty, digits only, a leading 0 only when alone"
fn is_numeric(v: &[u8], at: usize, count: usize) -> bool
    requires { at + 4 * count ≤ length v.now }
    ensures { result ≡ numeric (u32s v.now at count) }
{
    count != 0 && all_digits(v, at, count) && (count == 1 || u32::read(v, at) != ZERO)
}

// The value of digits, or a number over the limit where the value is over it: "A recipient's numeral of 64 digits must be judged properly although no answer
// integer can hold it". Values never fall from digit to digit, so the first one over the limit decides.
fn numeral_value(v: &[u8], at: usize, count: usize) -> usize
    requires { (at + 4 * count ≤ length v.now) × (all is_digit (u32s v.now at count) ≡ true) }
    ensures { (numeral (u32s v.now at count) ≤ value_limit → result ≡ numeral (u32s v.now at count))
        × (value_limit < numeral (u32s v.now at count) → value_limit < result) }
{
    let mut value = 0;
    for c in fields_at::<u32>(v, at, count) {
        if VALUE_LIMIT < value {
            return value;
        }
        value = 10 * value + (c - ZERO) as usize;
    }
    value
}

// Whether the characters are a numeral of the value k.
fn value_is(v: &[u8], at: usize, count: usize, k: usize) -> bool
    requires { (at + 4 * count ≤ length v.now) × (k ≤ value_limit) }
    ensures { result ≡ (numeric (u32s v.now at count) && eqb (numeral (u32s v.now at count)) k) }
{
    is_numeric(v, at, count) && numeral_value(v, at, count) == k
}

// "integer a is b read in decimal, −1 if b is not numeric"
pub fn reads_as(v: &[u8], y: usize, z: i64) -> bool
    requires { (next v.now y ≤ length v.now) × (nat_abs z ≤ value_limit) }
    ensures { result ≡ eqℤ z (to_int (text_at v.now y)) }
{
    let count = u32_at(v, y) / 4;
    if z < -1 {
        return false;
    }
    if z < 0 {
        return !is_numeric(v, y + RECORD_HEAD, count);
    }
    value_is(v, y + RECORD_HEAD, count, z as usize)
}

// "string a is integer b in decimal, empty for negatives": a number is the value of one numeral alone, so no digit is written.
pub fn written_as(v: &[u8], x: usize, z: i64) -> bool
    requires { (next v.now x ≤ length v.now) × (nat_abs z ≤ value_limit) }
    ensures { result ≡ eq_string (text_at v.now x) (from_int z) }
{
    let count = u32_at(v, x) / 4;
    if z < 0 {
        return count == 0;
    }
    value_is(v, x + RECORD_HEAD, count, z as usize)
}

// ---- order

// "string a is equal to or before string b by code points"
pub fn precedes(v: &[u8], x: usize, y: usize) -> bool
    requires { (next v.now x ≤ length v.now) × (next v.now y ≤ length v.now) }
    ensures { result ≡ precedes_test (text_at v.now x) (text_at v.now y) }
{
    // A `for`: `cmp` of the two texts takes longer.
    for (c, d) in characters(v, x).zip(characters(v, y)) {
        if c != d {
            return c < d;
        }
    }
    u32_at(v, x) / 4 <= u32_at(v, y) / 4
}
