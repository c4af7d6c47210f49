// The answer of checking: its records, written from the buffer's first byte.
#![tactic(auto)]

ghost use Rattle.std.specs.Prelude.{◌≡◌, ◌+◌, ◌*◌, ◌≤◌, ◌<◌, [], ◌++◌, length, take, nat_abs};
ghost use Rattle.std.proofs.lemmas.List.Edits.{sets};
ghost use Rattle.calculus.specs.Limits.{length_limit, variable_limit, number_limit, answer_bytes};
ghost use Rattle.format.specs.Fields.{unsigned};
ghost use Rattle.format.specs.Answer.{record_bytes, character_bytes, integer_bytes, string_records};
ghost use Rattle.format.specs.Checking.{Strings};
ghost use Rattle.format.specs.Demands.{answer_after};
ghost use Rattle.answer.specs.Table.{row, table_strings, table_answer, Table, Integers};

use encoding::{KIND_END, KIND_INTEGERS, KIND_VALUE, RECORD_HEAD};
use limits::LENGTH_LIMIT;
use writing::{put_head, put_u32};

// Characters, 4 bytes each.
fn put_characters(buffer: &mut [u8], at: usize, characters: &[u32])
    requires { at + 4 * length characters.now ≤ length buffer.old }
    ensures { buffer.new ≡ sets buffer.old at (character_bytes characters.now) }
{
    for (i, character) in characters.iter().enumerate() {
        put_u32(buffer, at + 4 * i, *character as usize);
    }
}

// A string's record; answers the index after it.
fn put_string(buffer: &mut [u8], at: usize, characters: &[u32]) -> usize
    requires { at + 6 + 4 * length characters.now ≤ length buffer.old }
    ensures value { result ≡ at + length (record_bytes 9 (character_bytes characters.now)) }
    ensures buffer_after { buffer.new ≡ sets buffer.old at (record_bytes 9 (character_bytes characters.now)) }
{
    let size = 4 * characters.len();
    put_head(buffer, at, size, KIND_VALUE);
    put_characters(buffer, at + RECORD_HEAD, characters);
    at + RECORD_HEAD + size
}

// The record of variable x's string in the table; answers the index after it.
fn put_row(buffer: &mut [u8], at: usize, characters: &[u32], x: usize, size: usize) -> usize
    requires { (x < variable_limit) × (size ≤ length_limit) × (length_limit * x + length_limit ≤ length characters.now)
        × (at + 6 + 4 * size ≤ length buffer.old) }
    ensures value { result ≡ at + length (record_bytes 9 (character_bytes (row characters.now x size))) }
    ensures buffer_after { buffer.new ≡ sets buffer.old at (record_bytes 9 (character_bytes (row characters.now x size))) }
{
    let from = LENGTH_LIMIT * x;
    put_string(buffer, at, &characters[from..from + size])
}

// "one record of kind 9 for each string variable"; answers the index after them.
fn put_strings(buffer: &mut [u8], characters: &[u32], sizes: &[usize], p: usize) -> usize
    requires { Table characters.now sizes.now p × (answer_bytes ≤ length buffer.old) }
    ensures value { result ≡ length (string_records (table_strings characters.now sizes.now p)) }
    ensures buffer_after { buffer.new ≡ sets buffer.old 0 (string_records (table_strings characters.now sizes.now p)) }
{
    let mut at = 0;
    for x in 0..p {
        at = put_row(buffer, at, characters, x, sizes[x]);
    }
    at
}

// The 32 bits of a number's two's complement.
fn bits_of(z: i64) -> usize
    requires { nat_abs z ≤ number_limit }
    ensures { result ≡ unsigned z }
{
    (z as i32).cast_unsigned() as usize
}

// The first q numbers of a model, 4 bytes each. A character has 32 bits by its type, a number of the model by the limit: one loop for both would be no shorter.
fn put_integers(buffer: &mut [u8], at: usize, model: &[i64], q: usize)
    requires { Integers model.now q × (at + 4 * q ≤ length buffer.old) }
    ensures { buffer.new ≡ sets buffer.old at (integer_bytes (take q model.now)) }
{
    for i in 0..q {
        put_u32(buffer, at + 4 * i, bits_of(model[i]));
    }
}

// "one of kind 10 (q i32 values), one of kind 8"
fn put_tail(buffer: &mut [u8], at: usize, model: &[i64], q: usize)
    requires { Integers model.now q × (at + 12 + 4 * q ≤ length buffer.old) }
    ensures { buffer.new ≡ sets buffer.old at (record_bytes 10 (integer_bytes (take q model.now)) ++ record_bytes 8 []) }
{
    let size = 4 * q;
    put_head(buffer, at, size, KIND_INTEGERS);
    put_integers(buffer, at + RECORD_HEAD, model, q);
    put_head(buffer, at + RECORD_HEAD + size, 0, KIND_END);
}

// The whole answer from the buffer's first byte; "strings write nothing past the answer's length".
pub fn write_answer(
    buffer: &mut [u8],
    characters: &[u32],
    sizes: &[usize],
    p: usize,
    model: &[i64],
    q: usize,
)
    requires { Table characters.now sizes.now p × Integers model.now q × (answer_bytes ≤ length buffer.old) }
    ensures { buffer.new ≡
        answer_after (Strings (table_answer characters.now sizes.now p model.now q)) buffer.old }
{
    let at = put_strings(buffer, characters, sizes, p);
    put_tail(buffer, at, model, q);
}
