// The strings of a settled leaf: words in the order of code points, the first that is not given, and the rounds that give each variable its string.
#![tactic(auto)]

ghost use Rattle.std.specs.Prelude.{◌≡◌, ℕ, ◌+◌, ◌*◌, ◌≤◌, ◌<◌, length, get_or, take, drop, replicate, pos, nat_abs};
ghost use Rattle.std.proofs.lemmas.List.Edits.{sets};
ghost use Rattle.calculus.specs.Limits.{alphabet_limit, variable_limit, length_limit, value_limit};
ghost use Rattle.calculus.specs.LinearForms.{eqℤ};
ghost use Rattle.calculus.specs.Facts.{Branch, len};
ghost use Rattle.calculus.specs.Classes as calculus;
ghost use Rattle.calculus.specs.Model.{model_value};
ghost use Rattle.calculus.specs.Strings.{word, eq_string, given, fresh_from, one_char, strings};
ghost use Rattle.format.specs.Fields.{u32s};
ghost use Rattle.rows.specs.Work.{Within};
ghost use Rattle.answer.specs.Table.{row, table_strings, Table};
ghost use Rattle.question.specs.Posed.{numbered};
ghost use Rattle.leaf.specs.Leaf.{Modelled, Ready, ShortSizes, posed_of};
ghost use Rattle.strings.specs.Filling.{sized, string_in, given_strings, is_it, fixed_at, completed_by};

use encoding::{CODE, LEN};
use leaf::{Leaf, magnitude};
use limits::{LENGTH_LIMIT, VARIABLE_LIMIT};
use records::fields_at;

// The size of a variable that has no string yet. Sizes are plain numbers and not options: those of the filled table are handed on as they stand, and the definitions
// of the table read a size past 64 as none.
const NOT_GIVEN: usize = LENGTH_LIMIT + 1;

// The k-th string of m of n characters, at the front of a row of zeros: written from the right as far as k reaches.
fn nth_word(n: usize, m: usize, k: usize) -> [u32; LENGTH_LIMIT]
    requires { (1 ≤ n) × (n ≤ alphabet_limit) × (m ≤ length_limit) × (k ≤ variable_limit) }
    ensures { take m result ≡ word n m k }
{
    let mut row = [0; LENGTH_LIMIT];
    if m == 0 {
        return row;
    }
    let mut rest = k;
    for i in (1..m).rev() {
        if rest == 0 {
            return row;
        }
        row[i] = (rest % n) as u32;
        rest /= n;
    }
    row[0] = rest as u32;
    row
}

// Are two strings the same? The last characters are compared first, since words in a row differ there.
fn same_string(s: &[u32], t: &[u32]) -> bool
    ensures { result ≡ eq_string s.now t.now }
{
    s.last() == t.last() && s == t
}

// Is w the string of variable y in the table, where it has `size` characters?
fn is_row(characters: &[u32], y: usize, size: usize, w: &[u32]) -> bool
    requires { (y < variable_limit) × (length_limit * y + length_limit ≤ length characters.now) }
    ensures { result ≡ is_it (sized size (drop (length_limit * y) characters.now)) w.now }
{
    let from = LENGTH_LIMIT * y;
    size <= LENGTH_LIMIT && same_string(w, &characters[from..from + size])
}

// Is w a string of the table?
fn is_given(characters: &[u32], sizes: &[usize; VARIABLE_LIMIT], p: usize, w: &[u32]) -> bool
    requires { (p ≤ variable_limit) × (length_limit * p ≤ length characters.now) }
    ensures { result ≡ given w.now (given_strings characters.now sizes.now p) }
{
    (0..p).any(|y| is_row(characters, y, sizes[y], w))
}

// "the smallest string of its length, by code points, not yet given".
fn fresh(
    characters: &[u32],
    sizes: &[usize; VARIABLE_LIMIT],
    p: usize,
    n: usize,
    m: usize,
) -> [u32; LENGTH_LIMIT]
    requires { (p ≤ variable_limit) × (m ≤ length_limit) × (length_limit * p ≤ length characters.now) × (1 ≤ n)
        × (n ≤ alphabet_limit) }
    ensures { take m result ≡ fresh_from p n m (given_strings characters.now sizes.now p) 0 }
{
    for k in 0..p {
        let w = nth_word(n, m, k);
        if !is_given(characters, sizes, p, &w[..m]) {
            return w;
        }
    }
    nth_word(n, m, p)
}

// A text of the ticket goes to the front of a row.
fn fill_text(row: &mut [u32], ticket: &[u8], at: usize, count: usize)
    requires { (at + 4 * count ≤ length ticket.now) × (count ≤ length row.old) × (count ≤ length_limit) }
    ensures { take count row.new ≡ u32s ticket.now at count }
{
    for (i, character) in fields_at::<u32>(ticket, at, count).enumerate() {
        row[i] = character;
    }
}

// The string of variable x becomes w.
fn store(characters: &mut [u32], x: usize, w: &[u32])
    requires { (x < variable_limit) × (length w.now ≤ length_limit) × (length_limit * x + length_limit ≤ length characters.old) }
    ensures { characters.new ≡ sets characters.old (length_limit * x) w.now }
{
    let from = LENGTH_LIMIT * x;
    characters[from..from + w.len()].copy_from_slice(w);
}

// ---- the rounds. A variable's row is filled from the front, and its size is answered, 65 for none.

// "a class of length 1 gets the character of its code".
fn fill_character(row: &mut [u32], len: i64, code: i64) -> usize
    requires { (nat_abs code ≤ value_limit) × (length row.old ≡ length_limit) }
    ensures { sized result row.new ≡ one_char (eqℤ len (pos 1)) code }
{
    if len == 1 {
        row[0] = magnitude(code) as u32;
        return 1;
    }
    NOT_GIVEN
}

// What the first two rounds give to variable x: "a class with a literal gets it; a class of length 1 gets the character of its code".
fn fill_fixed(leaf: &Leaf, x: usize, row: &mut [u32]) -> usize
    requires leaf_ready { Ready leaf.now × (x < leaf.now.s.p) × (length row.old ≡ length_limit) }
    requires within { Within value_limit leaf.now.model.now }
    ensures { sized result row.new ≡ fixed_at (posed_of leaf.now) leaf.now.labels.now leaf.now.model.now x }
{
    match classes::class_literal(leaf.labels, leaf.s.literals + 1, x) {
        Some(l) => {
            let literal = question::placed_text(leaf.ticket, leaf.places, l);
            fill_text(row, leaf.ticket, literal.at, literal.count);
            literal.count
        }
        None => fill_character(row, leaf.value_of(LEN, x), leaf.value_of(CODE, x)),
    }
}

// The first two rounds for every variable; answers the sizes.
fn give_fixed(leaf: &Leaf, characters: &mut [u32]) -> [usize; VARIABLE_LIMIT]
    requires leaf_ready { Ready leaf.now × (length_limit * leaf.now.s.p ≤ length characters.old) }
    requires within { Within value_limit leaf.now.model.now }
    ensures { (y : ℕ) → y < leaf.now.s.p
        → string_in characters.new result y ≡ fixed_at (posed_of leaf.now) leaf.now.labels.now leaf.now.model.now y }
{
    let mut sizes = [NOT_GIVEN; VARIABLE_LIMIT];
    for x in 0..leaf.s.p {
        let from = LENGTH_LIMIT * x;
        let row = &mut characters[from..from + LENGTH_LIMIT];
        sizes[x] = fill_fixed(leaf, x, row);
    }
    sizes
}

// The third round for variable x: it keeps its string from the first two, or gets that of the lowest variable of its class, or the first that is not given.
fn complete(leaf: &Leaf, characters: &mut [u32], sizes: &[usize; VARIABLE_LIMIT], x: usize) -> usize
    requires modelled { Modelled leaf.now.model.now leaf.now.s × (1 ≤ leaf.now.s.n) × (leaf.now.s.n ≤ alphabet_limit) × (x < leaf.now.s.p)
        × (length_limit * leaf.now.s.p ≤ length characters.old) }
    requires x_in_bounds { nat_abs (model_value (numbered leaf.now.s) leaf.now.model.now len x) ≤ length_limit }
    requires by_index { (y : ℕ) → y < x → get_or sizes.now y 0 ≤ length_limit }
    ensures characters_after { characters.new
        ≡ sets characters.old (length_limit * x)
        (completed_by leaf.now.s leaf.now.labels.now leaf.now.model.now characters.old sizes.now x) }
    ensures value { result ≡ length (completed_by leaf.now.s leaf.now.labels.now leaf.now.model.now characters.old sizes.now x) }
    ensures upper_bound { result ≤ length_limit }
{
    let own = sizes[x];
    if own <= LENGTH_LIMIT {
        return own;
    }
    let first = classes::lowest_variable(leaf.labels, x);
    if first < x {
        let size = sizes[first];
        let from = LENGTH_LIMIT * first;
        characters.copy_within(from..from + size, LENGTH_LIMIT * x);
        return size;
    }
    let len = leaf.value_of(LEN, x);
    let m = magnitude(len);
    let w = fresh(characters, sizes, leaf.s.p, leaf.s.n, m);
    store(characters, x, &w[..m]);
    m
}

// "a class with a literal gets it; a class of length 1 gets the character of its code; then each other class, by lowest variable, gets the smallest string of
// its length, by code points, not yet given". Fills the table with the strings and answers their sizes.
pub fn give_strings(leaf: &Leaf, characters: &mut [u32]) -> [usize; VARIABLE_LIMIT]
    requires leaf_ready { Ready leaf.now × (length_limit * leaf.now.s.p ≤ length characters.old) }
    requires within { Within value_limit leaf.now.model.now }
    requires short_sizes { ShortSizes (posed_of leaf.now) leaf.now.model.now }
    ensures p_after { (b : Branch) → leaf.now.labels.now ≡ calculus.labels b
        → table_strings characters.new result leaf.now.s.p ≡ strings (posed_of leaf.now) b leaf.now.model.now }
    ensures table { Table characters.new result leaf.now.s.p }
{
    let mut sizes = give_fixed(leaf, characters);
    for x in 0..leaf.s.p {
        sizes[x] = complete(leaf, characters, &sizes, x);
    }
    sizes
}
