// A fact as a row of 50 numbers in its own stretch of the work area: read, written, built, tested and evaluated.
#![tactic(auto)]

ghost use Rattle.std.specs.Prelude.{◌≡◌, ◌≢◌, true, ◌||◌, ◌∷◌, ◌+◌, ◌*◌, ◌≤◌, ◌<◌, length, get_or, take, drop, pos, negsuc};
ghost use Rattle.calculus.specs.Limits.{variable_limit, column_limit, number_limit, value_limit, fact_limit, work_numbers};
ghost use Rattle.calculus.specs.LinearForms.{zeros, scale, above, below, all_zero, eq_integers, value_in};
ghost use Rattle.calculus.specs.Facts.{holds, arithmetic, ge, eq};
ghost use Rattle.calculus.specs.Rules.{is_false, join_form, join_of, lowest_difference, states_equal};
ghost use Rattle.format.specs.Fields.{within, all_within};
ghost use Rattle.format.specs.Question.{string_fact, relation_of};
ghost use Rattle.format.specs.Checking.{fits, fact_within, keeps_fact, keeps};
ghost use Rattle.rows.specs.Rows.{row_length, index, index_below, fact_of, row_at, branch_of, Behind};
ghost use Rattle.rows.specs.Searches.{number_in};
ghost use Rattle.rows.specs.Work.{tag_of, Fine, Within, single, difference};

use encoding::{EQ, GE, IS_LITERAL, NE, NOT_SAME};
use limits::{LITERAL_NUMBERS, NUMBER_MAX, NUMBER_MIN, ROW_LENGTH, VARIABLE_LIMIT};

// ---- the places in a row

// What the row says.
pub const TAG: usize = 0;

// Of an arithmetic fact: the constant of its form, and the coefficient of column 0, with the other columns after it.
pub const CONSTANT: usize = 1;

pub const COEFFICIENTS: usize = 2;

// Of a string fact: its operands, the first a variable, the second a variable or a literal.
pub const FIRST: usize = 1;

pub const SECOND: usize = 2;

// ---- the tags

// Of arithmetic facts: the relation by its number.
pub const TAG_GE: usize = GE;

pub const TAG_EQ: usize = EQ;

pub const TAG_NE: usize = NE;

// Of string facts: variable ≈ variable, ≉, variable ≈ literal. The relation's number is the tag less TAG_SAME.
pub const TAG_SAME: usize = 3;

pub const TAG_NOT_SAME: usize = TAG_SAME + NOT_SAME;

pub const TAG_LITERAL: usize = TAG_SAME + IS_LITERAL;

// ---- rows in the work area

// Row k, as a middle part of the work area.
pub fn row_at(work: &[i64], k: usize) -> &[i64; ROW_LENGTH]
    requires { (k < fact_limit) × (row_length * k + row_length ≤ length work.now) }
    ensures { result.now ≡ row_at work.now k }
{
    &work.as_chunks::<ROW_LENGTH>().0[k]
}

// The tag that counts: any number that is no tag counts as that of ≠.
pub fn tag_of(row: &[i64; ROW_LENGTH]) -> usize
    ensures { result ≡ tag_of (fact_of row.now) }
{
    match usize::try_from(row[TAG]) {
        Ok(tag) if tag <= TAG_LITERAL => tag,
        _ => TAG_NE,
    }
}

// A number below the limit, and 0 for any other.
fn index_below(z: i64, limit: usize) -> usize
    ensures { result ≡ index_below limit z }
{
    match usize::try_from(z) {
        Ok(k) if k < limit => k,
        _ => 0,
    }
}

// The number of the variable in a string fact's row, at place FIRST or SECOND.
pub fn variable_at(row: &[i64; ROW_LENGTH], place: usize) -> usize
    requires { place < length row.now }
    ensures value { result ≡ index (get_or row.now place (pos 0)) }
    ensures upper_bound { result < variable_limit }
{
    index_below(row[place], VARIABLE_LIMIT)
}

// The number of the literal in the row of variable ≈ literal, at place SECOND.
pub fn literal_at(row: &[i64; ROW_LENGTH], place: usize) -> usize
    requires { place < length row.now }
    ensures value { result ≡ index (get_or row.now place (pos 0)) }
    ensures upper_bound { result < variable_limit }
{
    index_below(row[place], LITERAL_NUMBERS)
}

// ---- new rows, each in a stretch of 50 numbers with any contents

// A row becomes all zero.
pub fn clear_row(row: &mut [i64])
    requires { length row.old ≡ row_length }
    ensures { row.new ≡ zeros row_length }
{
    row.fill(0);
}

// A string fact by its relation's number.
fn fill_string(row: &mut [i64], relation: usize, a: usize, b: usize)
    requires row_len { length row.old ≡ row_length }
    requires relation_bound { (relation ≤ 2) × (a < variable_limit) × (b < variable_limit) }
    ensures { fact_of row.new ≡ string_fact relation a b }
{
    clear_row(row);
    row[TAG] = (relation + TAG_SAME) as i64;
    row[FIRST] = a as i64;
    row[SECOND] = b as i64;
}

// A constant and one coefficient related to 0 by the relation's number.
fn fill_single(row: &mut [i64], relation: usize, constant: i64, column: usize, coefficient: i64)
    requires row_len { length row.old ≡ row_length }
    requires relation_bound { (relation ≤ 2) × (column < column_limit) }
    ensures { fact_of row.new ≡ arithmetic (relation_of relation) (single constant column coefficient) }
{
    clear_row(row);
    row[TAG] = relation as i64;
    row[CONSTANT] = constant;
    row[column + COEFFICIENTS] = coefficient;
}

// The difference of two columns related to 0.
fn fill_difference(row: &mut [i64], relation: usize, i: usize, j: usize)
    requires row_len { length row.old ≡ row_length }
    requires relation_bound { (relation ≤ 2) × (i < column_limit) × (j < column_limit) }
    ensures { fact_of row.new ≡ arithmetic (relation_of relation) (difference i j) }
{
    clear_row(row);
    row[TAG] = relation as i64;
    row[i + COEFFICIENTS] = 1;
    row[j + COEFFICIENTS] = -1;
}

// ---- new facts, each in its own stretch of the work area

// A string fact after the first k facts.
pub fn put_string(work: &mut [i64], k: usize, relation: usize, a: usize, b: usize)
    requires k_lt_fact_limit { (k < fact_limit) × (work_numbers ≤ length work.old) }
    requires relation_bound { (relation ≤ 2) × (a < variable_limit) × (b < variable_limit) }
    ensures { Behind work.old k (string_fact relation a b) work.new }
{
    let from = ROW_LENGTH * k;
    let to = from + ROW_LENGTH;
    fill_string(&mut work[from..to], relation, a, b);
}

// A constant and one coefficient related to 0, after the first k facts.
pub fn put_single(
    work: &mut [i64],
    k: usize,
    relation: usize,
    constant: i64,
    column: usize,
    coefficient: i64,
)
    requires k_lt_fact_limit { (k < fact_limit) × (work_numbers ≤ length work.old) }
    requires relation_bound { (relation ≤ 2) × (column < column_limit) }
    ensures { Behind work.old k (arithmetic (relation_of relation) (single constant column coefficient)) work.new }
{
    let from = ROW_LENGTH * k;
    let to = from + ROW_LENGTH;
    fill_single(&mut work[from..to], relation, constant, column, coefficient);
}

// The difference of two columns related to 0, after the first k facts.
pub fn put_difference(work: &mut [i64], k: usize, relation: usize, i: usize, j: usize)
    requires k_lt_fact_limit { (k < fact_limit) × (work_numbers ≤ length work.old) }
    requires relation_bound { (relation ≤ 2) × (i < column_limit) × (j < column_limit) }
    ensures { Behind work.old k (arithmetic (relation_of relation) (difference i j)) work.new }
{
    let from = ROW_LENGTH * k;
    let to = from + ROW_LENGTH;
    fill_difference(&mut work[from..to], relation, i, j);
}

// ---- facts derived from an earlier fact, each written straight into its own stretch of the work area

// Row k becomes a copy of an earlier row.
fn copy_row(work: &mut [i64], k: usize, earlier: usize)
    requires { (earlier < k) × (k < fact_limit) × (work_numbers ≤ length work.old) }
    ensures row { row_at work.new k ≡ row_at work.old earlier }
    ensures before { take (row_length * k) work.new ≡ take (row_length * k) work.old }
{
    let from = ROW_LENGTH * earlier;
    work.copy_within(from..from + ROW_LENGTH, ROW_LENGTH * k);
}

// e = 0, of the earlier row of e, after the first k facts.
pub fn put_equation(work: &mut [i64], k: usize, earlier: usize)
    requires { (earlier < k) × (k < fact_limit) × (work_numbers ≤ length work.old) }
    ensures { Behind work.old k (arithmetic eq (drop 1 (row_at work.old earlier))) work.new }
{
    copy_row(work, k, earlier);
    work[ROW_LENGTH * k + TAG] = TAG_EQ as i64;
}

// Row k becomes −e after the tag of ≥, of the earlier row of e.
fn copy_negative(work: &mut [i64], k: usize, earlier: usize)
    requires earlier_lt_k { (earlier < k) × (k < fact_limit) × (work_numbers ≤ length work.old) }
    requires earlier_value { all_within number_limit (drop 1 (row_at work.old earlier)) ≡ true }
    ensures row { row_at work.new k ≡ pos 0 ∷ scale (negsuc 0) (drop 1 (row_at work.old earlier)) }
    ensures before { take (row_length * k) work.new ≡ take (row_length * k) work.old }
{
    let source = ROW_LENGTH * earlier;
    let target = ROW_LENGTH * k;
    work[target + TAG] = TAG_GE as i64;
    for j in CONSTANT..ROW_LENGTH {
        work[target + j] = -work[source + j];
    }
}

// e − 1 ≥ 0, of the earlier row of e, after the first k facts.
pub fn put_above(work: &mut [i64], k: usize, earlier: usize)
    requires earlier_lt_k { (earlier < k) × (k < fact_limit) × (work_numbers ≤ length work.old) }
    requires earlier_value { all_within number_limit (drop 1 (row_at work.old earlier)) ≡ true }
    ensures { Behind work.old k (arithmetic ge (above (drop 1 (row_at work.old earlier)))) work.new }
{
    let c = work[ROW_LENGTH * earlier + CONSTANT];
    copy_row(work, k, earlier);
    work[ROW_LENGTH * k + TAG] = TAG_GE as i64;
    work[ROW_LENGTH * k + CONSTANT] = c - 1;
}

// −e − 1 ≥ 0, of the earlier row of e, after the first k facts.
pub fn put_below(work: &mut [i64], k: usize, earlier: usize)
    requires earlier_lt_k { (earlier < k) × (k < fact_limit) × (work_numbers ≤ length work.old) }
    requires earlier_value { all_within number_limit (drop 1 (row_at work.old earlier)) ≡ true }
    ensures { Behind work.old k (arithmetic ge (below (drop 1 (row_at work.old earlier)))) work.new }
{
    let c = work[ROW_LENGTH * earlier + CONSTANT];
    copy_negative(work, k, earlier);
    work[ROW_LENGTH * k + CONSTANT] = -1 - c;
}

// ---- the limit

// Is a number within ±1,000,000,000?
pub fn in_limit(x: i64) -> bool
    ensures { result ≡ within number_limit x }
{
    (NUMBER_MIN..=NUMBER_MAX).contains(&x)
}

// Is every number after the tag within the limit?
fn form_within(row: &[i64; ROW_LENGTH]) -> bool
    ensures { result ≡ all_within number_limit (drop 1 row.now) }
{
    row[CONSTANT..].iter().all(|x| in_limit(*x))
}

// Is every number of the fact within the limit?
pub fn fact_within(row: &[i64; ROW_LENGTH]) -> bool
    ensures { result ≡ fact_within (fact_of row.now) }
{
    tag_of(row) > TAG_NE || form_within(row)
}

// A row becomes another one where no number after its tag passes the limit. Does none?
fn fill_within(out: &mut [i64], row: &[i64; ROW_LENGTH]) -> bool
    requires { length out.old ≡ row_length }
    ensures value { result ≡ all_within number_limit (drop 1 row.now) }
    ensures out_after { result ≡ true → out.new ≡ row.now }
{
    let within = form_within(row);
    if within {
        out.copy_from_slice(row);
    }
    within
}

// The given row of an arithmetic fact, after the first k facts, where all its numbers are within the limit. Are they?
pub fn put_within(work: &mut [i64], k: usize, row: &[i64; ROW_LENGTH]) -> bool
    requires { (k < fact_limit) × (work_numbers ≤ length work.old) × (tag_of (fact_of row.now) ≤ 2) }
    ensures value { result ≡ fact_within (fact_of row.now) }
    ensures behind { result ≡ true → Behind work.old k (fact_of row.now) work.new }
{
    let from = ROW_LENGTH * k;
    let to = from + ROW_LENGTH;
    fill_within(&mut work[from..to], row)
}

// ---- tests

// Has the form no coefficient?
fn constant(row: &[i64; ROW_LENGTH]) -> bool
    ensures { result ≡ all_zero (drop 2 row.now) }
{
    row[COEFFICIENTS..].iter().all(|x| *x == 0)
}

// Does a value stand in the relation to 0, any other number being ≠?
pub fn relation_holds(relation: usize, value: i64) -> bool
    ensures { result ≡ holds (relation_of relation) value }
{
    match relation {
        GE => value >= 0,
        EQ => value == 0,
        _ => value != 0,
    }
}

// A-Conf: an arithmetic fact without coefficients and false.
pub fn is_false(row: &[i64; ROW_LENGTH]) -> bool
    ensures { result ≡ is_false (fact_of row.now) }
{
    let tag = tag_of(row);
    tag <= TAG_NE && !relation_holds(tag, row[CONSTANT]) && constant(row)
}

// Is the second form the negative of the first?
fn negates(row: &[i64; ROW_LENGTH], other: &[i64; ROW_LENGTH]) -> bool
    requires { all_within number_limit (drop 1 row.now) ≡ true }
    ensures { result ≡ eq_integers (scale (negsuc 0) (drop 1 row.now)) (drop 1 other.now) }
{
    // A `for`: in an `all` the check does not know that x is a number of the row, so that −x fits.
    for (x, y) in row[CONSTANT..].iter().zip(&other[CONSTANT..]) {
        if -*x != *y {
            return false;
        }
    }
    true
}

// Is a fact one that Join takes: ≥, or an equation? These have the two lowest tags.
fn joinable(row: &[i64; ROW_LENGTH]) -> bool
    ensures { result ≡ fits (join_form (fact_of row.now)) }
{
    tag_of(row) <= TAG_EQ
}

// Join: "one the negative of the other", and it "takes equations as well as ≥ facts".
pub fn joins(row: &[i64; ROW_LENGTH], other: &[i64; ROW_LENGTH]) -> bool
    requires { fact_within (fact_of row.now) ≡ true }
    ensures { result ≡ fits (join_of (fact_of row.now) (fact_of other.now)) }
{
    joinable(row) && joinable(other) && negates(row, other)
}

// Are two rows the same from a place on, number by number?
pub fn same_from(row: &[i64; ROW_LENGTH], other: &[i64; ROW_LENGTH], from: usize) -> bool
    requires { from ≤ row_length }
    ensures { result ≡ eq_integers (drop from row.now) (drop from other.now) }
{
    row[from..] == other[from..]
}

// Are two rows the same? The coefficient of a column is looked at first, where rows that differ mostly do.
fn same_by(row: &[i64; ROW_LENGTH], other: &[i64; ROW_LENGTH], column: usize) -> bool
    requires { column < column_limit }
    ensures { result ≡ eq_integers row.now other.now }
{
    row[column + COEFFICIENTS] == other[column + COEFFICIENTS] && row == other
}

// Is a row one of two, which mostly differ from it in a column?
fn one_of(
    row: &[i64; ROW_LENGTH],
    one: &[i64; ROW_LENGTH],
    other: &[i64; ROW_LENGTH],
    column: usize,
) -> bool
    requires { column < column_limit }
    ensures { result ≡ (eq_integers one.now row.now || eq_integers other.now row.now) }
{
    same_by(one, row, column) || same_by(other, row, column)
}

// The lowest fact that states that the difference of two columns is 0, in either order.
pub fn lowest_difference(work: &[i64], count: usize, i: usize, j: usize) -> Option<usize>
    requires count_le_fact_limit { (count ≤ fact_limit) × (work_numbers ≤ length work.now) }
    requires i_lt_column_limit { (i < column_limit) × (j < column_limit) × (i ≢ j) }
    ensures { number_in result ≡ lowest_difference (branch_of work.now count) i j }
{
    let mut one = [0i64; ROW_LENGTH];
    fill_difference(&mut one, EQ, i, j);
    let mut other = [0i64; ROW_LENGTH];
    fill_difference(&mut other, EQ, j, i);
    (0..count).find(|k| one_of(row_at(work, *k), &one, &other, i))
}

// Does a fact state that the difference of two columns is 0, in either order?
pub fn states_equal(work: &[i64], count: usize, i: usize, j: usize) -> bool
    requires count_le_fact_limit { (count ≤ fact_limit) × (work_numbers ≤ length work.now) }
    requires i_lt_column_limit { (i < column_limit) × (j < column_limit) × (i ≢ j) }
    ensures { result ≡ states_equal (branch_of work.now count) i j }
{
    lowest_difference(work, count, i, j).is_some()
}

// ---- values

// The form's value where the columns have the model's values.
fn row_value(row: &[i64; ROW_LENGTH], model: &[i64]) -> i64
    requires model_len { length model.now ≡ column_limit }
    requires row_value { all_within number_limit (drop 1 row.now) ≡ true }
    requires within { Within value_limit model.now }
    ensures { result ≡ value_in model.now (drop 1 row.now) }
{
    let mut sum = row[CONSTANT];
    for (c, x) in row[COEFFICIENTS..].iter().zip(model) {
        sum += c * x;
    }
    sum
}

// Does the fact hold by the model's values?
fn keeps_row(row: &[i64; ROW_LENGTH], model: &[i64]) -> bool
    requires model_len { length model.now ≡ column_limit }
    requires row_value { fact_within (fact_of row.now) ≡ true }
    requires within { Within value_limit model.now }
    ensures { result ≡ keeps_fact model.now (fact_of row.now) }
{
    let tag = tag_of(row);
    tag > TAG_NE || relation_holds(tag, row_value(row, model))
}

// Does the model meet every arithmetic fact?
pub fn keeps_facts(work: &[i64], count: usize, model: &[i64]) -> bool
    requires fine { Fine work.now count }
    requires model_len { (length model.now ≡ column_limit) × Within value_limit model.now }
    ensures { result ≡ keeps model.now (branch_of work.now count) }
{
    (0..count).all(|k| keeps_row(row_at(work, k), model))
}
