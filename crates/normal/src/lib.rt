// The normal form of a fact, in its row: of x ≈ y and x ≉ y the lower variable stands first, and an arithmetic one "is first divided by the greatest common
// divisor of its coefficients and constant, if that is not 0. For = and ≠ the sign is then turned" (02, L6).
#![tactic(auto)]

ghost use Rattle.std.specs.Prelude.{◌≡◌, true, ◌∷◌, map, ◌≤◌, length, get_or, drop, pos, negsuc, nat_abs, ◌≤ℤ◌};
ghost use Rattle.calculus.specs.Limits.{number_limit};
ghost use Rattle.calculus.specs.LinearForms.{scale, floor_div_all};
ghost use Rattle.calculus.specs.NormalForms as forms;
ghost use Rattle.calculus.specs.NormalForms.{divisor_of, reduced, with_positive_lead, normal};
ghost use Rattle.format.specs.Fields.{within, all_within};
ghost use Rattle.format.specs.Checking.{fact_within};
ghost use Rattle.rows.specs.Rows.{row_length, fact_of, branch_of};
ghost use Rattle.rows.specs.Work.{tag_of, Fine};

use limits::ROW_LENGTH;
use rows::{
    COEFFICIENTS, CONSTANT, FIRST, SECOND, TAG_GE, TAG_LITERAL, TAG_NE, row_at, tag_of, variable_at,
};
use sums::floor_div;

// ---- the divisor

// Euclid: the greatest common divisor, 0 where both are 0.
fn gcd(a: usize, b: usize) -> usize
    ensures { result ≡ forms.gcd a b }
{
    let mut m = a;
    let mut n = b;
    while 0 < n {
        (m, n) = (n, m % n);
    }
    m
}

// The greatest common divisor of a form's numbers, from the last one to the constant.
fn divisor(row: &[i64]) -> usize
    requires { (length row.now ≡ row_length) × (all_within number_limit (drop 1 row.now) ≡ true) }
    ensures { (result ≡ divisor_of (drop 1 row.now)) × (result ≤ number_limit) }
{
    let form = &row[CONSTANT..];
    form.iter()
        .rev()
        .fold(0, |d, x| gcd(x.unsigned_abs() as usize, d))
}

// ---- arithmetic facts

// Each number of a form divided in place.
fn divide_form(row: &mut [i64], d: i64)
    requires { (pos 1 ≤ℤ d) × (length row.old ≡ row_length) }
    ensures { row.new ≡ get_or row.old 0 (pos 0) ∷ floor_div_all (drop 1 row.old) (nat_abs d) }
{
    for x in row[CONSTANT..].iter_mut() {
        *x = floor_div(*x, d);
    }
}

// A form divided by its divisor. By 0 it is not divided, and by 1 it is as it stands.
fn reduce(row: &mut [i64])
    requires { (length row.old ≡ row_length) × (all_within number_limit (drop 1 row.old) ≡ true) }
    ensures { row.new ≡ get_or row.old 0 (pos 0) ∷ reduced (drop 1 row.old) }
{
    let d = divisor(row);
    if 1 < d {
        divide_form(row, d as i64);
    }
}

// The first coefficient, or the constant where there is none.
fn leading(row: &[i64]) -> i64
    requires { length row.now ≡ row_length }
    ensures { result ≡ forms.leading (drop 1 row.now) }
{
    row[COEFFICIENTS..]
        .iter()
        .copied()
        .find(|x| *x != 0)
        .unwrap_or(row[CONSTANT])
}

// The negative of a form, in place.
fn negate_form(row: &mut [i64])
    requires { (length row.old ≡ row_length) × (all_within number_limit (drop 1 row.old) ≡ true) }
    ensures { row.new ≡ get_or row.old 0 (pos 0) ∷ scale (negsuc 0) (drop 1 row.old) }
{
    for x in row[CONSTANT..].iter_mut() {
        *x = -*x;
    }
}

// The sign is turned where the leading number is negative.
fn turn(row: &mut [i64])
    requires { (length row.old ≡ row_length) × (all_within number_limit (drop 1 row.old) ≡ true) }
    ensures { row.new ≡ get_or row.old 0 (pos 0) ∷ with_positive_lead (drop 1 row.old) }
{
    if leading(row) < 0 {
        negate_form(row);
    }
}

// The normal form of an arithmetic fact: ≥ is not turned.
fn normalise_form(row: &mut [i64], tag: usize)
    requires { (length row.old ≡ row_length) × (tag ≡ tag_of (fact_of row.old)) × (tag ≤ 2) × (fact_within (fact_of row.old) ≡ true) }
    ensures { fact_of row.new ≡ normal (fact_of row.old) }
{
    reduce(row);
    if tag != TAG_GE {
        turn(row);
    }
}

// ---- string facts

// The normal form of variable ≈ variable, or of ≉: the lower one first.
fn order_operands(row: &mut [i64], tag: usize)
    requires { (length row.old ≡ row_length) × (tag ≡ tag_of (fact_of row.old)) × (3 ≤ tag) × (tag ≤ 4) }
    ensures { fact_of row.new ≡ normal (fact_of row.old) }
{
    let x = variable_at(row_at(row, 0), FIRST);
    let y = variable_at(row_at(row, 0), SECOND);
    if y < x {
        row[FIRST] = y as i64;
        row[SECOND] = x as i64;
    }
}

// ---- all facts

// The normal form of a fact, in its row.
fn normalise_row(row: &mut [i64])
    requires { (length row.old ≡ row_length) × (fact_within (fact_of row.old) ≡ true) }
    ensures { fact_of row.new ≡ normal (fact_of row.old) }
{
    // The slice is a work area of one row.
    let tag = tag_of(row_at(row, 0));
    if tag <= TAG_NE {
        normalise_form(row, tag);
    } else if tag < TAG_LITERAL {
        order_operands(row, tag);
    }
}

// The normal forms of the first count facts, each in its row.
pub fn normalise(work: &mut [i64], count: usize)
    requires { Fine work.old count }
    ensures { branch_of work.new count ≡ map normal (branch_of work.old count) }
{
    for k in 0..count {
        let from = ROW_LENGTH * k;
        normalise_row(&mut work[from..from + ROW_LENGTH]);
    }
}
