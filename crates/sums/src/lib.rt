// Rule 1, Sum: the facts named, each times its multiplier, added up and divided: a ≥ fact, or an equation.
#![tactic(auto)]

ghost use Rattle.std.specs.Prelude.{◌≡◌, true, ◌+◌, ◌*◌, ◌≤◌, length, get_or, drop, pos, nat_abs, ◌≤ℤ◌};
ghost use Rattle.calculus.specs.Limits.{number_limit, summand_limit};
ghost use Rattle.integers.specs.Division.{floor_div};
ghost use Rattle.calculus.specs.LinearForms.{zeros};
ghost use Rattle.calculus.specs.Rules.{summand, sum_of, divided, all_equations, divides_exactly};
ghost use Rattle.format.specs.Fields.{pairs_at, all_within};
ghost use Rattle.format.specs.StepForms.{multipliers_within};
ghost use Rattle.format.specs.Checking.{fits};
ghost use Rattle.rows.specs.Rows.{row_length, fact_of, branch_of};
ghost use Rattle.rows.specs.Work.{Within, Fine};
ghost use Rattle.sums.specs.Sums.{added, ge_row, row_in, fact_in, sum_tag, sum_fact};

use limits::ROW_LENGTH;
use rows::{COEFFICIENTS, CONSTANT, TAG, TAG_EQ, TAG_GE};

// Does a fact take the multiplier: at least 1 on a ≥ fact, nonzero on an equation?
fn takes(row: &[i64; ROW_LENGTH], multiplier: i64) -> bool
    ensures { result ≡ fits (summand multiplier (fact_of row.now)) }
{
    match rows::tag_of(row) {
        TAG_GE => multiplier > 0,
        TAG_EQ => multiplier != 0,
        _ => false,
    }
}

// A row times a multiplier is added to the sum.
fn add_multiple(sum: &mut [i64; ROW_LENGTH], row: &[i64; ROW_LENGTH], multiplier: i64)
    requires row_value { all_within number_limit (drop 1 row.now) ≡ true }
    requires multiplier_bound { nat_abs multiplier ≤ number_limit }
    requires within { Within 7000000000000000000 sum.old }
    ensures { sum.new ≡ added sum.old multiplier row.now }
{
    for j in CONSTANT..ROW_LENGTH {
        sum[j] += multiplier * row[j];
    }
}

// The sum of the pairs (fact, multiplier), added to a row of zeros, and whether they fit.
fn sum_of(
    sum: &mut [i64; ROW_LENGTH],
    b: &[u8],
    at: usize,
    pairs: usize,
    work: &[i64],
    count: usize,
) -> bool
    requires sum_value { sum.old ≡ zeros row_length }
    requires le_pairs { (1 ≤ pairs) × (pairs ≤ summand_limit) × (at + 6 * pairs ≤ length b.now) }
    requires pairs_value { multipliers_within (pairs_at b.now at pairs) ≡ true }
    requires fine { Fine work.now count }
    ensures { row_in result sum.new ≡ ge_row (sum_of (branch_of work.now count) (pairs_at b.now at pairs)) }
{
    for i in 0..pairs {
        let place = at + 6 * i;
        let fact = records::u16_at(b, place);
        let multiplier = records::i32_at(b, place + 2);
        if fact >= count {
            return false;
        }
        let row = rows::row_at(work, fact);
        if !takes(row, multiplier) {
            return false;
        }
        add_multiple(sum, row, multiplier);
    }
    true
}

// Division rounding down.
pub fn floor_div(c: i64, d: i64) -> i64
    requires { pos 1 ≤ℤ d }
    ensures { result ≡ floor_div c (nat_abs d) }
{
    c.div_euclid(d)
}

// A sum divided in place, columns exactly and the constant rounding down, and whether they divide.
fn divide(row: &mut [i64; ROW_LENGTH], d: i64) -> bool
    requires { (pos 1 ≤ℤ d) × (get_or row.old 0 (pos 0) ≡ pos 0) }
    ensures { row_in result row.new ≡ ge_row (divided (nat_abs d) (drop 1 row.old)) }
{
    for j in COEFFICIENTS..ROW_LENGTH {
        let x = row[j];
        let q = x / d;
        if q * d != x {
            return false;
        }
        row[j] = q;
    }
    row[CONSTANT] = floor_div(row[CONSTANT], d);
    true
}

// A sum divided in place. By 1 it is as it stands: the machine's divisions are saved.
fn divide_by(row: &mut [i64; ROW_LENGTH], d: i64) -> bool
    requires { (pos 1 ≤ℤ d) × (get_or row.old 0 (pos 0) ≡ pos 0) }
    ensures { row_in result row.new ≡ ge_row (divided (nat_abs d) (drop 1 row.old)) }
{
    d == 1 || divide(row, d)
}

// Is every fact that a Sum names an equation?
fn all_equations(b: &[u8], at: usize, pairs: usize, work: &[i64], count: usize) -> bool
    requires pairs_in_bounds { at + 6 * pairs ≤ length b.now }
    requires fine { Fine work.now count }
    ensures { result ≡ all_equations (branch_of work.now count) (pairs_at b.now at pairs) }
{
    for k in 0..pairs {
        let fact = records::u16_at(b, at + 6 * k);
        if count <= fact {
            return false;
        }
        let tag = rows::tag_of(rows::row_at(work, fact));
        if tag != TAG_EQ {
            return false;
        }
    }
    true
}

// Does the constant divide exactly too, in a sum that is not yet divided? By 1 it always does.
fn divides_exactly(row: &[i64; ROW_LENGTH], d: i64) -> bool
    requires { pos 1 ≤ℤ d }
    ensures { result ≡ divides_exactly (nat_abs d) (drop 1 row.now) }
{
    if d == 1 {
        return true;
    }
    let c = row[CONSTANT];
    let q = c / d;
    q * d == c
}

// The tag of the fact that a Sum adds, from the sum that is not yet divided.
fn sum_tag(
    row: &[i64; ROW_LENGTH],
    b: &[u8],
    at: usize,
    pairs: usize,
    d: i64,
    work: &[i64],
    count: usize,
) -> i64
    requires pos_bound { pos 1 ≤ℤ d }
    requires pairs_in_bounds { at + 6 * pairs ≤ length b.now }
    requires fine { Fine work.now count }
    ensures { result ≡ sum_tag (branch_of work.now count) (nat_abs d) (pairs_at b.now at pairs) (drop 1 row.now) }
{
    if all_equations(b, at, pairs, work, count) && divides_exactly(row, d) {
        TAG_EQ as i64
    } else {
        TAG_GE as i64
    }
}

// The row of the fact that a Sum adds, in a row of zeros, and whether the step fits.
pub fn sum_row(
    row: &mut [i64; ROW_LENGTH],
    b: &[u8],
    at: usize,
    pairs: usize,
    divisor: usize,
    work: &[i64],
    count: usize,
) -> bool
    requires row_value { row.old ≡ zeros row_length }
    requires le_pairs { (1 ≤ pairs) × (pairs ≤ summand_limit) × (at + 6 * pairs ≤ length b.now) }
    requires le_divisor { (1 ≤ divisor) × (divisor ≤ 2147483647) }
    requires pairs_value { multipliers_within (pairs_at b.now at pairs) ≡ true }
    requires fine { Fine work.now count }
    ensures { fact_in result row.new ≡ sum_fact (branch_of work.now count) divisor (pairs_at b.now at pairs) }
{
    if !sum_of(row, b, at, pairs, work, count) {
        return false;
    }
    let d = divisor as i64;
    let tag = sum_tag(row, b, at, pairs, d, work, count);
    if !divide_by(row, d) {
        return false;
    }
    row[TAG] = tag;
    true
}
