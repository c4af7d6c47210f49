// The rows of facts that are written in the ticket: constraints of the question, and the form of a Branch.
#![tactic(auto)]

ghost use Rattle.std.specs.Prelude.{◌≡◌, true, ◌∷◌, ◌+◌, ◌*◌, ◌≤◌, ◌<◌, length, pos, nat_abs};
ghost use Rattle.calculus.specs.Limits.{variable_limit, literal_limit, column_limit, fact_limit, work_numbers};
ghost use Rattle.calculus.specs.LinearForms.{zeros, scale, below};
ghost use Rattle.calculus.specs.Facts.{arithmetic, ge};
ghost use Rattle.format.specs.Fields.{pairs_at};
ghost use Rattle.format.specs.Question.{rising, relation_of, fill_coefficients, form_of, fact_fault, body_fact};
ghost use Rattle.rows.specs.Rows.{row_length, fact_of, branch_of, Behind};
ghost use Rattle.rows.specs.Work.{Fine};
ghost use Rattle.question.specs.Posed.{asked, Posed};

use encoding::{KIND_ARITHMETIC, KIND_STRING, RECORD_HEAD};
use limits::ROW_LENGTH;
use question::Progress;
use records::fields_at;
use rows::{COEFFICIENTS, CONSTANT, TAG, TAG_GE};

// A tag, a constant and the coefficients of the pairs at a position, each times a sign. It fills a row's stretch with any contents.
fn fill_signed(
    row: &mut [i64],
    b: &[u8],
    tag: usize,
    constant: i64,
    sign: i64,
    at: usize,
    pairs: usize,
)
    requires row_len { length row.old ≡ row_length }
    requires tag_bound { (tag ≤ 2) × (nat_abs sign ≤ 1) × (at + 6 * pairs ≤ length b.now) }
    requires pairs_value { rising column_limit 0 (pairs_at b.now at pairs) ≡ true }
    ensures { row.new ≡ pos tag ∷ constant ∷ scale sign (fill_coefficients (zeros column_limit) (pairs_at b.now at pairs)) }
{
    rows::clear_row(row);
    row[TAG] = tag as i64;
    row[CONSTANT] = constant;
    for (column, coefficient) in fields_at::<(u16, i32)>(b, at, pairs) {
        row[usize::from(column) + COEFFICIENTS] = sign * i64::from(coefficient);
    }
}

// A form e at a position, the constant and then pairs, related to 0: relation 0 is ≥, 1 is =, 2 is ≠. It fills a row's stretch with any contents.
pub fn fill_form(row: &mut [i64], b: &[u8], relation: usize, at: usize, pairs: usize)
    requires row_len { length row.old ≡ row_length }
    requires relation_bound { (relation ≤ 2) × (at + 4 + 6 * pairs ≤ length b.now) }
    requires pairs_value { rising column_limit 0 (pairs_at b.now (at + 4) pairs) ≡ true }
    ensures { fact_of row.new ≡ arithmetic (relation_of relation) (form_of b.now at pairs) }
{
    let constant = records::i32_at(b, at);
    fill_signed(row, b, relation, constant, 1, at + 4, pairs);
}

// −e − 1 ≥ 0, of the form e at a position. It fills a row's stretch with any contents.
pub fn fill_below(row: &mut [i64], b: &[u8], at: usize, pairs: usize)
    requires row_len { length row.old ≡ row_length }
    requires pairs_in_bounds { at + 4 + 6 * pairs ≤ length b.now }
    requires pairs_value { rising column_limit 0 (pairs_at b.now (at + 4) pairs) ≡ true }
    ensures { fact_of row.new ≡ arithmetic ge (below (form_of b.now at pairs)) }
{
    let constant = records::i32_at(b, at);
    fill_signed(row, b, TAG_GE, -1 - constant, -1, at + 4, pairs);
}

// A form related to 0, after the first k facts.
fn put_form(work: &mut [i64], k: usize, b: &[u8], relation: usize, at: usize, pairs: usize)
    requires k_lt_fact_limit { (k < fact_limit) × (work_numbers ≤ length work.old) }
    requires relation_bound { (relation ≤ 2) × (at + 4 + 6 * pairs ≤ length b.now) }
    requires pairs_value { rising column_limit 0 (pairs_at b.now (at + 4) pairs) ≡ true }
    ensures { Behind work.old k (arithmetic (relation_of relation) (form_of b.now at pairs)) work.new }
{
    let from = ROW_LENGTH * k;
    let to = from + ROW_LENGTH;
    fill_form(&mut work[from..to], b, relation, at, pairs);
}

// The constraint of a record, by its kind and body, after the first k facts. A kind that is no constraint's does not come here.
fn put_constraint(work: &mut [i64], k: usize, b: &[u8], kind: usize, at: usize, size: usize)
    requires k_lt_fact_limit { (k < fact_limit) × (work_numbers ≤ length work.old) }
    requires size_in_bounds { (at + size ≤ length b.now) × (fact_fault b.now variable_limit literal_limit column_limit kind at size ≡ 0) }
    ensures { Behind work.old k (body_fact b.now kind at size) work.new }
{
    let relation = records::u16_at(b, at);
    match kind {
        KIND_STRING => {
            let x = records::u16_at(b, at + 2);
            let y = records::u16_at(b, at + 4);
            rows::put_string(work, k, relation, x, y);
        }
        KIND_ARITHMETIC => put_form(work, k, b, relation, at + 2, size / 6 - 1),
        _ => {}
    }
}

// "Its constraints are facts 0, 1 and on": each goes into its row, in the order of the records.
pub fn load(ticket: &[u8], s: Progress, work: &mut [i64])
    requires { Posed ticket.now s × (work_numbers ≤ length work.old) }
    ensures loaded { branch_of work.new s.constraints ≡ (asked ticket.now s).constraints }
    ensures fine { Fine work.new s.constraints }
{
    let mut at = question::behind_literals(ticket, s.literals);
    for k in 0..s.constraints {
        let size = records::u32_at(ticket, at);
        let kind = records::u16_at(ticket, at + 4);
        put_constraint(work, k, ticket, kind, at + RECORD_HEAD, size);
        at += RECORD_HEAD + size;
    }
}
