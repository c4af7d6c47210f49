// The rules with several conclusions, Branch, Apart, L-Valid, C-Valid, C-Inj and Card: whether a step fits, and its children.
#![tactic(auto)]

ghost use Rattle.std.specs.Prelude.{◌≡◌, ◌≢◌, true, [], ◌∷◌, ◌++◌, ◌+◌, ◌*◌, ◌≤◌, ◌<◌, length};
ghost use Rattle.std.proofs.Math.ListN.{get_elem?};
ghost use Rattle.calculus.specs.Limits.{alphabet_limit, variable_limit, column_limit, fact_limit, work_numbers};
ghost use Rattle.calculus.specs.Children.{child_at, branch_children, l_valid_children, c_valid_children, c_inj_children};
ghost use Rattle.calculus.specs.Rules.{then, apart_of, among, distinct, last_child, card_children};
ghost use Rattle.format.specs.Fields.{u16s};
ghost use Rattle.format.specs.Question.{form_range, form_of};
ghost use Rattle.format.specs.StepForms.{are_variables};
ghost use Rattle.format.specs.Checking.{fits as fitting, or_none, fact_within, facts_within, children_within};
ghost use Rattle.rows.specs.Rows.{row_length, fact_of, row_at, branch_of};
ghost use Rattle.rows.specs.Work.{Fine, tag_of};
ghost use Rattle.question.specs.Posed.{numbered};
ghost use Rattle.steps.specs.Rules.{rule_named, one_each};
ghost use Rattle.steps.specs.declared.Conclusions.TheVariants.{Several};
ghost use Rattle.steps.specs.Offered.{offered_on, child_of, with_child, child_fault};
ghost use Rattle.steps.specs.Ready.{ReadyBy};
ghost use Rattle.splits.specs.Children.{apart_at, lengths_agree, card_at, extended, codeless, coded};

use encoding::{CODE, EQ, GE, IS_LITERAL, LEN, NE, SAME};
use limits::ROW_LENGTH;
use question::{Progress, column_of};
use records::{fields_at, u16_at};
use rows::{CONSTANT, TAG_NE};
use steps::{OPERANDS, Rule, Step};

// ---- whether a step fits

// Apart: a fact e ≠ 0 of the branch.
fn parts(work: &[i64], count: usize, fact: usize) -> bool
    requires { (count ≤ fact_limit) × (work_numbers ≤ length work.now) }
    ensures { result ≡ fitting (then (get_elem? (branch_of work.now count) fact) apart_of) }
{
    fact < count && rows::tag_of(rows::row_at(work, fact)) == TAG_NE
}

// Is x among the count variables from a position?
fn occurs(b: &[u8], x: usize, at: usize, count: usize) -> bool
    requires { at + 2 * count ≤ length b.now }
    ensures { result ≡ among x (u16s b.now at count) }
{
    fields_at(b, at, count).any(|y: u16| x == usize::from(y))
}

// Are the count variables from a position different? A chain over the fields would not know what stands after each of them.
fn all_differ(b: &[u8], at: usize, count: usize) -> bool
    requires { at + 2 * count ≤ length b.now }
    ensures { result ≡ distinct (u16s b.now at count) }
{
    for k in 0..count {
        let place = at + 2 * k;
        if occurs(b, u16_at(b, place), place + 2, count - k - 1) {
            return false;
        }
    }
    true
}

// Card: "for each neighbouring pair a fact states their lengths' difference = 0", of the variable at a position and the others after it.
// That the two of a pair differ and are below p is known in a loop, and not in a closure.
fn lengths_agree(
    b: &[u8],
    s: Progress,
    at: usize,
    others: usize,
    work: &[i64],
    count: usize,
) -> bool
    requires others_in_bounds { (at + 2 + 2 * others ≤ length b.now) × (s.p ≤ variable_limit) × (s.q ≤ variable_limit) }
    requires others_value { (distinct (u16s b.now at (others + 1)) ≡ true) × (are_variables s.p (u16s b.now at (others + 1)) ≡ true) }
    requires count_le_fact_limit { (count ≤ fact_limit) × (work_numbers ≤ length work.now) }
    ensures { result ≡ lengths_agree b.now s at others work.now count }
{
    for k in 0..others {
        let place = at + 2 * k;
        let first = column_of(s.p, s.q, LEN, u16_at(b, place));
        let second = column_of(s.p, s.q, LEN, u16_at(b, place + 2));
        if !rows::states_equal(work, count, first, second) {
            return false;
        }
    }
    true
}

// Card fits on the m variables from a position.
fn card_fits(b: &[u8], s: Progress, at: usize, m: usize, work: &[i64], count: usize) -> bool
    requires le_m { (2 ≤ m) × (at + 2 * m ≤ length b.now) × (s.p ≤ variable_limit) × (s.q ≤ variable_limit) }
    requires m_value { are_variables s.p (u16s b.now at m) ≡ true }
    requires count_le_fact_limit { (count ≤ fact_limit) × (work_numbers ≤ length work.now) }
    ensures { result ≡ fitting (card_children (numbered s) (branch_of work.now count) (u16s b.now at m)) }
{
    all_differ(b, at, m) && lengths_agree(b, s, at, m - 1, work, count)
}

// Whether a step fits.
pub fn fits(ticket: &[u8], s: Progress, step: Step, work: &[i64], count: usize) -> bool
    requires { ReadyBy step.rule Several ticket.now s step.body step.size work.now count }
    ensures { result ≡ fitting (offered_on ticket.now s step.body step.size work.now count) }
{
    match step.rule {
        Rule::Branch | Rule::LValid | Rule::CValid => true,
        Rule::Apart => parts(work, count, u16_at(ticket, step.body + OPERANDS)),
        Rule::CInj => u16_at(ticket, step.body + OPERANDS) != u16_at(ticket, step.body + 6),
        Rule::Card => card_fits(
            ticket,
            s,
            step.body + OPERANDS,
            (step.size - OPERANDS) / 2,
            work,
            count,
        ),
        Rule::Sum | Rule::SProp | Rule::LIntro | Rule::CCollapse | Rule::Join => false,
        Rule::AConf | Rule::SConf | Rule::Unknown => false,
    }
}

// ---- children with one fact, after the first count facts

// Branch: "Children e ≥ 0; −e−1 ≥ 0", of the form at a position, in a row's stretch with any contents.
fn fill_branch(row: &mut [i64], b: &[u8], at: usize, pairs: usize, k: usize)
    requires row_len { (length row.old ≡ row_length) × (at + 4 + 6 * pairs ≤ length b.now) × (1 ≤ k) × (k ≤ 2) }
    requires pairs_value { form_range b.now column_limit at pairs ≡ true }
    ensures { fact_of row.new ∷ [] ≡ or_none (child_at (branch_children (form_of b.now at pairs)) k) }
{
    if k == 1 {
        constraints::fill_form(row, b, GE, at, pairs);
    } else {
        constraints::fill_below(row, b, at, pairs);
    }
}

fn put_branch(work: &mut [i64], count: usize, b: &[u8], at: usize, pairs: usize, k: usize)
    requires count_lt_fact_limit { (count < fact_limit) × (work_numbers ≤ length work.old) × (at + 4 + 6 * pairs ≤ length b.now) × (1 ≤ k) × (k ≤ 2) }
    requires pairs_value { form_range b.now column_limit at pairs ≡ true }
    ensures { branch_of work.new (count + 1) ≡ extended work.old count (branch_children (form_of b.now at pairs)) k }
{
    let from = ROW_LENGTH * count;
    let to = from + ROW_LENGTH;
    fill_branch(&mut work[from..to], b, at, pairs, k);
}

// Apart: "Children e−1 ≥ 0; −e−1 ≥ 0", of a fact of the branch.
fn put_apart(work: &mut [i64], count: usize, fact: usize, k: usize)
    requires fact_lt_count { (fact < count) × (count < fact_limit) × (work_numbers ≤ length work.old) × (1 ≤ k) × (k ≤ 2) }
    requires fact_value { (tag_of (fact_of (row_at work.old fact)) ≡ 2) × (fact_within (fact_of (row_at work.old fact)) ≡ true) }
    ensures { branch_of work.new (count + 1) ≡ extended work.old count (apart_at work.old fact) k }
{
    if k == 1 {
        rows::put_above(work, count, fact);
    } else {
        rows::put_below(work, count, fact);
    }
}

// L-Valid: "Children x ≈ literal 0; len(x) − 1 ≥ 0".
fn put_l_valid(work: &mut [i64], count: usize, s: Progress, x: usize, k: usize)
    requires count_lt_fact_limit { (count < fact_limit) × (work_numbers ≤ length work.old) }
    requires x_lt_variable_limit { (x < variable_limit) × (s.p ≤ variable_limit) × (s.q ≤ variable_limit) × (1 ≤ k) × (k ≤ 2) }
    ensures { branch_of work.new (count + 1) ≡ extended work.old count (l_valid_children (numbered s) x) k }
{
    if k == 1 {
        rows::put_string(work, count, IS_LITERAL, x, 0);
    } else {
        rows::put_single(work, count, GE, -1, column_of(s.p, s.q, LEN, x), 1);
    }
}

// C-Inj: "Children code(x) = −1; code(x) − code(y) ≠ 0; x ≈ y".
fn put_c_inj(work: &mut [i64], count: usize, s: Progress, x: usize, y: usize, k: usize)
    requires count_lt_fact_limit { (count < fact_limit) × (work_numbers ≤ length work.old) }
    requires x_lt_variable_limit { (x < variable_limit) × (y < variable_limit) × (x ≢ y) × (s.p ≤ variable_limit) × (s.q ≤ variable_limit) × (1 ≤ k) × (k ≤ 3) }
    ensures { branch_of work.new (count + 1) ≡ extended work.old count (c_inj_children (numbered s) x y) k }
{
    let first = column_of(s.p, s.q, CODE, x);
    match k {
        1 => rows::put_single(work, count, EQ, 1, first, 1),
        2 => rows::put_difference(work, count, NE, first, column_of(s.p, s.q, CODE, y)),
        _ => rows::put_string(work, count, SAME, x, y),
    }
}

// Card: "last, len(x_1) ≥ L", of m variables.
fn put_bound(work: &mut [i64], count: usize, s: Progress, x: usize, m: usize)
    requires count_lt_fact_limit { (count < fact_limit) × (work_numbers ≤ length work.old) }
    requires x_lt_variable_limit { (x < variable_limit) × (m ≤ variable_limit) × (2 ≤ s.n) × (s.n ≤ alphabet_limit) × (s.p ≤ variable_limit) × (s.q ≤ variable_limit) }
    ensures { branch_of work.new (count + 1) ≡ extended work.old count (last_child (numbered s) x m) 1 }
{
    let bound = card::least_power(s.n, m) as i64;
    rows::put_single(work, count, GE, -bound, column_of(s.p, s.q, LEN, x), 1);
}

// Card: "Children, for each pair i < j in lexicographic order, x_i ≈ x_j; last, len(x_1) ≥ L", of the m variables from a position.
// The loop counts off the pairs of one variable after another.
fn put_card(work: &mut [i64], count: usize, b: &[u8], s: Progress, at: usize, m: usize, k: usize)
    requires count_lt_fact_limit { (count < fact_limit) × (work_numbers ≤ length work.old) }
    requires le_m { (2 ≤ m) × (m ≤ variable_limit) × (at + 2 * m ≤ length b.now) × (are_variables s.p (u16s b.now at m) ≡ true) }
    requires p_le_variable_limit { (s.p ≤ variable_limit) × (s.q ≤ variable_limit) × (1 ≤ s.n) × (s.n ≤ alphabet_limit) }
    requires le_k { (1 ≤ k) × (k ≤ length (card_at b.now s at m)) }
    ensures { branch_of work.new (count + 1) ≡ extended work.old count (card_at b.now s at m) k }
{
    let mut left = k - 1;
    for i in 0..m - 1 {
        let others = m - 1 - i;
        if left < others {
            let place = at + 2 * i;
            let x = u16_at(b, place);
            let y = u16_at(b, place + 2 + 2 * left);
            rows::put_string(work, count, SAME, x, y);
            return;
        }
        left -= others;
    }
    put_bound(work, count, s, u16_at(b, at), m);
}

// The only fact of child k, for every rule but C-Valid.
fn put_fact(ticket: &[u8], s: Progress, step: Step, work: &mut [i64], count: usize, k: usize)
    requires ready_by { ReadyBy step.rule Several ticket.now s step.body step.size work.old count }
    requires rule_value { (one_each (rule_named step.rule) ≡ true) × (count < fact_limit) }
    requires k_value { fitting (child_of ticket.now s step.body step.size work.old count k) ≡ true }
    ensures { branch_of work.new (count + 1) ≡ with_child ticket.now s step.body step.size work.old count k }
{
    let at = step.body + OPERANDS;
    match step.rule {
        Rule::Branch => put_branch(work, count, ticket, at, (step.size - 8) / 6, k),
        Rule::Apart => put_apart(work, count, u16_at(ticket, at), k),
        Rule::LValid => put_l_valid(work, count, s, u16_at(ticket, at), k),
        Rule::CInj => put_c_inj(
            work,
            count,
            s,
            u16_at(ticket, at),
            u16_at(ticket, step.body + 6),
            k,
        ),
        Rule::Card => put_card(work, count, ticket, s, at, (step.size - OPERANDS) / 2, k),
        Rule::CValid => {}
        Rule::Sum | Rule::SProp | Rule::LIntro | Rule::CCollapse | Rule::Join => {}
        Rule::AConf | Rule::SConf | Rule::Unknown => {}
    }
}

// ---- children by number

// C-Valid, child 1: "len(x) ≠ 1 and code(x) = −1".
fn put_codeless(work: &mut [i64], count: usize, len: usize, code: usize)
    requires { (count + 2 ≤ fact_limit) × (work_numbers ≤ length work.old) × (len < column_limit) × (code < column_limit) }
    ensures { branch_of work.new (count + 2) ≡ branch_of work.old count ++ codeless len code }
{
    rows::put_single(work, count, NE, -1, len, 1);
    rows::put_single(work, count + 1, EQ, 1, code, 1);
}

// C-Valid, a child for the codes from low to high: "len(x) = 1, code(x) ≥ 0 and n−1−code(x) ≥ 0" for all of them.
fn put_coded(work: &mut [i64], count: usize, len: usize, code: usize, low: usize, high: usize)
    requires count_bound { (count + 3 ≤ fact_limit) × (work_numbers ≤ length work.old) × (len < column_limit) × (code < column_limit) }
    requires low_lt_alphabet_limit { (low < alphabet_limit) × (high < alphabet_limit) }
    ensures { branch_of work.new (count + 3) ≡ branch_of work.old count ++ coded len code low high }
{
    rows::put_single(work, count, EQ, -1, len, 1);
    rows::put_single(work, count + 1, GE, -(low as i64), code, 1);
    rows::put_single(work, count + 2, GE, high as i64, code, -1);
}

// C-Valid's child k after the facts of the branch; the number of facts then.
fn put_c_valid(work: &mut [i64], count: usize, s: Progress, x: usize, k: usize) -> usize
    requires k_bound { (count + k + 1 ≤ fact_limit) × (work_numbers ≤ length work.old) × (1 ≤ k) × (k ≤ 2) × (x < variable_limit) }
    requires p_le_variable_limit { (s.p ≤ variable_limit) × (s.q ≤ variable_limit) × (1 ≤ s.n) × (s.n ≤ alphabet_limit) }
    ensures { branch_of work.new result ≡ extended work.old count (c_valid_children (numbered s) x) k }
{
    let len = column_of(s.p, s.q, LEN, x);
    let code = column_of(s.p, s.q, CODE, x);
    if k == 1 {
        put_codeless(work, count, len, code);
        count + 2
    } else {
        put_coded(work, count, len, code, 0, s.n - 1);
        count + 3
    }
}

// Child k, which was tried, after the facts of the branch; the number of facts then.
pub fn put_child(
    ticket: &[u8],
    s: Progress,
    step: Step,
    work: &mut [i64],
    count: usize,
    k: usize,
) -> usize
    requires ready_by { ReadyBy step.rule Several ticket.now s step.body step.size work.old count }
    requires k_value { child_fault ticket.now s step.body step.size work.old count k ≡ 0 }
    ensures added { branch_of work.new result ≡ with_child ticket.now s step.body step.size work.old count k }
    ensures fine { Fine work.new result }
{
    match step.rule {
        Rule::CValid => put_c_valid(work, count, s, u16_at(ticket, step.body + OPERANDS), k),
        Rule::Branch | Rule::Apart | Rule::LValid | Rule::CInj | Rule::Card => {
            put_fact(ticket, s, step, work, count, k);
            count + 1
        }
        Rule::Sum | Rule::SProp | Rule::LIntro | Rule::CCollapse | Rule::Join => count,
        Rule::AConf | Rule::SConf | Rule::Unknown => count,
    }
}

// ---- the limits

// Apart: is child k within the limit? The coefficients are those of the fact or their negatives, so only the constant can pass it.
fn apart_within(work: &[i64], fact: usize, k: usize) -> bool
    requires fact_lt_fact_limit { (fact < fact_limit) × (work_numbers ≤ length work.now) × (1 ≤ k) × (k ≤ 2) }
    requires fact_value { (tag_of (fact_of (row_at work.now fact)) ≡ 2) × (fact_within (fact_of (row_at work.now fact)) ≡ true) }
    ensures { result ≡ facts_within (or_none (child_at (apart_at work.now fact) k)) }
{
    let constant = rows::row_at(work, fact)[CONSTANT];
    if k == 1 {
        rows::in_limit(constant - 1)
    } else {
        rows::in_limit(-1 - constant)
    }
}

// Branch: is child k within the limit? The first is the form at a position, which is in range; of the second only the constant can pass it.
fn branch_within(b: &[u8], at: usize, pairs: usize, k: usize) -> bool
    requires pairs_in_bounds { (at + 4 + 6 * pairs ≤ length b.now) × (1 ≤ k) × (k ≤ 2) }
    requires pairs_value { form_range b.now column_limit at pairs ≡ true }
    ensures { result ≡ facts_within (or_none (child_at (branch_children (form_of b.now at pairs)) k)) }
{
    k == 1 || rows::in_limit(-1 - records::i32_at(b, at))
}

// "9 when a new number passes the limit": of child k. Only Branch and Apart make numbers from numbers of the ticket.
pub fn child_within(
    ticket: &[u8],
    s: Progress,
    step: Step,
    work: &[i64],
    count: usize,
    k: usize,
) -> bool
    requires ready_by { ReadyBy step.rule Several ticket.now s step.body step.size work.now count }
    requires k_value { fitting (child_of ticket.now s step.body step.size work.now count k) ≡ true }
    ensures { result ≡ facts_within (or_none (child_of ticket.now s step.body step.size work.now count k)) }
{
    match step.rule {
        Rule::Branch => branch_within(ticket, step.body + OPERANDS, (step.size - 8) / 6, k),
        Rule::Apart => apart_within(work, u16_at(ticket, step.body + OPERANDS), k),
        Rule::LValid | Rule::CValid | Rule::CInj | Rule::Card => true,
        Rule::Sum | Rule::SProp | Rule::LIntro | Rule::CCollapse | Rule::Join => true,
        Rule::AConf | Rule::SConf | Rule::Unknown => true,
    }
}

// "Under claim 1 all children of a split are tried for 9".
pub fn children_within(ticket: &[u8], s: Progress, step: Step, work: &[i64], count: usize) -> bool
    requires ready_by { ReadyBy step.rule Several ticket.now s step.body step.size work.now count }
    requires count_value { fitting (offered_on ticket.now s step.body step.size work.now count) ≡ true }
    ensures { result ≡ children_within (or_none (offered_on ticket.now s step.body step.size work.now count)) }
{
    match step.rule {
        Rule::Branch | Rule::Apart => {
            child_within(ticket, s, step, work, count, 1)
                && child_within(ticket, s, step, work, count, 2)
        }
        Rule::LValid | Rule::CValid | Rule::CInj | Rule::Card => true,
        Rule::Sum | Rule::SProp | Rule::LIntro | Rule::CCollapse | Rule::Join => true,
        Rule::AConf | Rule::SConf | Rule::Unknown => true,
    }
}
