// The model: "7 model, claim 2 only, once", what is tested at it, and the answer that it gives.
#![tactic(auto)]

ghost use Rattle.std.specs.Prelude.{◌≡◌, List, ◌++◌, ◌+◌, ◌*◌, ◌-◌, ◌≤◌, length, ℤ, IfOk};
ghost use Rattle.calculus.specs.Limits.{column_limit, answer_bytes};
ghost use Rattle.calculus.specs.LinearForms.{zeros};
ghost use Rattle.calculus.specs.Facts.{Branch};
ghost use Rattle.calculus.specs.Classes as calculus;
ghost use Rattle.faults.specs.Numbers.{fault_in};
ghost use Rattle.format.specs.Fields.{i32s};
ghost use Rattle.format.specs.Checking.{Strings, leaf_fault, answer_of};
ghost use Rattle.format.specs.Demands.{answer_after};
ghost use Rattle.rows.specs.Rows.{branch_of};
ghost use Rattle.rows.specs.Work.{Fine};
ghost use Rattle.question.specs.Posed.{asked, Posed};
ghost use Rattle.leaf.specs.Leaf.{LiteralsAt};
ghost use Rattle.model.specs.Settled.{values, model_of, fault_of, Filled, Writable, Answers};

use answer::write_answer;
use delimiters::model_fault;
use faults::Fault;
use leaf::Leaf;
use limits::{LENGTH_LIMIT, NODE_COUNT, VARIABLE_LIMIT};
use question::Progress;
use records::i32_at;
use strings::give_strings;

// The table of strings: a row for each string variable that there may be.
const TABLE_CHARACTERS: usize = LENGTH_LIMIT * VARIABLE_LIMIT;

// "an i32 for each column", filled into 48 zeros; after the last column they stay.
fn read_model(model: &mut [i64], ticket: &[u8], at: usize, columns: usize)
    requires { (model.old ≡ zeros column_limit) × (columns ≤ column_limit) × (at + 4 * columns ≤ length ticket.now) }
    ensures { model.new ≡ i32s ticket.now at columns ++ zeros (column_limit - columns) }
{
    for j in 0..columns {
        model[j] = i32_at(ticket, at + 4 * j);
    }
}

// "at the model, 12 when it breaks an arithmetic fact, 13 when the leaf is not settled, 14 when a length passes 64"
fn leaf_fault(
    ticket: &[u8],
    places: &[usize],
    work: &[i64],
    count: usize,
    model: &[i64],
    s: Progress,
    labels: [u8; NODE_COUNT],
) -> Result<(), Fault>
    requires posed { Posed ticket.now s × Filled model.now s × LiteralsAt ticket.now places.now s }
    requires fine { Fine work.now count × (labels ≡ calculus.labels (branch_of work.now count)) }
    ensures { fault_in result ≡ leaf_fault (asked ticket.now s) (branch_of work.now count) (values s model.now) }
{
    if !rows::keeps_facts(work, count, model) {
        return Err(Fault::BreaksFact);
    }
    let columns = s.q + (s.p + s.p);
    let values = &model[..columns];
    let leaf = Leaf {
        ticket,
        places,
        s,
        model: values,
        labels: &labels,
    };
    if !leaf.settled(work, count) {
        return Err(Fault::NotSettled);
    }
    if !leaf.short_lengths() {
        return Err(Fault::LongString);
    }
    Ok(())
}

// The record of a model with its body at a position, on the branch of the first count rows. The model's numbers are filled into zeros. A leaf that is settled by
// them gives its labels, which the answer is written by.
pub fn settle(
    ticket: &[u8],
    places: &[usize],
    s: Progress,
    at: usize,
    size: usize,
    work: &[i64],
    count: usize,
    model: &mut [i64],
) -> Result<[u8; NODE_COUNT], Fault>
    requires { Posed ticket.now s × (at + size ≤ length ticket.now) × Fine work.now count × LiteralsAt ticket.now places.now s
        × (model.old ≡ zeros column_limit) }
    ensures fault { fault_in result ≡ fault_of ticket.now s (branch_of work.now count) at size }
    ensures settled { IfOk result (λ labels. Answers ticket.now places.now s (branch_of work.now count)
        (model_of ticket.now s at) labels model.new) }
{
    model_fault(ticket, s, at, size)?;
    read_model(model, ticket, at, s.q + (s.p + s.p));
    let labels = classes::labels(work, count);
    leaf_fault(ticket, places, work, count, model, s, labels)?;
    Ok(labels)
}

// "The strings .. The integers are the model's": the answer of a leaf that is settled by its model.
pub fn write(
    ticket: &[u8],
    places: &[usize],
    s: Progress,
    labels: &[u8; NODE_COUNT],
    model: &[i64],
    answer: &mut [u8],
)
    requires { Writable ticket.now places.now s model.now × (answer_bytes ≤ length answer.old) }
    ensures { (br : Branch) (m : List ℤ) → Answers ticket.now places.now s br m labels.now model.now
        → answer.new ≡ answer_after (Strings (answer_of (asked ticket.now s) br m)) answer.old }
{
    let columns = s.q + (s.p + s.p);
    let values = &model[..columns];
    let leaf = Leaf {
        ticket,
        places,
        s,
        model: values,
        labels,
    };
    let mut characters = [0u32; TABLE_CHARACTERS];
    let sizes = give_strings(&leaf, &mut characters);
    write_answer(answer, &characters, &sizes, s.p, values, s.q);
}
