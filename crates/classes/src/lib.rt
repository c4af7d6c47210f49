// Classes of variables and literals: labels of the 32 nodes, from the rows of a branch.
#![tactic(auto)]

ghost use Rattle.std.specs.Prelude.{◌≡◌, [], ◌∷◌, ◌*◌, ◌≤◌, ◌<◌, length};
ghost use Rattle.lists.specs.Lists.{any_below};
ghost use Rattle.calculus.specs.Limits.{variable_limit, fact_limit};
ghost use Rattle.calculus.specs.Chains.{var_node, lit_node};
ghost use Rattle.calculus.specs.Classes as classes;
ghost use Rattle.calculus.specs.Classes.{node_count, up_from, merge_nodes, merge_fact, same_class, lowest_literal, sides_meet, literal_meets, clash};
ghost use Rattle.calculus.specs.SettledTest.{lowest_variable};
ghost use Rattle.rows.specs.Rows.{row_length, fact_of, branch_of};
ghost use Rattle.classes.specs.Classes.{Knows, set_back, literal_of};

use limits::{NODE_COUNT, ROW_LENGTH};
use rows::{
    FIRST, SECOND, TAG_LITERAL, TAG_NOT_SAME, TAG_SAME, literal_at, row_at, tag_of, variable_at,
};

// The labels of the first `upto` facts of a branch.
#[derive(Clone, Copy)]
pub struct Known {
    pub labels: [u8; NODE_COUNT],
    pub upto: usize,
}

// ---- nodes

// The even nodes are the variables, the odd ones the literals.
fn variable_node(x: usize) -> usize
    requires { x < variable_limit }
    ensures { result ≡ var_node x }
{
    2 * x
}

fn literal_node(l: usize) -> usize
    requires { l < variable_limit }
    ensures { result ≡ lit_node l }
{
    2 * l + 1
}

// ---- labels

// Every node is in a class of its own.
fn first_labels() -> [u8; NODE_COUNT]
    ensures { result ≡ up_from 0 node_count }
{
    [
        0, 1, 2, 3, 4, 5, 6, 7, 8, 9, 10, 11, 12, 13, 14, 15, 16, 17, 18, 19, 20, 21, 22, 23, 24,
        25, 26, 27, 28, 29, 30, 31,
    ]
}

// Every label `old` becomes `new`.
fn relabel(old: u8, new: u8, labels: [u8; NODE_COUNT]) -> [u8; NODE_COUNT]
    ensures { result ≡ classes.relabel old new labels }
{
    let mut out = labels;
    for label in out.iter_mut() {
        *label = if *label == old { new } else { *label };
    }
    out
}

// The classes of two nodes become one.
fn merge(labels: [u8; NODE_COUNT], i: usize, j: usize) -> [u8; NODE_COUNT]
    requires { (i < node_count) × (j < node_count) }
    ensures { result ≡ merge_nodes labels i j }
{
    let new = labels[i];
    let old = labels[j];
    if old == new {
        labels
    } else {
        relabel(old, new, labels)
    }
}

// The labels once the fact of a row stands: variable ≈ variable and variable ≈ literal join two nodes.
fn merge_row(row: &[i64; ROW_LENGTH], labels: [u8; NODE_COUNT]) -> [u8; NODE_COUNT]
    ensures { result ≡ merge_fact labels (fact_of row.now) }
{
    match tag_of(row) {
        TAG_SAME => {
            let a = variable_at(row, FIRST);
            let b = variable_at(row, SECOND);
            merge(labels, variable_node(a), variable_node(b))
        }
        TAG_LITERAL => {
            let a = variable_at(row, FIRST);
            let b = literal_at(row, SECOND);
            merge(labels, variable_node(a), literal_node(b))
        }
        _ => labels,
    }
}

// The labels of a branch without facts.
pub fn nothing_known() -> Known
    ensures { (result.upto ≡ 0) × (result.labels ≡ classes.labels []) }
{
    Known {
        labels: first_labels(),
        upto: 0,
    }
}

// What is known of the first `count` facts, from what is known of some of them: the facts after those are added.
pub fn bring_up(known: Known, work: &[i64], count: usize) -> Known
    requires knows { Knows work.now count known }
    requires count_le_fact_limit { (count ≤ fact_limit) × (row_length * count ≤ length work.now) }
    ensures upto { result.upto ≡ count }
    ensures labels { result.labels ≡ classes.labels (branch_of work.now count) }
{
    let mut labels = known.labels;
    for k in known.upto..count {
        // `labels = merge_row(..)` gets no proof: the result would be laid where the argument is read.
        let next = merge_row(row_at(work, k), labels);
        labels = next;
    }
    Known {
        labels,
        upto: count,
    }
}

// What is known of the first `mark` facts: what was kept, or, where that goes further, what is known of the question's constraints.
pub fn set_back(known: Known, first: Known, mark: usize) -> Known
    ensures { result ≡ set_back known first mark }
{
    if known.upto <= mark { known } else { first }
}

// The labels of a branch of `count` facts.
pub fn labels(work: &[i64], count: usize) -> [u8; NODE_COUNT]
    requires { (count ≤ fact_limit) × (row_length * count ≤ length work.now) }
    ensures { result ≡ classes.labels (branch_of work.now count) }
{
    bring_up(nothing_known(), work, count).labels
}

// ---- classes. Labels are lent as an array: in a struct of their own they would be read through its field in each clause here and in the crates above.

// Are two nodes in one class?
fn same_class(labels: &[u8; NODE_COUNT], i: usize, j: usize) -> bool
    requires { (i < node_count) × (j < node_count) }
    ensures { result ≡ same_class labels.now i j }
{
    labels[i] == labels[j]
}

// Are two variables in one class?
pub fn one_class(labels: &[u8; NODE_COUNT], x: usize, y: usize) -> bool
    requires { (x < variable_limit) × (y < variable_limit) }
    ensures { result ≡ same_class labels.now (var_node x) (var_node y) }
{
    same_class(labels, variable_node(x), variable_node(y))
}

// Does the class of variable x hold literal l?
pub fn class_holds(labels: &[u8; NODE_COUNT], x: usize, l: usize) -> bool
    requires { (x < variable_limit) × (l < variable_limit) }
    ensures { result ≡ same_class labels.now (var_node x) (lit_node l) }
{
    same_class(labels, variable_node(x), literal_node(l))
}

// The lowest of the first m literals in the class of variable x: "the lowest literal number counts".
pub fn class_literal(labels: &[u8; NODE_COUNT], m: usize, x: usize) -> Option<usize>
    requires { (m ≤ variable_limit) × (x < variable_limit) }
    ensures { literal_of result ≡ lowest_literal labels.now x 0 m }
{
    (0..m).find(|l| class_holds(labels, x, *l))
}

// The lowest variable in the class of variable x.
pub fn lowest_variable(labels: &[u8; NODE_COUNT], x: usize) -> usize
    requires { x < variable_limit }
    ensures { result ≡ lowest_variable labels.now x }
{
    (0..x).find(|y| one_class(labels, x, *y)).unwrap_or(x)
}

// Does literal i share a class with a lower one?
fn literal_meets(labels: &[u8; NODE_COUNT], i: usize) -> bool
    requires { i < variable_limit }
    ensures { result ≡ literal_meets labels.now i }
{
    (0..i).any(|j| same_class(labels, literal_node(i), literal_node(j)))
}

// "two different literals share a class", of the first m.
fn literals_meet(labels: &[u8; NODE_COUNT], m: usize) -> bool
    requires { (m ≤ variable_limit) }
    ensures { result ≡ any_below m (literal_meets labels.now) }
{
    (0..m).any(|i| literal_meets(labels, i))
}

// Is a row a fact a ≉ b with both sides in one class?
fn row_sides_meet(row: &[i64; ROW_LENGTH], labels: &[u8; NODE_COUNT]) -> bool
    ensures { result ≡ sides_meet labels.now (fact_of row.now ∷ []) }
{
    tag_of(row) == TAG_NOT_SAME
        && one_class(labels, variable_at(row, FIRST), variable_at(row, SECOND))
}

// "a ≉ fact has both sides in one", among the first `count` facts.
fn sides_meet(work: &[i64], count: usize, labels: &[u8; NODE_COUNT]) -> bool
    requires { (count ≤ fact_limit) × (row_length * count ≤ length work.now) }
    ensures { result ≡ sides_meet labels.now (branch_of work.now count) }
{
    (0..count).any(|k| row_sides_meet(row_at(work, k), labels))
}

// Does S-Conf fit on a branch of `count` facts with these labels, where the question has m literals, the empty one included?
pub fn conflict(work: &[i64], count: usize, labels: &[u8; NODE_COUNT], m: usize) -> bool
    requires { (count ≤ fact_limit) × (row_length * count ≤ length work.now) × (m ≤ variable_limit) }
    ensures { result ≡ clash m labels.now (branch_of work.now count) }
{
    literals_meet(labels, m) || sides_meet(work, count, labels)
}
