// The leaf: whether its model settles it (document 01: "settled"), and whether a length passes 64. A leaf is held as its question's numbers and the labels of its
// nodes; what does not read the literals is said of the question by its numbers alone.
#![tactic(auto)]

ghost use Rattle.std.specs.Prelude.{◌≡◌, ◌+◌, ◌*◌, ◌≤◌, ◌<◌, length, nat_abs};
ghost use Rattle.lists.specs.Lists.{all_below};
ghost use Rattle.calculus.specs.Limits.{alphabet_limit, variable_limit, fact_limit};
ghost use Rattle.calculus.specs.Classes as classes;
ghost use Rattle.calculus.specs.Classes.{literal_in};
ghost use Rattle.calculus.specs.Model.{model_value};
ghost use Rattle.calculus.specs.SettledTest as test;
ghost use Rattle.calculus.specs.SettledTest.{lowest_of_length, settled_card};
ghost use Rattle.format.specs.Fields.{u32s};
ghost use Rattle.format.specs.StepForms.{function_of};
ghost use Rattle.format.specs.Checking.{short_lengths};
ghost use Rattle.rows.specs.Rows.{row_length, branch_of};
ghost use Rattle.question.specs.Posed.{numbered};
ghost use Rattle.leaf.specs.Leaf.{Modelled, Ready, posed_of};
ghost use Rattle.leaf.specs.Values.{text_fits, literal_fits, l_valid_fits, code_fits, roomy, var_fits, pair_by, pair_with, pair_fits, by_earlier};

use encoding::{CODE, LEN};
use limits::{LENGTH_LIMIT, NODE_COUNT};
use question::Progress;

// The empty literal.
const EMPTY: usize = 0;

// ---- numbers

// The size of a number without its sign.
pub fn magnitude(z: i64) -> usize
    ensures { result ≡ nat_abs z }
{
    z.unsigned_abs() as usize
}

// ---- leaves

// A leaf: the ticket and where its literals stand, the question's numbers, the model's number for each column, and the labels of the nodes.
// What a leaf is asked for, `Ready`, is a clause: a ghost field asks that any two proofs of it are equal, and each holds where its question ends.
#[derive(Clone, Copy)]
pub struct Leaf<'a> {
    pub ticket: &'a [u8],
    pub places: &'a [usize],
    pub s: Progress,
    pub model: &'a [i64],
    pub labels: &'a [u8; NODE_COUNT],
}

// ---- tests of numbers

// Are these the length and the code of a text of the ticket?
fn fits_text(ticket: &[u8], at: usize, count: usize, len: i64, code: i64) -> bool
    requires { at + 4 * count ≤ length ticket.now }
    ensures { result ≡ text_fits (u32s ticket.now at count) len code }
{
    len == count as i64 && code == question::text_code(ticket, at, count)
}

// C-Valid.
fn code_fits(n: usize, len: i64, code: i64) -> bool
    requires { 1 ≤ n }
    ensures { result ≡ code_fits n len code }
{
    if len == 1 {
        code >= 0 && code as usize <= n - 1
    } else {
        code == -1
    }
}

// Are there n characters and a length for k different strings?
fn has_room(n: usize, k: usize, size: usize) -> bool
    requires { (n ≤ alphabet_limit) × (k ≤ variable_limit) }
    ensures { result ≡ roomy n k size }
{
    n > 1 && card::least_power(n, k) <= size
}

// S-Prop for lengths z, w and codes c, d of one class, C-Inj for those of two.
fn pair_by(same: bool, z: i64, w: i64, c: i64, d: i64) -> bool
    ensures { result ≡ pair_by same z w c d }
{
    if same {
        z == w && c == d
    } else {
        c == -1 || c != d
    }
}

impl Leaf<'_> {
    // The model's value of a function, LEN or CODE, of variable x.
    pub fn value_of(&self, function: usize, x: usize) -> i64
        requires { Modelled self.now.model.now self.now.s × (x < self.now.s.p) }
        ensures { result ≡ model_value (numbered self.now.s) self.now.model.now (function_of function) x }
    {
        self.model[question::column_of(self.s.p, self.s.q, function, x)]
    }

    // ---- the rules with one variable

    // L-Intro and C-Collapse for variable x, whose length and code are given.
    fn literal_fits(&self, x: usize, len: i64, code: i64) -> bool
        requires { Ready self.now × (x < self.now.s.p) }
        ensures { result ≡ literal_fits (posed_of self.now) (literal_in (posed_of self.now) self.now.labels.now x) len code }
    {
        match classes::class_literal(self.labels, self.s.literals + 1, x) {
            Some(l) => {
                let text = question::placed_text(self.ticket, self.places, l);
                fits_text(self.ticket, text.at, text.count, len, code)
            }
            None => true,
        }
    }

    // L-Valid for variable x, whose length is given.
    fn length_fits(&self, x: usize, len: i64) -> bool
        requires { x < variable_limit }
        ensures { result ≡ l_valid_fits self.now.labels.now x len }
    {
        classes::class_holds(self.labels, x, EMPTY) || len > 0
    }

    // The number of classes whose length is the given one.
    fn classes_of(&self, wanted: i64) -> usize
        requires { Modelled self.now.model.now self.now.s }
        ensures value { result ≡ length (lowest_of_length (numbered self.now.s) self.now.labels.now self.now.model.now wanted self.now.s.p) }
        ensures upper_bound { result ≤ self.now.s.p }
    {
        (0..self.s.p)
            .filter(|y| self.value_of(LEN, *y) == wanted
                && classes::lowest_variable(self.labels, *y) == *y)
            .count()
    }

    // Card for the length of variable x. It has at most p classes, which are counted only where there is no room for p strings.
    fn card_fits(&self, x: usize) -> bool
        requires { Modelled self.now.model.now self.now.s × (self.now.s.n ≤ alphabet_limit) × (x < self.now.s.p) }
        ensures { result ≡ settled_card (numbered self.now.s) self.now.labels.now self.now.model.now x }
    {
        let len = self.value_of(LEN, x);
        let size = magnitude(len);
        if has_room(self.s.n, self.s.p, size) {
            return true;
        }
        let count = self.classes_of(len);
        count <= 1 || has_room(self.s.n, count, size)
    }

    // L-Intro, C-Collapse, L-Valid, C-Valid and Card for variable x.
    fn var_fits(&self, x: usize) -> bool
        requires { Ready self.now × (x < self.now.s.p) }
        ensures { result ≡ var_fits (posed_of self.now) self.now.labels.now self.now.model.now x }
    {
        let len = self.value_of(LEN, x);
        let code = self.value_of(CODE, x);
        self.literal_fits(x, len, code)
            && self.length_fits(x, len)
            && code_fits(self.s.n, len, code)
            && self.card_fits(x)
    }

    // ---- the rules with two variables

    // The two rules for variable x, whose length and code are given, with variable y.
    fn pair_fits(&self, x: usize, len: i64, code: i64, y: usize) -> bool
        requires { Modelled self.now.model.now self.now.s × (x < self.now.s.p) × (y < self.now.s.p) }
        ensures { result ≡ pair_with (numbered self.now.s) self.now.labels.now self.now.model.now x len code y }
    {
        let same = classes::one_class(self.labels, x, y);
        let w = self.value_of(LEN, y);
        let d = self.value_of(CODE, y);
        pair_by(same, len, w, code, d)
    }

    // S-Prop and C-Inj for variable x with every variable before it.
    fn pairs_fit(&self, x: usize) -> bool
        requires { Modelled self.now.model.now self.now.s × (x < self.now.s.p) }
        ensures { result ≡ all_below x (pair_fits (numbered self.now.s) self.now.labels.now self.now.model.now x) }
    {
        let len = self.value_of(LEN, x);
        let code = self.value_of(CODE, x);
        (0..x).all(|y| self.pair_fits(x, len, code, y))
    }

    // ---- every variable

    // The rules for variable x, itself and with every variable before it.
    fn values_fit(&self, x: usize) -> bool
        requires { Ready self.now × (x < self.now.s.p) }
        ensures { result ≡ by_earlier (posed_of self.now) self.now.labels.now self.now.model.now x }
    {
        self.var_fits(x) && self.pairs_fit(x)
    }

    fn every_fits(&self) -> bool
        requires { Ready self.now }
        ensures { result ≡ all_below self.now.s.p (by_earlier (posed_of self.now) self.now.labels.now self.now.model.now) }
    {
        (0..self.s.p).all(|x| self.values_fit(x))
    }

    // "A leaf is settled by its model if S-Conf does not fit and, for every choice of operands whose premise holds in rules 6 to 12, some child holds already".
    // The labels are those of the first `count` facts of the work area.
    pub fn settled(&self, work: &[i64], count: usize) -> bool
        requires leaf_ready { Ready self.now × (count ≤ fact_limit) × (row_length * count ≤ length work.now) }
        requires labels_value { self.now.labels.now ≡ classes.labels (branch_of work.now count) }
        ensures { result ≡ test.settled (posed_of self.now) (branch_of work.now count) self.now.model.now }
    {
        !classes::conflict(work, count, self.labels, self.s.literals + 1) && self.every_fits()
    }

    // No "length passes 64".
    pub fn short_lengths(&self) -> bool
        requires { Modelled self.now.model.now self.now.s }
        ensures { result ≡ short_lengths (numbered self.now.s) self.now.model.now }
    {
        (0..self.s.p).all(|x| self.value_of(LEN, x) <= LENGTH_LIMIT as i64)
    }
}
