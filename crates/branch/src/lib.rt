// The branch that a derivation works on, by value: how many facts stand on it, and its pending splits.
#![tactic(auto)]

ghost use Rattle.std.specs.Prelude.{◌≡◌, [], ◌∷◌, ◌≤◌, ◌<◌};
ghost use Rattle.calculus.specs.Limits.{ticket_bytes, fact_limit, pending_limit};
ghost use Rattle.branch.specs.Stack.{split, stack, latest_of, begun_of};

use limits::PENDING_LIMIT;

// A split with children pending, "that is, not yet begun": the number of facts before it, the position of its step's record, the number of
// its next child, from 1, and that of its last. No byte is left between the fields.
#[derive(Clone, Copy)]
pub struct Split {
    pub mark: u16,
    pub at: u16,
    pub child: u8,
    pub last: u8,
}

// "At most 128 facts stand on a branch and at most 64 splits have children pending"
#[derive(Clone, Copy)]
pub struct Branch {
    pub count: u16,
    pub depth: u16,
    pub splits: [Split; PENDING_LIMIT],
}

impl Branch {
    // The branch of the first facts, with nothing pending.
    pub fn new(count: usize) -> Branch
        requires { count ≤ fact_limit }
        ensures { (result.count ≡ count) × (stack result ≡ []) }
    {
        let none = Split {
            mark: 0,
            at: 0,
            child: 0,
            last: 0,
        };
        Branch {
            count: count as u16,
            depth: 0,
            splits: [none; PENDING_LIMIT],
        }
    }

    // The same branch with as many facts as are given.
    pub fn extend(self, count: usize) -> Branch
        requires { count ≤ fact_limit }
        ensures { (result.count ≡ count) × (stack result ≡ stack self) }
    {
        Branch {
            count: count as u16,
            ..self
        }
    }

    // The split of the step in the record at a position, whose first child is begun.
    pub fn mark(mut self, at: usize, last: usize) -> Branch
        requires { (self.depth < pending_limit) × (at ≤ ticket_bytes) × (last < 256) }
        ensures { (result.count ≡ self.count) × (stack result ≡ split self.count at 2 last ∷ stack self) }
    {
        self.splits[usize::from(self.depth)] = Split {
            mark: self.count,
            at: at as u16,
            child: 2,
            last: last as u8,
        };
        self.depth += 1;
        self
    }

    // The last pending split.
    pub fn latest(self) -> Split
        requires { (0 < self.depth) × (self.depth ≤ pending_limit) }
        ensures { result ≡ latest_of (stack self) }
    {
        self.splits[usize::from(self.depth) - 1]
    }

    // "a closed branch is cut back to the mark of its last pending split"
    pub fn cut_back(self) -> Branch
        requires { (0 < self.depth) × (self.depth ≤ pending_limit) }
        ensures { (result.count ≡ (latest_of (stack self)).mark) × (stack result ≡ stack self) }
    {
        let split = self.splits[usize::from(self.depth) - 1];
        Branch {
            count: split.mark,
            ..self
        }
    }

    // The next child of the last pending split is begun.
    pub fn take_next_child(mut self) -> Branch
        requires { (0 < self.depth) × (self.depth ≤ pending_limit) }
        ensures { (result.count ≡ self.count) × (stack result ≡ begun_of (stack self)) }
    {
        let top = usize::from(self.depth) - 1;
        let split = self.splits[top];
        if split.child < split.last {
            self.splits[top] = Split {
                child: split.child + 1,
                ..split
            };
        } else {
            self.depth -= 1;
        }
        self
    }
}
