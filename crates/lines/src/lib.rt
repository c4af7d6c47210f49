// The program's lines, put into a buffer one after another.
#![tactic(auto)]

ghost use Rattle.std.specs.Prelude.{◌≡◌, [], ◌∷◌, ◌++◌, ◌+◌, ◌*◌, ◌≤◌, ◌<◌, length};
ghost use Rattle.faults.specs.Numbers.{number};
ghost use Rattle.format.specs.Fields.{u32s, i32s};
ghost use Rattle.format.specs.Records.{records};
ghost use Rattle.deciding.specs.Outcomes.{told_by};
ghost use Rattle.lines.specs.Lines.{digits, decimal, integer, spaced, refused_line, string_line, integer_line, integer_lines, end_line};
ghost use Rattle.lines.specs.Buffers.{record_lines, lines_by};
ghost use Rattle.lines.specs.Reports.{Reports};
ghost use Rattle.lines.specs.Pages.{Puts, Room};

use checking::check_ticket;
use deciding::Verdict;
use encoding::{KIND_VALUE, RECORD_HEAD};
use faults::Refusal;
use limits::{ANSWER_BYTES, REPORT_BYTES, WORK_NUMBERS};
use records::{Found, i32_at, read_at, u32_at};

// The lines so far: the buffer that they are put into, and the position after them.
#[derive(Drop)]
struct Page<'a> {
    out: &'a mut [u8],
    at: usize,
}

impl Page<'_> {
    // One byte.
    fn byte(&mut self, x: u8)
        requires { Room self.old 1 }
        ensures { Puts self.old (x ∷ []) 1 self.new }
    {
        self.out[self.at] = x;
        self.at += 1;
    }

    // The bytes of a text.
    fn text(&mut self, text: &[u8])
        requires { Room self.old (length text.now) }
        ensures { Puts self.old text.now (length text.now) self.new }
    {
        let end = self.at + text.len();
        self.out[self.at..end].copy_from_slice(text);
        self.at = end;
    }

    // ---- numbers

    // A number in decimal, of at most so many places. By hand: `write!` gives a Result whose error no clause rules out, and all the lines are promised.
    fn digits(&mut self, n: usize, places: usize)
        requires { Room self.old places }
        ensures { Puts self.old (digits places n) places self.new }
    {
        if places == 0 {
            return;
        }
        if 10 <= n {
            self.digits(n / 10, places - 1);
        }
        self.byte(b'0' + (n % 10) as u8);
    }

    fn decimal(&mut self, n: usize)
        requires { Room self.old 20 }
        ensures { Puts self.old (decimal n) 20 self.new }
    {
        self.digits(n, 20);
    }

    fn integer(&mut self, z: i64)
        requires { Room self.old 21 }
        ensures { Puts self.old (integer z) 21 self.new }
    {
        if z < 0 {
            self.byte(b'-');
        }
        self.decimal(z.unsigned_abs() as usize);
    }

    // A number after a space.
    fn spaced(&mut self, n: usize)
        requires { Room self.old 21 }
        ensures { Puts self.old (32 ∷ decimal n) 21 self.new }
    {
        self.byte(b' ');
        self.decimal(n);
    }

    // ---- lines

    // "`refused 13 at 4` (number, record)"
    fn refused(&mut self, refusal: Refusal)
        requires { Room self.old 53 }
        ensures { Puts self.old (refused_line (number refusal.fault) refusal.«record») 53 self.new }
    {
        let number = refusal.fault.number();
        self.text(b"refused ");
        self.decimal(number);
        self.text(b" at ");
        self.decimal(refusal.record);
        self.byte(b'\n');
    }

    // The count characters at a position of the answer, each after a space.
    fn characters(&mut self, answer: &[u8], from: usize, count: usize)
        requires { (from + 4 * count ≤ length answer.now) × Room self.old (21 * count) }
        ensures { Puts self.old (spaced (u32s answer.now from count)) (21 * count) self.new }
    {
        for i in 0..count {
            self.spaced(u32_at(answer, from + 4 * i));
        }
    }

    // "`x0 1 0` (variable, length, code points)"
    fn string(&mut self, variable: usize, answer: &[u8], from: usize, count: usize)
        requires { (from + 4 * count ≤ length answer.now) × Room self.old (43 + 21 * count) }
        ensures { Puts self.old (string_line variable (u32s answer.now from count)) (43 + 21 * count) self.new }
    {
        self.byte(b'x');
        self.decimal(variable);
        self.spaced(count);
        self.characters(answer, from, count);
        self.byte(b'\n');
    }

    // "Integers follow strings as `i0 -5`"
    fn integer_line(&mut self, variable: usize, z: i64)
        requires { Room self.old 44 }
        ensures { Puts self.old (integer_line variable z) 44 self.new }
    {
        self.byte(b'i');
        self.decimal(variable);
        self.byte(b' ');
        self.integer(z);
        self.byte(b'\n');
    }

    // The lines of the count integers at a position of the answer.
    fn integers(&mut self, answer: &[u8], from: usize, count: usize)
        requires { (from + 4 * count ≤ length answer.now) × Room self.old (44 * count) }
        ensures { Puts self.old (integer_lines 0 (i32s answer.now from count)) (44 * count) self.new }
    {
        for variable in 0..count {
            self.integer_line(variable, i32_at(answer, from + 4 * variable));
        }
    }

    // The lines of the answer's integers, and the last line.
    fn tail(&mut self, answer: &[u8], from: usize, count: usize)
        requires { (from + 4 * count ≤ length answer.now) × Room self.old (44 * count + 4) }
        ensures { Puts self.old (integer_lines 0 (i32s answer.now from count) ++ end_line) (44 * count + 4) self.new }
    {
        self.integers(answer, from, count);
        self.text(b"end\n");
    }

    // The lines of the answer's records, from the buffer's first byte on.
    fn records(&mut self, answer: &[u8])
        requires { Room self.old (12 * length answer.now + 4) }
        ensures { Puts self.old (record_lines answer.now 0 (records answer.now 0)) (12 * length answer.now + 4) self.new }
    {
        let mut at = 0;
        let mut variable = 0;
        loop {
            let Found::Whole(kind, size) = read_at(answer, at) else {
                return self.text(b"end\n");
            };
            if kind != KIND_VALUE {
                return self.tail(answer, at + RECORD_HEAD, size / 4);
            }
            self.string(variable, answer, at + RECORD_HEAD, size / 4);
            at += RECORD_HEAD + size;
            variable += 1;
        }
    }

    // ---- the program's lines

    // The lines for what checking tells, with the answer buffer as it was left.
    fn outcome(&mut self, outcome: Result<Verdict, Refusal>, answer: &[u8])
        requires { Room self.old (12 * length answer.now + 64) }
        ensures { Puts self.old (lines_by (told_by outcome) answer.now) (12 * length answer.now + 64) self.new }
    {
        match outcome {
            Err(refusal) => self.refused(refusal),
            Ok(Verdict::NoSolution(_)) => self.text(b"verdict none\n"),
            Ok(Verdict::Strings) => {
                self.text(b"verdict strings\n");
                self.records(answer);
            }
        }
    }
}

// What the program prints for a ticket, and how many bytes of it. The rest of the buffer is left as it was.
pub fn report(ticket: &[u8], out: &mut [u8; REPORT_BYTES]) -> usize
    ensures { Reports ticket.now out.old out.new result }
{
    let mut work = [0i64; WORK_NUMBERS];
    let mut answer = [0u8; ANSWER_BYTES];
    let outcome = check_ticket(ticket, &mut work, &mut answer);
    let mut page = Page { out, at: 0 };
    page.outcome(outcome, &answer);
    page.at
}
