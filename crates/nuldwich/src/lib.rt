// The host's entries: "calls both operations on numbers and byte slices", what a ticket will need (02, L2), whether two questions are the same (L6), and the
// version of all these. The static library nuldwich_c exports them to C.
#![tactic(auto)]

ghost use Rattle.std.specs.Prelude.{◌≡◌, List, ℕ};
ghost use Rattle.format.specs.Checking as format;
ghost use Rattle.format.specs.Cores.{core_of};
ghost use Rattle.deciding.specs.Outcomes.{told, told_by};
ghost use Rattle.format.specs.Judging.{by_side};
ghost use Rattle.judging.specs.Judgements.{judgement_of, side_of};
ghost use Rattle.format.specs.Needs.{needed};
ghost use Rattle.needs.specs.Outcomes.{need_of};
ghost use Rattle.format.specs.Sameness.{sameness};
ghost use Rattle.sameness.specs.Asked.{which_of, sameness_of};
ghost use Rattle.nuldwich.specs.Replies.{numbered, JudgeReplies, check_reply, CheckReplies, LentReplies, need_reply, which_number, same_reply};
ghost use Rattle.nuldwich.specs.Version.{major, version};

use checking::check_ticket;
use deciding::Verdict;
use faults::Refusal;
use judging::{Side, judge_answer, show};
use limits::WORK_NUMBERS;
use needs::{Report, need_ticket};
use sameness::{Refused, Which, same_questions};

// ---- judging

// What judging returns: a number and a record, and the part shown by its side, 0 for the question and 1 for the answer, where it begins there and its length.
#[repr(C)]
#[derive(Drop)]
pub struct JudgeReply {
    pub number: u64,
    pub record: u64,
    pub shown: u64,
    pub offset: u64,
    pub length: u64,
}

#[derive(Drop)]
struct JudgementNumbers {
    number: u64,
    record: u64,
}

impl From<Result<judging::Verdict, Refusal>> for JudgementNumbers {
    ghost from_gives = { λ said numbers. numbers ≡ numbered (judgement_of said) };

    fn from(said: Result<judging::Verdict, Refusal>) -> JudgementNumbers {
        match said {
            Err(refusal) => JudgementNumbers {
                number: refusal.fault.number() as u64,
                record: refusal.record as u64,
            },
            Ok(judging::Verdict::AllMet) => JudgementNumbers {
                number: 0,
                record: 0,
            },
            Ok(judging::Verdict::Unmet(k)) => JudgementNumbers {
                number: 255,
                record: k as u64,
            },
        }
    }
}

// No `From`: both types are of other crates.
fn number_side(side: Side) -> u64
    ensures { result ≡ by_side (side_of side) 0 1 }
{
    match side {
        Side::Question => 0,
        Side::Answer => 1,
    }
}

// Judges an answer by a question; nothing is written. Both have one lifetime, since the part shown may be of either.
pub fn nuldwich_judge<'a>(question: &'a [u8], answer: &'a [u8]) -> JudgeReply
    ensures { JudgeReplies question.now answer.now result }
{
    let finding = judge_answer(question, answer);
    let shown = finding.shown;
    let part = show(question, answer, shown);
    let numbers = JudgementNumbers::from(finding.said);
    JudgeReply {
        number: numbers.number,
        record: numbers.record,
        shown: number_side(shown.side),
        offset: shown.from as u64,
        length: part.len() as u64,
    }
}

// The same under the name of document 01.
pub fn judge<'a>(question: &'a [u8], answer: &'a [u8]) -> JudgeReply
    ensures { JudgeReplies question.now answer.now result }
{
    nuldwich_judge(question, answer)
}

// ---- checking

// What checking returns: a number and a record, and the constraints that took part in "no solution", in two numbers: constraint k is bit k of the first, constraint
// 64 + k bit k of the second. With every other outcome both are 0 (02, L5).
#[repr(C)]
#[derive(Drop)]
pub struct Reply {
    pub number: u64,
    pub record: u64,
    pub core_low: u64,
    pub core_high: u64,
}

impl From<Result<Verdict, Refusal>> for Reply {
    ghost from_gives = { λ said reply. (x : format.Outcome) (ticket : List ℕ) → told_by said ≡ told x (core_of x ticket)
        → reply ≡ check_reply x (core_of x ticket) };

    fn from(said: Result<Verdict, Refusal>) -> Reply {
        match said {
            Err(refusal) => Reply {
                number: refusal.fault.number() as u64,
                record: refusal.record as u64,
                core_low: 0,
                core_high: 0,
            },
            Ok(Verdict::NoSolution(words)) => Reply {
                number: 0,
                record: 1,
                core_low: words.low,
                core_high: words.high,
            },
            Ok(Verdict::Strings) => Reply {
                number: 0,
                record: 2,
                core_low: 0,
                core_high: 0,
            },
        }
    }
}

// Checks a ticket in a lent work area: the entry for tests, which see the work area before and after.
pub fn nuldwich_check_in(ticket: &[u8], work: &mut [i64], answer: &mut [u8]) -> Reply
    ensures { LentReplies ticket.now work.old work.new answer.old answer.new result }
{
    Reply::from(check_ticket(ticket, work, answer))
}

// Checks a ticket; "that entry brings its own work area".
pub fn nuldwich_check(ticket: &[u8], answer: &mut [u8]) -> Reply
    ensures { CheckReplies ticket.now answer.old answer.new result }
{
    let mut work = [0i64; WORK_NUMBERS];
    Reply::from(check_ticket(ticket, &mut work, answer))
}

// The same under the name of document 01.
pub fn check(ticket: &[u8], answer: &mut [u8]) -> Reply
    ensures { CheckReplies ticket.now answer.old answer.new result }
{
    nuldwich_check(ticket, answer)
}

// ---- what a ticket will need

// What nuldwich_need returns: a number and a record, and the three counts, which are 0 where the ticket is refused.
#[repr(C)]
#[derive(Drop)]
pub struct NeedReply {
    pub number: u64,
    pub record: u64,
    pub steps: u64,
    pub facts: u64,
    pub pending: u64,
}

impl From<Result<Report, Refusal>> for NeedReply {
    ghost from_gives = { λ need reply. reply ≡ need_reply (need_of need) };

    fn from(need: Result<Report, Refusal>) -> NeedReply {
        match need {
            Err(refusal) => NeedReply {
                number: refusal.fault.number() as u64,
                record: refusal.record as u64,
                steps: 0,
                facts: 0,
                pending: 0,
            },
            Ok(report) => NeedReply {
                number: 0,
                record: 0,
                steps: report.steps as u64,
                facts: report.facts as u64,
                pending: report.pending as u64,
            },
        }
    }
}

// Counts what checking a ticket will need; nothing is written.
pub fn nuldwich_need(ticket: &[u8]) -> NeedReply
    ensures { result ≡ need_reply (needed ticket.now) }
{
    NeedReply::from(need_ticket(ticket))
}

// ---- whether two questions are the same

// What nuldwich_same returns: of two questions that are read, same is 1 or 0; of a refusal its number and record, and which of the two it concerns, 1 or 2.
#[repr(C)]
#[derive(Drop)]
pub struct SameReply {
    pub number: u64,
    pub record: u64,
    pub which: u64,
    pub same: u64,
}

// No `From`: both types are of other crates.
fn number_which(which: Which) -> u64
    ensures { result ≡ which_number (which_of which) }
{
    match which {
        Which::First => 1,
        Which::Second => 2,
    }
}

impl From<Result<bool, Refused>> for SameReply {
    ghost from_gives = { λ said reply. reply ≡ same_reply (sameness_of said) };

    fn from(said: Result<bool, Refused>) -> SameReply {
        match said {
            Err(refused) => SameReply {
                number: refused.refusal.fault.number() as u64,
                record: refused.refusal.record as u64,
                which: number_which(refused.which),
                same: 0,
            },
            Ok(same) => SameReply {
                number: 0,
                record: 0,
                which: 0,
                same: u64::from(same),
            },
        }
    }
}

// Says whether two questions are the same (02, L6); nothing is written. It brings two work areas of its own.
pub fn nuldwich_same(first: &[u8], second: &[u8]) -> SameReply
    ensures { result ≡ same_reply (sameness first.now second.now) }
{
    SameReply::from(same_questions(first, second))
}

// ---- the version

// Says which version of the C interface the library has: the major version times 1000, plus the minor one.
pub fn nuldwich_version() -> u64
    ensures { result ≡ version }
{
    3002
}

// The major version. It is in the name, so that a host that was compiled with a header of another one does not link.
pub fn nuldwich_major_3() -> u64
    ensures { result ≡ major }
{
    nuldwich_version() / 1000
}
