// Checking: the operation `check_ticket`. "Checking names the first faulty record from 0 (0 for 1 and 2), and there the first of" 1 to 14.
#![tactic(auto)]

ghost use Rattle.checking.specs.Outcomes.{Promised};

use deciding::{Verdict, decide};
use faults::{Fault, Refusal};
use limits::{ANSWER_BYTES, WORK_NUMBERS};

// Checks a ticket. "1 when the work area has under 6,400 numbers or the answer buffer under 4,268 bytes"; "The whole work area, numbers past
// 6,400 too, is zero after every call, except that 1 does not touch it".
pub fn check_ticket(ticket: &[u8], work: &mut [i64], answer: &mut [u8]) -> Result<Verdict, Refusal>
    ensures { Promised ticket.now work.old work.new answer.old answer.new result }
{
    if work.len() < WORK_NUMBERS || answer.len() < ANSWER_BYTES {
        return Err(Fault::SmallBuffer.at(0));
    }
    let verdict = decide(ticket, work, answer);
    work.fill(0);
    verdict
}
