// The static library for C: each entry of nuldwich under its name, with the same promise. check and judge are the names of document 01. A host may have functions of
// these names, so the built archive has both as weak symbols, and no other entry calls them.
#![tactic(auto)]

ghost use Rattle.std.specs.Prelude.{◌≡◌};
ghost use Rattle.format.specs.Needs.{needed};
ghost use Rattle.format.specs.Sameness.{sameness};
ghost use Rattle.nuldwich.specs.Replies.{JudgeReplies, CheckReplies, LentReplies, need_reply, same_reply};
ghost use Rattle.nuldwich.specs.Version.{major, version};

use nuldwich::{JudgeReply, NeedReply, Reply, SameReply};

// ---- judging

#[unsafe(no_mangle)]
pub extern "C" fn nuldwich_judge<'a>(question: &'a [u8], answer: &'a [u8]) -> JudgeReply
    ensures { JudgeReplies question.now answer.now result }
{
    nuldwich::nuldwich_judge(question, answer)
}

#[unsafe(no_mangle)]
pub extern "C" fn judge<'a>(question: &'a [u8], answer: &'a [u8]) -> JudgeReply
    ensures { JudgeReplies question.now answer.now result }
{
    nuldwich::judge(question, answer)
}

// ---- checking

#[unsafe(no_mangle)]
pub extern "C" fn nuldwich_check(ticket: &[u8], answer: &mut [u8]) -> Reply
    ensures { CheckReplies ticket.now answer.old answer.new result }
{
    nuldwich::nuldwich_check(ticket, answer)
}

#[unsafe(no_mangle)]
pub extern "C" fn check(ticket: &[u8], answer: &mut [u8]) -> Reply
    ensures { CheckReplies ticket.now answer.old answer.new result }
{
    nuldwich::check(ticket, answer)
}

// The entry for tests, which see the work area before and after.
#[unsafe(no_mangle)]
pub extern "C" fn nuldwich_check_in(ticket: &[u8], work: &mut [i64], answer: &mut [u8]) -> Reply
    ensures { LentReplies ticket.now work.old work.new answer.old answer.new result }
{
    nuldwich::nuldwich_check_in(ticket, work, answer)
}

// ---- what a ticket will need

#[unsafe(no_mangle)]
pub extern "C" fn nuldwich_need(ticket: &[u8]) -> NeedReply
    ensures { result ≡ need_reply (needed ticket.now) }
{
    nuldwich::nuldwich_need(ticket)
}

// ---- whether two questions are the same

#[unsafe(no_mangle)]
pub extern "C" fn nuldwich_same(first: &[u8], second: &[u8]) -> SameReply
    ensures { result ≡ same_reply (sameness first.now second.now) }
{
    nuldwich::nuldwich_same(first, second)
}

// ---- the version

#[unsafe(no_mangle)]
pub extern "C" fn nuldwich_version() -> u64
    ensures { result ≡ version }
{
    nuldwich::nuldwich_version()
}

#[unsafe(no_mangle)]
pub extern "C" fn nuldwich_major_3() -> u64
    ensures { result ≡ major }
{
    nuldwich::nuldwich_major_3()
}
