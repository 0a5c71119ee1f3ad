// The reply of a command that was served, laid at a place of the answer buffer.
ghost use Rattle.std.specs.Prelude.{◌+◌, ◌*◌, ◌≤◌, length};
ghost use Rattle.pairs.specs.Pairs.{first};
ghost use Rattle.command.specs.Answer.{answer_bytes, scan_bytes};
ghost use Rattle.book.specs.Command.{reply_bytes, ceiling_reply};
ghost use Rattle.run_scan.specs.Pairs.{pairs_of, Sized};
ghost use Rattle.run.specs.Replies.{RepliedAs};

use super::Progress;
use command::Answer;
use command::answers::{lay_answer, lay_ceiling};
use run_scan::answer::lay_scan;
use run_scan::scan::Scanned;
use run_serve::charged::Answered;

// The answer of a get, a put or a delete.
pub fn reply(answers: &mut [u8], at: usize, done: Answered) -> Progress
    requires { at + 7 ≤ length answers.old }
    ensures { RepliedAs answers.old answers.new result done.charge at
        (answer_bytes done.answer) }
{
    Progress {
        charge: done.charge,
        at: lay_answer(answers, at, done.answer),
    }
}

// The pair of a ceiling, the first that was found, or that there is none.
pub fn reply_ceiling(answers: &mut [u8], at: usize, done: Scanned) -> Progress
    requires { (Sized done.pairs) × (at + 11 ≤ length answers.old) }
    ensures { RepliedAs answers.old answers.new result done.charge at
        (reply_bytes (ceiling_reply (first (pairs_of done.pairs)))) }
{
    if done.pairs.count == 0 {
        Progress {
            charge: done.charge,
            at: lay_answer(answers, at, Answer::Absent),
        }
    } else {
        Progress {
            charge: done.charge,
            at: lay_ceiling(answers, at, done.pairs.keys[0], done.pairs.values[0]),
        }
    }
}

// The pairs of a scan.
pub fn reply_pairs(answers: &mut [u8], at: usize, done: Scanned) -> Progress
    requires { (Sized done.pairs) × (at + (3 + 8 * done.pairs.count) ≤ length answers.old) }
    ensures { RepliedAs answers.old answers.new result done.charge at
        (scan_bytes (pairs_of done.pairs)) }
{
    Progress {
        charge: done.charge,
        at: lay_scan(answers, at, done.pairs),
    }
}
