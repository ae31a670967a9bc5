// The end of a run that answers one input: what was read, what was written, and the status.
#![tactic(auto)]

ghost use Rattle.std.specs.Prelude.{◌≡◌, false};
ghost use Rattle.program_status.specs.Statuses.{status_of};
ghost use Rattle.program_runs.specs.AnsweredRuns.{failed_in};

use streams::{Input, Sent};

// How far standard input was read, what standard output has taken, and the status.
#[derive(Clone, Copy)]
pub struct AnswerOutcome {
    pub input: Input,
    pub sent: Sent,
    pub status: u8,
}

// What was written of an input, and whether something is refused there.
#[derive(Clone, Copy)]
pub struct Said {
    pub sent: Sent,
    pub refused: bool,
}

// Whether a read of standard input failed, or standard output did not take all.
#[tactic(auto, unfolding(crate::specs::AnsweredRuns::failed_in))]
fn has_failed(input: Input, sent: Sent) -> bool
    ensures { result ≡ failed_in input sent }
{
    streams::has_failed(input) | !streams::is_open(sent)
}

// The end of a run that answered its input.
pub fn ended(input: Input, said: Said) -> AnswerOutcome
    ensures { (result.input ≡ input) × (result.sent ≡ said.sent) × (result.status ≡ status_of (failed_in input said.sent) said.refused) }
{
    let sent = said.sent;
    let status = program_status::status(has_failed(input, sent), said.refused);
    AnswerOutcome {
        input,
        sent,
        status,
    }
}

// The end of a run whose input could not be read: nothing was written of it.
pub fn unread(input: Input) -> AnswerOutcome
    ensures { (result.input ≡ input) × (result.sent.bytes ≡ 0) × (result.status ≡ status_of (failed_in input result.sent) false) }
{
    let sent = streams::nothing_sent();
    ended(
        input,
        Said {
            sent,
            refused: false,
        },
    )
}
