// A run of `gateway`: loads the master file on standard input with one block of memory. The number of blocks is said beforehand.
#![tactic(auto)]

mod input;
mod output;

ghost use Rattle.std.specs.Prelude.{◌≡◌};
ghost use Rattle.file_intake_text.specs.GatewayTexts.{GatewaySays, IntakeReached, ended_text};
ghost use Rattle.gateway_run.specs.GatewayRuns.{GatewayEnded};

use file_intake::Intake;
use file_intake_text::Ended;
pub use input::number_said;
pub use output::LineHanded;
use streams::Input;

// What a run ended with, and how far standard input was read.
#[derive(Clone, Copy)]
pub struct BlocksRead {
    pub ended: Ended,
    pub input: Input,
}

// How far standard input was read, what was handed out, and the status.
#[derive(Clone, Copy)]
pub struct GatewayOutcome {
    pub input: Input,
    pub sent: LineHanded,
    pub status: u8,
}

// Hands over the blocks of standard input as they are read, up to its end or to the first that is refused.
// A read that fails is told, and gets 1.
fn read_blocks(rt: HostRuntime, number: u16, announced: Intake) -> BlocksRead
    requires { IntakeReached number announced × (announced.taken ≡ 0) }
    ensures { GatewaySays number result.input (ended_text result.ended) }
{
    let mut block = [0u8; 512];
    let mut state = announced;
    let mut input = streams::nothing_read();
    while 0 < streams::reads_left(input) {
        let read = streams::read_on_or_error(rt, input, 512, &mut block);
        let got = read.part;
        input = got.input;
        if streams::has_failed(input) {
            output::tell_failure(rt, true, true, read.error);
            let ended = file_intake_text::refused(1);
            return BlocksRead { ended, input };
        }
        let n = got.length;
        if n == 0 {
            break;
        }
        let next = state.take(&block[..n]);
        if next.refusal != 0 {
            let ended = file_intake_text::refused(next.refusal);
            return BlocksRead { ended, input };
        }
        state = next.state;
    }
    let ended = file_intake_text::finished(state.finish());
    BlocksRead { ended, input }
}

// Announces the number of blocks; one that is refused is answered before any block is read.
fn load(rt: HostRuntime, number: u16) -> BlocksRead
    ensures { GatewaySays number result.input (ended_text result.ended) }
{
    let first = file_intake::announce(number);
    if first.refusal != 0 {
        let ended = file_intake_text::refused(first.refusal);
        let input = streams::nothing_read();
        return BlocksRead { ended, input };
    }
    let state = first.state;
    read_blocks(rt, number, state)
}

// Loads the file of so many blocks and hands out its line.
pub fn run(rt: HostRuntime, number: u16) -> GatewayOutcome
    ensures { GatewayEnded number result }
{
    let r = load(rt, number);
    let input = r.input;
    let ended = r.ended;
    let sent = output::write_line(rt, number, input, ended);
    let failed = streams::has_failed(input) | !output::is_open(sent);
    let status = program_status::status(failed, ended.refusal != 0);
    GatewayOutcome {
        input,
        sent,
        status,
    }
}
