// The program `deliver` as it is installed: it knows `--help` and `--version`, and ends with the status of its run.
#![tactic(auto)]

use std::process::ExitCode;

fn main(rt: HostRuntime) -> ExitCode {
    let status = deliver_program::scullpouch_program_deliver(rt);
    ExitCode::from(u8::try_from(status).unwrap_or(2))
}
