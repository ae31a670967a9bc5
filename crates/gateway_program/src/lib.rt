// What the program `gateway` does: what its arguments ask for, a run or a text, and the status with which it ends.
#![tactic(auto)]

use program_arguments::Request;
use program_help::Program;

// `gateway`: its argument is the number of blocks. Another one than those that it knows, or none, is no number.
pub fn scullpouch_program_gateway(rt: HostRuntime) -> i32 {
    let none = streams::nothing_sent();
    let status = match program_arguments::asked_for(rt) {
        Request::Nothing | Request::Other => gateway_by_number(rt),
        Request::Help => program_arguments::shown(Program::Gateway.write_help(rt, none)),
        Request::Version => program_arguments::shown(Program::Gateway.write_version(rt, none)),
    };
    status as i32
}

// A run of `gateway`. Where its argument is no number it answers `NO 1` without reading, and the arguments are wrong.
fn gateway_by_number(rt: HostRuntime) -> u8 {
    let number = gateway_run::number_said(rt);
    let ended = gateway_run::run(rt, number);
    if number == 0 {
        return 2;
    }
    ended.status
}
