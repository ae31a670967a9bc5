// What the program `deliver` does: what its arguments ask for, a run or a text, and the status with which it ends.
#![tactic(auto)]

use program_help::Program;

// `deliver`: a run of it, or what it says of itself.
pub fn scullpouch_program_deliver(rt: HostRuntime) -> i32 {
    let run = |rt: HostRuntime| -> u8 { deliver_run::run(rt).status };
    program_arguments::answered(rt, Program::Deliver, run) as i32
}
