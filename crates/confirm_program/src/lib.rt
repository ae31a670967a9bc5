// What the program `confirm` does: what its arguments ask for, a run or a text, and the status with which it ends.
#![tactic(auto)]

use program_help::Program;

// `confirm`: a run of it, or what it says of itself.
pub fn scullpouch_program_confirm(rt: HostRuntime) -> i32 {
    let run = |rt: HostRuntime| -> u8 { confirm_run::run(rt).status };
    program_arguments::answered(rt, Program::Confirm, run) as i32
}
