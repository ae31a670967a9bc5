// What the program `compose` does: what its arguments ask for, a run or a text, and the status with which it ends.
#![tactic(auto)]

use program_help::Program;

// `compose`: a run of it, or what it says of itself.
pub fn scullpouch_program_compose(rt: HostRuntime) -> i32 {
    let run = |rt: HostRuntime| -> u8 { compose_run::run(rt).status };
    program_arguments::answered(rt, Program::Compose, run) as i32
}
