// What the program `decompose` does: what its arguments ask for, a run or a text, and the status with which it ends.
#![tactic(auto)]

use program_help::Program;

// `decompose`: a run of it, or what it says of itself.
pub fn scullpouch_program_decompose(rt: HostRuntime) -> i32 {
    let run = |rt: HostRuntime| -> u8 { decompose_run::run(rt).status };
    program_arguments::answered(rt, Program::Decompose, run) as i32
}
