// What the program `terms` does: what its arguments ask for, a run or a text, and the status with which it ends.
#![tactic(auto)]

use program_help::Program;

// `terms`: a run of it, or what it says of itself.
pub fn scullpouch_program_terms(rt: HostRuntime) -> i32 {
    let run = |rt: HostRuntime| -> u8 { terms_run::run(rt).status };
    program_arguments::answered(rt, Program::Terms, run) as i32
}
