// What the program `query` does: what its arguments ask for, a run or a text, and the status with which it ends.
#![tactic(auto)]

use program_help::Program;

// `query`: a run of it, or what it says of itself.
pub fn scullpouch_program_query(rt: HostRuntime) -> i32 {
    let run = |rt: HostRuntime| -> u8 { query_run::run(rt).status };
    program_arguments::answered(rt, Program::Query, run) as i32
}
