// What the program `reconcile` does: what its arguments ask for, a run or a text, and the status with which it ends.
#![tactic(auto)]

use program_help::Program;

// `reconcile`: a run of it, or what it says of itself.
pub fn scullpouch_program_reconcile(rt: HostRuntime) -> i32 {
    let run = |rt: HostRuntime| -> u8 { reconcile_run::run(rt).rows.status };
    program_arguments::answered(rt, Program::Reconcile, run) as i32
}
