// The program `decompose`: reads a master file from standard input and prints its text, or the number of its refusal.
#![tactic(auto)]

fn main(rt: HostRuntime) {
    decompose_program::scullpouch_program_decompose(rt);
}
