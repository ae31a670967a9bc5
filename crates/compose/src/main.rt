// The program `compose`: reads a list from standard input and writes the master file of what it says to standard output, or one line to standard error.
#![tactic(auto)]

fn main(rt: HostRuntime) {
    compose_program::scullpouch_program_compose(rt);
}
