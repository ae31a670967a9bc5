// The program `terms`: reads master.bin and commands from standard input, and prints the answers.
#![tactic(auto)]

fn main(rt: HostRuntime) {
    terms_program::scullpouch_program_terms(rt);
}
