// The program `deliver`: reads master.bin and notices.txt, and prints the rows of the tables of all products after the notices,
// and the calls that were refused.
#![tactic(auto)]

fn main(rt: HostRuntime) {
    deliver_program::scullpouch_program_deliver(rt);
}
