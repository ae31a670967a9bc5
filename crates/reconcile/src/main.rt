// The program `reconcile`: reads master.bin, notices.txt and rows from standard input,
// and prints where they differ from the tables of all products after the notices.
#![tactic(auto)]

fn main(rt: HostRuntime) {
    reconcile_program::scullpouch_program_reconcile(rt);
}
