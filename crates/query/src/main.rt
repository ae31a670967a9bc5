// The program `query`: reads master.bin and notices.txt, and answers the questions of standard input by the tables after the notices.
#![tactic(auto)]

fn main(rt: HostRuntime) {
    query_program::scullpouch_program_query(rt);
}
