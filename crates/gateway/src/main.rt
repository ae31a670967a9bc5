// The program `gateway`: loads the master file on standard input with one block of memory. Its argument is the number of blocks.
// It has no other argument than the installed one (`programs`), since writing a text of help takes more memory than a run.
#![tactic(auto)]

fn main(rt: HostRuntime) {
    gateway_run::run(rt, gateway_run::number_said(rt));
}
