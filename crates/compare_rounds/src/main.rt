// A morning's round: runs a script of calls on a queue of tables and rolls the tables of a master file that the calls take.
// The second program writes the same text.
#![tactic(auto)]

mod calls;
mod host;
mod reading;

use compare_text::open_read;
use rounds::Queue;
use std::fs::File;

fn run(rt: HostRuntime, from: &mut File, file: &[u8]) {
    let mut queue = Queue::empty();
    let mut host = host::nothing_opened();
    for _ in 0..1000000 {
        let Some(r) = reading::next(from) else {
            break;
        };
        let c = calls::step(rt, queue, r);
        queue = c.queue;
        host = host::step(rt, file, host, r, c.taken);
    }
}

fn main(rt: HostRuntime) {
    let mut file = io::large_buffer();
    let n = reading::read_master(rt, &mut file);
    if let Some(mut script) = open_read(rt, b"script.bin") {
        run(rt, &mut script, &file[..n]);
    }
}
