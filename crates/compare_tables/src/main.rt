// Runs a script of table calls on master files and prints every outcome. The second program writes the same text.
#![tactic(auto)]

mod calls;
mod damage;
mod histories;
mod reading;
mod show;
mod value_calls;

use compare_text::{end_line, open_read, start_line};
use reading::{four, two};
use std::fs::File;
use table::Table;

// The letters of the operations.
const OPEN: u8 = b'O';

const ROLL: u8 = b'R';

const CLOSE: u8 = b'C';

const REOPEN: u8 = b'E';

const MEASURE: u8 = b'Z';

const DAMAGE: u8 = b'D';

const HISTORY: u8 = b'H';

const SAVE: u8 = b'S';

const RESTORE: u8 = b'B';

// The table of the script and the saved one.
#[derive(Clone, Copy)]
pub struct State {
    pub table: Table,
    pub saved: Table,
}

// The operations that may change the table.
fn table_step(rt: HostRuntime, from: &mut File, bytes: [u8; 16], t: Table) -> Table {
    let operation = bytes[0];
    let number = two(bytes[2], bytes[3]);
    let value = four(bytes[4], bytes[5], bytes[6], bytes[7]);
    match operation {
        OPEN => calls::open(rt, bytes),
        ROLL => calls::shown(rt, operation, t.roll(number)),
        CLOSE => calls::shown(rt, operation, t.close(number)),
        REOPEN => calls::shown(rt, operation, t.reopen(number)),
        MEASURE => calls::measure(rt, t, bytes),
        DAMAGE => damage::damage(rt, t, bytes[1], number, value),
        HISTORY => histories::run(rt, from, bytes),
        _ => t,
    }
}

// One record of the script.
fn step(rt: HostRuntime, from: &mut File, bytes: [u8; 16], state: State) -> State {
    let operation = bytes[0];
    let t = state.table;
    let saved = state.saved;
    if operation == SAVE {
        start_line(rt, b'S');
        end_line(rt);
        return State { table: t, saved: t };
    }
    if operation == RESTORE {
        start_line(rt, b'B');
        end_line(rt);
        return State {
            table: saved,
            saved: saved,
        };
    }
    value_calls::print(rt, bytes, t);
    let next = table_step(rt, from, bytes, t);
    State {
        table: next,
        saved: saved,
    }
}

fn run_script(rt: HostRuntime, from: &mut File) {
    let empty = calls::no_table();
    let mut state = State {
        table: empty,
        saved: empty,
    };
    for _ in 0..1000000 {
        let Some(bytes) = reading::next(from) else {
            break;
        };
        state = step(rt, from, bytes, state);
    }
}

fn main(rt: HostRuntime) {
    if let Some(mut script) = open_read(rt, b"script.bin") {
        run_script(rt, &mut script);
    }
}
