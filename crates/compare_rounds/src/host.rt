// A host of 200 tables: it opens tables of a master file, and rolls those that a call of the round took.
ghost use Rattle.std.specs.Prelude.{◌≡◌, true};
ghost use Rattle.rounds.specs.Rounds.{queue_right};

use crate::reading::Record;
use compare_text::{end_line, put_number, start_line};
use rounds::Queue;
use table::{Outcome, Table};

const OPEN: u8 = b'O';

// The tables of a host, by their numbers.
#[derive(Clone, Copy)]
pub struct Host {
    pub tables: [Table; 200],
}

// A host that has opened no table.
pub(crate) fn nothing_opened() -> Host {
    let tables = [table::zero_table(); 200];
    Host { tables }
}

// The table's number, the refusal, the date, the counts of months that entered and left, and of numbers given.
fn outcome_line(rt: HostRuntime, letter: u8, number: u16, o: Outcome) {
    let t = o.table;
    start_line(rt, letter);
    put_number(rt, number);
    put_number(rt, o.refusal as u16);
    put_number(rt, t.date);
    put_number(rt, o.entered);
    put_number(rt, o.left);
    put_number(rt, t.given);
    end_line(rt);
}

fn open(rt: HostRuntime, file: &[u8], host: Host, r: Record) -> Host {
    let number = r.number;
    if 199 < number {
        return host;
    }
    let id = r.id;
    let o = table::zero_table().open(file, id, r.second);
    outcome_line(rt, b'O', number, o);
    let t = o.table;
    let mut tables = host.tables;
    tables[number as usize] = t;
    Host { tables }
}

// Rolls the tables that were taken, in their order. Each of their numbers is that of a table.
fn roll_taken(rt: HostRuntime, host: Host, taken: Queue, date: u16) -> Host
    requires { queue_right taken ≡ true }
{
    let numbers = taken.tables;
    let n = taken.count as usize;
    let mut tables = host.tables;
    for i in 0..n {
        let number = numbers[i];
        let place = usize::from(number);
        let o = tables[place].roll(date);
        outcome_line(rt, b'R', number, o);
        tables[place] = o.table;
    }
    Host { tables }
}

// The host after a record of the script.
pub(crate) fn step(rt: HostRuntime, file: &[u8], host: Host, r: Record, taken: Queue) -> Host
    requires { queue_right taken ≡ true }
{
    if r.letter == OPEN {
        return open(rt, file, host, r);
    }
    roll_taken(rt, host, taken, r.second)
}
