// The calls of a script on the table.
use crate::reading::{four, read_master, two};
use crate::show::{put_measured, put_outcome};
use table::{Outcome, Table};

// The table of zeros that open gives back for an empty file.
pub(crate) fn no_table() -> Table {
    table::zero_table().open(b"", [0, 0, 0, 0], 0).table
}

pub(crate) fn open(rt: HostRuntime, bytes: [u8; 16]) -> Table {
    let id = [bytes[4], bytes[5], bytes[6], bytes[7]];
    let mut file = io::large_buffer();
    let n = read_master(rt, bytes[1], &mut file);
    let o = table::zero_table().open(&file[..n], id, two(bytes[2], bytes[3]));
    shown(rt, b'O', o)
}

// Prints what a call gave back, and gives its table.
pub(crate) fn shown(rt: HostRuntime, letter: u8, o: Outcome) -> Table {
    put_outcome(rt, letter, o);
    o.table
}

// p, q and the price stand where cash has its three numbers.
pub(crate) fn measure(rt: HostRuntime, t: Table, bytes: [u8; 16]) -> Table {
    let p = two(bytes[6], bytes[7]);
    let q = two(bytes[10], bytes[11]);
    let price = four(bytes[12], bytes[13], bytes[14], bytes[15]);
    let m = table_measures::measure(t, p, q, price);
    put_measured(rt, m);
    m.table
}
