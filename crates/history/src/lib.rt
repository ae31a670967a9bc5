// The answer of a call, whatever its kind.
#![tactic(auto)]

use table::Table;

// What a call gives back: the number of its refusal, 0 where it is accepted, the table,
// the counts of months that entered and that left, and the price of a measure.
#[derive(Clone, Copy)]
pub struct Called {
    pub refusal: u8,
    pub table: Table,
    pub entered: u16,
    pub left: u16,
    pub price: u32,
}
