// The calls of a script that give values.
use crate::reading::{four, two};
use amounts::Amount;
use compare_text::{end_line, put_number, start_line};
use table::Table;

// The letters of the operations.
const LAST_TRADING_DAY: u8 = b'L';

const DUE: u8 = b'U';

const TICK: u8 = b'T';

const CASH: u8 = b'Q';

fn last_trading_day(rt: HostRuntime, t: Table, key: u16) {
    let r = table_values::last_trading_day(t, key);
    start_line(rt, b'L');
    put_number(rt, r.refusal as u16);
    put_number(rt, r.day);
    put_number(rt, r.back);
    end_line(rt);
}

fn due(rt: HostRuntime, t: Table, day: u16) {
    let r = table_values::due(t, day);
    start_line(rt, b'U');
    put_number(rt, r.refusal as u16);
    put_number(rt, r.day);
    end_line(rt);
}

fn tick(rt: HostRuntime, t: Table, price: u32) {
    let refusal = table_prices::tick(t, price);
    start_line(rt, b'T');
    put_number(rt, refusal as u16);
    end_line(rt);
}

// 1 where the sign is negative and 0 where it is positive, the amount and the rest.
fn put_cash(rt: HostRuntime, cash: Amount) {
    if cash.negative {
        put_number(rt, 1);
    } else {
        put_number(rt, 0);
    }
    put_number(rt, cash.amount);
    put_number(rt, cash.rest);
}

fn cash(rt: HostRuntime, t: Table, contracts: u32, agreed: u32, last: u32) {
    let r = table_prices::cash(t, contracts, agreed, last);
    let cash = r.cash;
    start_line(rt, b'Q');
    put_number(rt, r.refusal as u16);
    put_cash(rt, cash);
    end_line(rt);
}

// Refusal and value of a record's call, where it is one of these.
pub(crate) fn print(rt: HostRuntime, bytes: [u8; 16], t: Table) {
    let operation = bytes[0];
    let number = two(bytes[2], bytes[3]);
    let first = four(bytes[4], bytes[5], bytes[6], bytes[7]);
    let second = four(bytes[8], bytes[9], bytes[10], bytes[11]);
    let third = four(bytes[12], bytes[13], bytes[14], bytes[15]);
    match operation {
        LAST_TRADING_DAY => last_trading_day(rt, t, number),
        DUE => due(rt, t, number),
        TICK => tick(rt, t, first),
        CASH => cash(rt, t, first, second, third),
        _ => {}
    }
}
