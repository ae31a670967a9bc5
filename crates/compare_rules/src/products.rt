// Groups, days to settlement, ticks and cash.
use compare_text::{end_line, put_answer, put_number, start_line};

// Whether a group is Italian, and an option's days to settlement.
fn group_line(rt: HostRuntime, a: u8, b: u8, tens: u8, ones: u8) {
    let group = [a, b, tens, ones];
    start_line(rt, b'G');
    put_number(rt, a as u16);
    put_number(rt, b as u16);
    put_number(rt, tens as u16);
    put_number(rt, ones as u16);
    put_answer(rt, product::is_italian(group));
    put_number(rt, product::option_days(group) as u16);
    end_line(rt);
}

fn country(rt: HostRuntime, a: u8, b: u8) {
    for i in 0..100u8 {
        group_line(rt, a, b, 48 + i / 10, 48 + i % 10);
    }
    group_line(rt, a, b, 49, 58);
    group_line(rt, a, b, 32, 49);
}

fn tick_line(rt: HostRuntime, price: u32, tick: u16) {
    start_line(rt, b'P');
    put_number(rt, price);
    put_number(rt, tick);
    put_answer(rt, amounts::price_right(price));
    put_answer(rt, amounts::is_multiple(price, tick));
    end_line(rt);
}

fn ticks(rt: HostRuntime, price: u32) {
    tick_line(rt, price, 0);
    tick_line(rt, price, 1);
    tick_line(rt, price, 5);
    tick_line(rt, price, 10);
    tick_line(rt, price, 100);
}

// The numbers, and of their cash the sign, 1 where it is negative, the amount and the rest.
fn cash_line(rt: HostRuntime, contracts: u32, size: u32, agreed: u32, last: u32) {
    let cash = amounts::cash(contracts, size, agreed, last);
    start_line(rt, b'Q');
    put_number(rt, contracts);
    put_number(rt, size);
    put_number(rt, agreed);
    put_number(rt, last);
    put_answer(rt, cash.negative);
    put_number(rt, cash.amount);
    put_number(rt, cash.rest);
    end_line(rt);
}

fn final_prices(rt: HostRuntime, contracts: u32, size: u32, agreed: u32) {
    cash_line(rt, contracts, size, agreed, 0);
    cash_line(rt, contracts, size, agreed, 125000);
    cash_line(rt, contracts, size, agreed, 999999999);
    cash_line(rt, contracts, size, agreed, 1000000000);
}

fn agreed_prices(rt: HostRuntime, contracts: u32, size: u32) {
    final_prices(rt, contracts, size, 0);
    final_prices(rt, contracts, size, 1);
    final_prices(rt, contracts, size, 123400);
    final_prices(rt, contracts, size, 999999999);
    final_prices(rt, contracts, size, 1000000000);
}

// Sizes in ten-thousandths of a share.
fn sizes(rt: HostRuntime, contracts: u32) {
    agreed_prices(rt, contracts, 0);
    agreed_prices(rt, contracts, 1);
    agreed_prices(rt, contracts, 9999);
    agreed_prices(rt, contracts, 10000);
    agreed_prices(rt, contracts, 333333);
    agreed_prices(rt, contracts, 1000000);
    agreed_prices(rt, contracts, 655350000);
    agreed_prices(rt, contracts, 655359999);
    agreed_prices(rt, contracts, 655360000);
}

pub(crate) fn print(rt: HostRuntime) {
    country(rt, 68, 69);
    country(rt, 70, 73);
    country(rt, 70, 82);
    country(rt, 71, 66);
    country(rt, 73, 69);
    country(rt, 73, 84);
    country(rt, 85, 83);
    ticks(rt, 0);
    ticks(rt, 1);
    ticks(rt, 5);
    ticks(rt, 6);
    ticks(rt, 12345);
    ticks(rt, 999999900);
    ticks(rt, 999999999);
    ticks(rt, 1000000000);
    sizes(rt, 0);
    sizes(rt, 1);
    sizes(rt, 3);
    sizes(rt, 100000);
    sizes(rt, 100001);
}
