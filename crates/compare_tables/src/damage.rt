// Tables with one field changed.
ghost use Rattle.std.specs.Prelude.{◌<◌};

use calendar::Calendar;
use compare_text::{end_line, put_number, start_line};
use listing::Maturity;
use product::{Kind, Product};
use table::Table;

// The numbers of the fields.
const ID: u8 = 0;

const GROUP: u8 = 1;

const MARKET: u8 = 2;

const KIND: u8 = 3;

const SIZE: u8 = 4;

const TICK: u8 = 5;

const CURRENCY: u8 = 6;

const FIRST_YEAR: u8 = 7;

const YEARS: u8 = 8;

const CLOSED: u8 = 9;

const DATE: u8 = 10;

const KEY: u8 = 11;

const DAY: u8 = 12;

const BACK: u8 = 13;

const NUMBER: u8 = 14;

const GIVEN: u8 = 15;

const EXCHANGE: u8 = 16;

// Four bytes with another one at place i.
fn with_byte(bytes: [u8; 4], i: u16, byte: u8) -> [u8; 4] {
    if 4 <= i {
        return bytes;
    }
    let mut changed = bytes;
    changed[i as usize] = byte;
    changed
}

// Another kind, where the number is one of a kind.
fn with_kind(p: Product, number: u8) -> Product {
    let Ok(kind) = Kind::try_from(number) else {
        return p;
    };
    Product { kind, ..p }
}

fn with_currency(p: Product, i: u16, byte: u8) -> Product {
    if 3 <= i {
        return p;
    }
    let mut currency = p.currency;
    currency[i as usize] = byte;
    Product { currency, ..p }
}

// The product with one field changed.
fn damage_product(p: Product, field: u8, i: u16, value: u32) -> Product {
    let byte = (value % 256) as u8;
    match field {
        ID => Product {
            id: with_byte(p.id, i, byte),
            ..p
        },
        GROUP => Product {
            group: with_byte(p.group, i, byte),
            ..p
        },
        MARKET => Product {
            market: with_byte(p.market, i, byte),
            ..p
        },
        KIND => with_kind(p, byte),
        SIZE => Product { size: value, ..p },
        TICK => Product {
            tick: (value % 65536) as u16,
            ..p
        },
        CURRENCY => with_currency(p, i, byte),
        _ => p,
    }
}

// A map with the bits of a value turned over in byte i.
fn with_flipped(map: [u8; 736], i: u16, byte: u8) -> [u8; 736] {
    let mut changed = map;
    if i < 736 {
        changed[usize::from(i)] ^= byte;
    }
    changed
}

// The calendar with one field changed.
fn damage_calendar(cal: Calendar, field: u8, i: u16, value: u16) -> Calendar {
    let mut changed = cal;
    match field {
        FIRST_YEAR => changed.cover.first_year = value,
        YEARS => changed.cover.years = value,
        CLOSED => changed.closed = with_flipped(cal.closed, i, (value % 256) as u8),
        EXCHANGE => changed.exchange = with_flipped(cal.exchange, i, (value % 256) as u8),
        _ => (),
    }
    changed
}

// A maturity with its key, day, days stepped back or number changed.
fn damage_maturity(m: Maturity, field: u8, value: u16) -> Maturity {
    match field {
        KEY => Maturity { key: value, ..m },
        DAY => Maturity { day: value, ..m },
        BACK => Maturity { back: value, ..m },
        NUMBER => Maturity { number: value, ..m },
        _ => m,
    }
}

fn damage_maturities(maturities: [Maturity; 15], field: u8, i: u16, value: u16) -> [Maturity; 15] {
    if 15 <= i {
        return maturities;
    }
    let mut changed = maturities;
    let old = maturities[i as usize];
    changed[i as usize] = damage_maturity(old, field, value);
    changed
}

// The number, or the other one where the fields are the same.
fn number_if(field: u8, changed: u8, number: u16, value: u16) -> u16 {
    if field == changed {
        return value;
    }
    number
}

// The table with one field changed: i is the place in it, where it has places. All fields but the size have 16 bits or fewer.
pub(crate) fn damage(rt: HostRuntime, t: Table, field: u8, i: u16, value: u32) -> Table {
    let p = t.product;
    let cal = t.calendar;
    let old = t.maturities;
    start_line(rt, b'D');
    put_number(rt, field as u16);
    put_number(rt, i);
    put_number(rt, value);
    end_line(rt);
    let short = (value % 65536) as u16;
    let product = damage_product(p, field, i, value);
    let calendar = damage_calendar(cal, field, i, short);
    let maturities = damage_maturities(old, field, i, short);
    Table {
        product,
        calendar,
        date: number_if(field, DATE, t.date, short),
        maturities,
        given: number_if(field, GIVEN, t.given, short),
    }
}
