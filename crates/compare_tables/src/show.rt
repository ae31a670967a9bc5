// The line of a table: date, given, first year, years, the sums of the closed days and of the product, the size,
// all 15 maturities, and the sum of the second map where it is not 0.
ghost use Rattle.std.specs.Prelude.{◌<◌};

use compare_text::{end_line, put_maturities, put_number, start_line};
use product::Product;
use table::{Outcome, Table};
use table_measures::Measured;

// The sum of (i + 1) times byte i of a map, mod 65,521. From the last byte on, a byte joins the running sum once for each place from its own to the first.
fn map_sum(map: &[u8; 736]) -> u32 {
    let mut bytes: u32 = 0;
    let mut sum: u32 = 0;
    for i in (0..736).rev() {
        bytes += u32::from(map[i]);
        sum += bytes;
    }
    sum % 65521
}

// 31 times a sum and a number more, mod 65,521.
fn mix(sum: u32, number: u32) -> u32
    requires { (sum < 65521) × (number < 65536) }
    ensures { result < 65521 }
{
    (31 * sum + number) % 65521
}

fn mix_bytes(sum: u32, bytes: [u8; 4]) -> u32
    requires { sum < 65521 }
    ensures { result < 65521 }
{
    let mut mixed = sum;
    for byte in bytes {
        mixed = mix(mixed, u32::from(byte));
    }
    mixed
}

// The sum of a product's fields but its size.
fn product_sum(p: Product) -> u32 {
    let id = p.id;
    let group = p.group;
    let market = p.market;
    let currency = p.currency;
    let kind = p.kind;
    let ids = mix_bytes(0, id);
    let groups = mix_bytes(ids, group);
    let markets = mix_bytes(groups, market);
    let codes = [
        product::kind_number(kind),
        currency[0],
        currency[1],
        currency[2],
    ];
    mix(mix_bytes(markets, codes), p.tick as u32)
}

fn put_second(rt: HostRuntime, sum: u32) {
    if sum == 0 {
        return;
    }
    put_number(rt, sum);
}

pub(crate) fn put_table(rt: HostRuntime, t: Table) {
    let cal = t.calendar;
    let cover = cal.cover;
    let p = t.product;
    let maturities = t.maturities;
    put_number(rt, t.date);
    put_number(rt, t.given);
    put_number(rt, cover.first_year);
    put_number(rt, cover.years);
    put_number(rt, map_sum(&cal.closed));
    put_number(rt, product_sum(p));
    put_number(rt, p.size);
    put_maturities(rt, &maturities);
    put_second(rt, map_sum(&cal.exchange));
}

// Refusal, entered, left and the table.
pub(crate) fn put_outcome(rt: HostRuntime, letter: u8, o: Outcome) {
    let t = o.table;
    start_line(rt, letter);
    put_number(rt, o.refusal as u16);
    put_number(rt, o.entered);
    put_number(rt, o.left);
    put_table(rt, t);
    end_line(rt);
}

// Refusal, the new price and the table.
pub(crate) fn put_measured(rt: HostRuntime, m: Measured) {
    let t = m.table;
    start_line(rt, b'Z');
    put_number(rt, m.refusal as u16);
    put_number(rt, m.price);
    put_table(rt, t);
    end_line(rt);
}
