// Splits and reductions: the measure on a table of a future.
#![tactic(auto)]

ghost use Rattle.std.specs.Prelude.{◌≡◌};
ghost use Rattle.table_measures.specs.Measures.{resized, unmeasured, measure_call};

use table::Table;

// What a measure gives back: the number of its refusal, 0 where it is accepted, the table, and the new price, 0 with a refusal.
#[derive(Clone, Copy)]
pub struct Measured {
    pub refusal: u8,
    pub table: Table,
    pub price: u32,
}

// The same table with the number of a question and price 0.
fn refused(t: Table, number: u8) -> Measured
    ensures { result ≡ unmeasured t number }
{
    Measured {
        refusal: number,
        table: t,
        price: 0,
    }
}

// The table with another size of its product.
fn resize(t: Table, size: u32) -> Table
    ensures { result ≡ resized t size }
{
    let mut product = t.product;
    product.size = size;
    let mut changed = t;
    changed.product = product;
    changed
}

// A measure of p for q on a future, with the price before it.
pub fn measure(t: Table, p: u16, q: u16, price: u32) -> Measured
    ensures { result ≡ measure_call t p q price }
{
    if !table::is_sound(t) {
        return refused(t, 10);
    }
    if !amounts::price_right(price) {
        return refused(t, 19);
    }
    let product = t.product;
    let kind = product.kind;
    let size = product.size;
    if !product::is_future(kind) {
        return refused(t, 21);
    }
    if !amounts::ratio_right(p, q) {
        return refused(t, 28);
    }
    if !amounts::measure_right(size, p, q, price) {
        return refused(t, 29);
    }
    let changed = amounts::new_size(size, p, q) as u32;
    let moved = amounts::new_price(price, size, changed) as u32;
    Measured {
        refusal: 0,
        table: resize(t, changed),
        price: moved,
    }
}
