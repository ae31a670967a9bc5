// Calls about prices that leave the table as it is: tick and cash.
#![tactic(auto)]

ghost use Rattle.std.specs.Prelude.{◌≡◌};
ghost use Rattle.table_prices.specs.TablePrices.{cash_reply, no_cash, tick_call, cash_call};

use amounts::Amount;
use table::{Table, is_sound};

// The number of a refusal, or 0 and the cash, positive where the seller pays the buyer.
#[repr(C)]
#[derive(Clone, Copy)]
pub struct CashReply {
    pub refusal: u8,
    pub cash: Amount,
}

fn no_cash(number: u8) -> CashReply
    ensures { cash_reply result ≡ no_cash number }
{
    CashReply {
        refusal: number,
        cash: Amount {
            negative: false,
            amount: 0,
            rest: 0,
        },
    }
}

// The number of a refusal, or 0 where a price passes.
pub fn tick(t: Table, price: u32) -> u8
    ensures { result ≡ tick_call t price }
{
    if !is_sound(t) {
        return 10;
    }
    if !amounts::price_right(price) {
        return 19;
    }
    if !amounts::is_multiple(price, t.product.tick) {
        return 20;
    }
    0
}

// The cash of a future.
pub fn cash(t: Table, contracts: u32, agreed: u32, final_price: u32) -> CashReply
    ensures { cash_reply result ≡ cash_call t contracts agreed final_price }
{
    if !is_sound(t) {
        return no_cash(10);
    }
    if !amounts::price_right(agreed) {
        return no_cash(19);
    }
    let p = t.product;
    let kind = p.kind;
    if !amounts::is_multiple(agreed, p.tick) {
        return no_cash(20);
    }
    if !product::is_future(kind) {
        return no_cash(21);
    }
    if !(amounts::final_right(final_price) & amounts::contracts_right(contracts)) {
        return no_cash(22);
    }
    let cash = amounts::cash(contracts, p.size, agreed, final_price);
    CashReply { refusal: 0, cash }
}
