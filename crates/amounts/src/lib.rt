// Prices and ticks, sizes and prices after a measure, and cash.
#![tactic(auto)]

ghost use Rattle.std.specs.Prelude.{◌≡◌};
ghost use Rattle.amounts.specs.Prices.{price_right, multiple_of, final_right, contracts_right, nearest, new_size, new_price, ratio_right, measure_right, cash_admitted, cash_of};

// Cash: its sign, which covers both numbers, the amount in 1/10,000 and the rest in 1/100,000,000.
#[repr(C)]
#[derive(Clone, Copy)]
pub struct Amount {
    pub negative: bool,
    pub amount: u64,
    pub rest: u16,
}

// Question 19.
pub fn price_right(price: u32) -> bool
    ensures { result ≡ price_right price }
{
    (1 <= price) & (price <= 999999999)
}

// Question 20; a tick of 0 has no multiple.
pub fn is_multiple(price: u32, tick: u16) -> bool
    ensures { result ≡ multiple_of tick price }
{
    tick != 0 && price % (tick as u32) == 0
}

// Question 22, the final price.
pub fn final_right(price: u32) -> bool
    ensures { result ≡ final_right price }
{
    price <= 999999999
}

// Question 22, the contracts.
pub fn contracts_right(contracts: u32) -> bool
    ensures { result ≡ contracts_right contracts }
{
    (1 <= contracts) & (contracts <= 100000)
}

// The whole number nearest to a / b, halves upward; 0 where b is 0.
pub fn nearest_to(a: u64, b: u64) -> u64
    ensures { result ≡ nearest a b }
{
    if b == 0 {
        return 0;
    }
    let rest = a % b;
    if rest < b - rest {
        return a / b;
    }
    a / b + 1
}

// The size after a measure of p for q, in ten-thousandths of a share; 0 where q is 0.
pub fn new_size(size: u32, p: u16, q: u16) -> u64
    ensures { result ≡ new_size size p q }
{
    nearest_to((size as u64) * (p as u64), q as u64)
}

// The price after a measure that changed a size; 0 where the changed size is 0.
pub fn new_price(price: u32, size: u32, changed: u32) -> u64
    ensures { result ≡ new_price price size changed }
{
    nearest_to((price as u64) * (size as u64), changed as u64)
}

// Question 28.
pub fn ratio_right(p: u16, q: u16) -> bool
    ensures { result ≡ ratio_right p q }
{
    (1 <= p) & (p <= 1000) & (1 <= q) & (q <= 1000)
}

// Question 29. The new size is compared before it is narrowed.
pub fn measure_right(size: u32, p: u16, q: u16, price: u32) -> bool
    ensures { result ≡ measure_right size p q price }
{
    let changed = new_size(size, p, q);
    if !((1 <= changed) & (changed <= 655359999)) {
        return false;
    }
    let moved = new_price(price, size, changed as u32);
    (1 <= moved) & (moved <= 999999999)
}

// The numbers that cash is defined for.
pub fn cash_admitted(contracts: u32, size: u32, agreed: u32, final_price: u32) -> bool
    ensures { result ≡ cash_admitted contracts size agreed final_price }
{
    price_right(agreed)
        & final_right(final_price)
        & contracts_right(contracts)
        & product::size_right(size)
}

// Cash, positive where the seller pays the buyer; zeros for numbers that are not admitted.
// The size is taken apart into shares and ten-thousandths: contracts × size × (final − agreed) does not fit 64 bits.
pub fn cash(contracts: u32, size: u32, agreed: u32, final_price: u32) -> Amount
    ensures { result ≡ cash_of contracts size agreed final_price }
{
    if !cash_admitted(contracts, size, agreed, final_price) {
        return Amount {
            negative: false,
            amount: 0,
            rest: 0,
        };
    }
    let change = (contracts as u64) * (agreed.abs_diff(final_price) as u64);
    let whole = (size / 10000) as u64;
    let part = (size % 10000) as u64;
    let parts = change * part;
    Amount {
        negative: final_price < agreed,
        amount: change * whole + parts / 10000,
        rest: (parts % 10000) as u16,
    }
}
