// The differences between the rows that were delivered for one product and the maturities that its table lists.
#![tactic(auto)]

ghost use Rattle.std.specs.Prelude.{◌≡◌, ◌<◌, ◌≤◌, min, length, get_or, take, IfSome};
ghost use Rattle.table_vendor.specs.Vendor.{times};
ghost use Rattle.delivery_differences.specs.Differences.{row_entries, first_row, right_of, why_from, differs_in, difference_of, next_difference, row_at, rows_at};
ghost use Rattle.delivery_differences.specs.DifferencePasses.{row_keys_at, maturity_keys, found_in, times_of, delivered_row, right_found, up_to_two, unlisted, lesser_from, least_of};

use listing::Maturity;

// Why a key differs.
#[derive(Clone, Copy, PartialEq, Eq)]
pub enum Why {
    Same,
    Missing,
    Extra,
    Twice,
    Day,
    Number,
    DaysBack,
}

// A row as it was delivered: the key of a month or a Friday and the last trading day;
// of a full one, which has five fields, also the listing number and the days back.
#[derive(Clone, Copy)]
pub struct DeliveredRow {
    pub key: u16,
    pub day: u16,
    pub full: bool,
    pub number: u16,
    pub back: u16,
}

// The first row with a key, and whether the key was delivered again after it.
#[derive(Clone, Copy)]
struct DeliveredKey {
    row: DeliveredRow,
    again: bool,
}

// Why a key differs, its first row, and the maturity that is right.
#[derive(Clone, Copy)]
pub struct Difference {
    pub why: Why,
    pub delivered: DeliveredRow,
    pub right: Maturity,
}

// Which of some places, counted from 0, is the first whose row has a key; none where no row has it.
fn place_of(places: &[u16], keys: &[u16], key: u16) -> Option<usize>
    ensures found { result ≡ found_in key (row_keys_at keys.now places.now) }
    ensures within { IfSome result (λ i. i < length places.now) }
{
    places.iter().position(|place| table_vendor::list_number(keys, usize::from(*place)) == key)
}

// Row i of five lists.
fn row_at(
    keys: &[u16],
    days: &[u16],
    fulls: &[u8],
    numbers: &[u16],
    backs: &[u16],
    i: usize,
) -> DeliveredRow
    ensures { result ≡ row_at keys.now days.now fulls.now numbers.now backs.now i }
{
    DeliveredRow {
        key: table_vendor::list_number(keys, i),
        day: table_vendor::list_number(days, i),
        full: file_blocks::byte_at(fulls, i) != 0,
        number: table_vendor::list_number(numbers, i),
        back: table_vendor::list_number(backs, i),
    }
}

// The first row with a key of those at some places of five lists, and whether there are more.
fn delivered_of(
    places: &[u16],
    keys: &[u16],
    days: &[u16],
    fulls: &[u8],
    numbers: &[u16],
    backs: &[u16],
    key: u16,
) -> Option<DeliveredKey>
    ensures { (times_of result ≡ up_to_two (times (row_entries (rows_at keys.now days.now fulls.now numbers.now backs.now places.now)) key)) × (delivered_row result ≡ first_row (rows_at keys.now days.now fulls.now numbers.now backs.now places.now) key) }
{
    let first = place_of(places, keys, key)?;
    let row = row_at(
        keys,
        days,
        fulls,
        numbers,
        backs,
        usize::from(places[first]),
    );
    let again = place_of(&places[first + 1..], keys, key).is_some();
    Some(DeliveredKey { row, again })
}

// The maturity with a key among the first n.
fn right_of(maturities: [Maturity; 15], n: usize, key: u16) -> Option<Maturity>
    requires { n ≤ 15 }
    ensures { right_found result ≡ right_of (take n maturities) key }
{
    maturities[..n].iter().find(|m| m.key == key).copied()
}

// Why a key differs that is listed or not and was delivered so.
fn why_from(right: Option<Maturity>, delivered: Option<DeliveredKey>) -> Why
    ensures { result ≡ why_from (right_found right) (times_of delivered) (delivered_row delivered) }
{
    let Some(d) = delivered else {
        return if right.is_some() {
            Why::Missing
        } else {
            Why::Same
        };
    };
    let Some(m) = right else {
        return Why::Extra;
    };
    if d.again {
        return Why::Twice;
    }
    let row = d.row;
    if m.day != row.day {
        return Why::Day;
    }
    if row.full & (m.number != row.number) {
        return Why::Number;
    }
    if row.full & (m.back != row.back) {
        return Why::DaysBack;
    }
    Why::Same
}

// The first row with a key; zeros where there is none.
fn first_or_zeros(delivered: Option<DeliveredKey>) -> DeliveredRow
    ensures { result ≡ delivered_row delivered }
{
    match delivered {
        Some(d) => d.row,
        None => DeliveredRow {
            key: 0,
            day: 0,
            full: false,
            number: 0,
            back: 0,
        },
    }
}

// The maturity that is right; zeros where none is.
fn right_or_zeros(right: Option<Maturity>) -> Maturity
    ensures { result ≡ (right_found right).maturity }
{
    match right {
        Some(m) => m,
        None => Maturity {
            key: 0,
            day: 0,
            back: 0,
            number: 0,
        },
    }
}

// What is told of a key, by the first n maturities and the rows at some places of five lists.
fn told_of(
    maturities: [Maturity; 15],
    n: usize,
    places: &[u16],
    keys: &[u16],
    days: &[u16],
    fulls: &[u8],
    numbers: &[u16],
    backs: &[u16],
    key: u16,
) -> Difference
    requires { n ≤ 15 }
    ensures { result ≡ difference_of (take n maturities) (rows_at keys.now days.now fulls.now numbers.now backs.now places.now) key }
{
    let delivered = delivered_of(places, keys, days, fulls, numbers, backs, key);
    let right = right_of(maturities, n, key);
    Difference {
        why: why_from(right, delivered),
        delivered: first_or_zeros(delivered),
        right: right_or_zeros(right),
    }
}

// The least of a key found before and one more that is not listed, of those from a key on.
fn lesser_unlisted(maturities: [Maturity; 15], n: usize, from: u32, key: u16, least: u32) -> u32
    requires { n ≤ 15 }
    ensures { result ≡ lesser_from (unlisted (take n maturities) key) from key least }
{
    let found = key as u32;
    if found < from {
        return least;
    }
    if least <= found {
        return least;
    }
    if right_of(maturities, n, key).is_some() {
        return least;
    }
    found
}

// The least key from one on that was delivered and is not listed; 65,536 where there is none.
fn least_unlisted(
    maturities: [Maturity; 15],
    n: usize,
    places: &[u16],
    keys: &[u16],
    from: u32,
) -> u32
    requires { n ≤ 15 }
    ensures { result ≡ least_of (unlisted (take n maturities)) from (row_keys_at keys.now places.now) 65536 }
{
    let mut least: u32 = 65536;
    for place in places {
        let key = table_vendor::list_number(keys, usize::from(*place));
        least = lesser_unlisted(maturities, n, from, key, least);
    }
    least
}

// The least of a key found before and a listed one that differs, of those from a key on.
fn lesser_listed(
    maturities: [Maturity; 15],
    n: usize,
    places: &[u16],
    keys: &[u16],
    days: &[u16],
    fulls: &[u8],
    numbers: &[u16],
    backs: &[u16],
    from: u32,
    key: u16,
    least: u32,
) -> u32
    requires { n ≤ 15 }
    ensures { result ≡ lesser_from (differs_in (take n maturities) (rows_at keys.now days.now fulls.now numbers.now backs.now places.now) key) from key least }
{
    let found = key as u32;
    if found < from {
        return least;
    }
    if least <= found {
        return least;
    }
    let told = told_of(
        maturities, n, places, keys, days, fulls, numbers, backs, key,
    );
    if told.why == Why::Same {
        return least;
    }
    found
}

// The least of a key found before and the listed keys that differ, of those from a key on.
fn least_listed(
    maturities: [Maturity; 15],
    n: usize,
    places: &[u16],
    keys: &[u16],
    days: &[u16],
    fulls: &[u8],
    numbers: &[u16],
    backs: &[u16],
    from: u32,
    found: u32,
) -> u32
    requires { n ≤ 15 }
    ensures { result ≡ least_of (differs_in (take n maturities) (rows_at keys.now days.now fulls.now numbers.now backs.now places.now)) from (maturity_keys (take n maturities)) found }
{
    let mut least = found;
    for i in 0..n {
        let m = maturities[i];
        least = lesser_listed(
            maturities, n, places, keys, days, fulls, numbers, backs, from, m.key, least,
        );
    }
    least
}

// How many of 15 maturities the first n are.
fn within(n: usize) -> usize
    ensures { (result ≤ 15) × (result ≡ min n 15) }
{
    n.min(15)
}

// What is told of a key, by the first n of 15 maturities, none for a product without a table, and by the rows at some places of five lists.
pub fn difference_at(
    maturities: [Maturity; 15],
    n: usize,
    places: &[u16],
    keys: &[u16],
    days: &[u16],
    fulls: &[u8],
    numbers: &[u16],
    backs: &[u16],
    key: u16,
) -> Difference
    ensures { result ≡ difference_of (take n maturities) (rows_at keys.now days.now fulls.now numbers.now backs.now places.now) key }
{
    told_of(
        maturities,
        within(n),
        places,
        keys,
        days,
        fulls,
        numbers,
        backs,
        key,
    )
}

// The smallest key that differs from a key on; 65,536 where there is none.
pub fn next_difference(
    maturities: [Maturity; 15],
    n: usize,
    places: &[u16],
    keys: &[u16],
    days: &[u16],
    fulls: &[u8],
    numbers: &[u16],
    backs: &[u16],
    from: u32,
) -> u32
    ensures { result ≡ next_difference (take n maturities) (rows_at keys.now days.now fulls.now numbers.now backs.now places.now) from }
{
    let used = within(n);
    let found = least_unlisted(maturities, used, places, keys, from);
    least_listed(
        maturities, used, places, keys, days, fulls, numbers, backs, from, found,
    )
}
