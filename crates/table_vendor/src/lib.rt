// Listings from elsewhere, judged by a table's fresh listing.
#![tactic(auto)]

ghost use Rattle.std.specs.Prelude.{◌≡◌, ◌*◌, ◌≤◌, eqb, get_or, take, drop, Ok};
ghost use Rattle.listing.specs.Months.{places_of_kind};
ghost use Rattle.table_vendor.specs.Vendor.{entries_of, times, vendor_call, verdict_answer};
ghost use Rattle.table_vendor.specs.VendorPasses.{entry_count, stands_once, lesser, least_listed, least_other, said};

use listing::Maturity;
use product::Kind;
use questions::Refusal;
use table::Table;

// What is said of a list: the smallest key that differs, none where the list is the fresh listing; or the table is not sound (10).
pub type Verdict = Result<Option<u16>, Refusal>;

// A number of the list; one past its end counts as 0.
pub fn list_number(list: &[u16], at: usize) -> u16
    ensures { result ≡ get_or list.now at 0 }
{
    if at < list.len() {
        return list[at];
    }
    0
}

// How many entries the list has: key and day in turn, the last perhaps without a day.
fn entry_count(list: &[u16]) -> usize
    ensures { (result ≡ entry_count list.now) × (2 * result ≤ 18446744073709551616) }
{
    list.len() / 2 + list.len() % 2
}

// Whether a key does not stand in the list from an entry on.
fn is_absent(list: &[u16], from: usize, key: u16) -> bool
    ensures { result ≡ eqb (times (drop from (entries_of list.now)) key) 0 }
{
    let n = entry_count(list);
    for j in from..n {
        if list_number(list, 2 * j) == key {
            return false;
        }
    }
    true
}

// Whether a key stands once in the list, and with this day.
fn stands_once(list: &[u16], key: u16, day: u16) -> bool
    ensures { result ≡ stands_once (entries_of list.now) key day }
{
    let n = entry_count(list);
    for j in 0..n {
        if list_number(list, 2 * j) == key {
            if list_number(list, 2 * j + 1) != day {
                return false;
            }
            return is_absent(list, j + 1, key);
        }
    }
    false
}

// The least key found to differ, after one more was looked at.
fn lesser_of(alike: bool, key: u16, least: u32) -> u32
    ensures { result ≡ lesser alike key least }
{
    if alike {
        return least;
    }
    least.min(u32::from(key))
}

// The least key of the first n maturities that does not stand once in the list with its day; 65,536 where there is none.
fn least_listed(maturities: [Maturity; 15], n: usize, list: &[u16]) -> u32
    requires { n ≤ 15 }
    ensures { result ≡ least_listed (entries_of list.now) (take n maturities) 65536 }
{
    let mut least: u32 = 65536;
    for i in 0..n {
        let m = maturities[i];
        let once = stands_once(list, m.key, m.day);
        least = lesser_of(once, m.key, least);
    }
    least
}

// The least of a key found before and the list's keys that are not listed.
fn least_other(maturities: [Maturity; 15], kind: Kind, list: &[u16], found: u32) -> u32
    ensures { result ≡ least_other (take (places_of_kind kind) maturities) (entries_of list.now) found }
{
    let n = entry_count(list);
    let mut least = found;
    for j in 0..n {
        let key = list_number(list, 2 * j);
        let listed = table_numbering::is_listed(maturities, kind, key);
        least = lesser_of(listed, key, least);
    }
    least
}

// The key that differs, by the least one that was found; none where that is 65,536.
fn key_of(least: u32) -> Option<u16>
    requires { least ≤ 65536 }
    ensures { verdict_answer (Ok result) ≡ said least }
{
    u16::try_from(least).ok()
}

// Whether a list is the table's fresh listing, in any order and each month or Friday once; else the smallest key that differs.
// The list has key and day in turn.
pub fn judge(t: Table, list: &[u16]) -> Verdict
    ensures { verdict_answer result ≡ vendor_call t list.now }
{
    if !table::is_sound(t) {
        return Err(Refusal::Unsound);
    }
    let p = t.product;
    let kind = p.kind;
    let maturities = t.maturities;
    let n = listing::places_of_kind(kind) as usize;
    let found = least_listed(maturities, n, list);
    let least = least_other(maturities, kind, list, found);
    Ok(key_of(least))
}
