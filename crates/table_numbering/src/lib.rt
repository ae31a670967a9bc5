// The places of a table: which months are listed, have entered or left, the numbers they have, and whether they are the fresh listing.
#![tactic(auto)]

ghost use Rattle.std.specs.Prelude.{◌≡◌, cond, ◌+◌, ◌≤◌, ◌<◌, leb, length, take};
ghost use Rattle.questions.specs.Search.{every};
ghost use Rattle.listing.specs.Rules.{places15};
ghost use Rattle.listing.specs.Months.{places_of_kind};
ghost use Rattle.table_numbering.specs.Numbering.{place_right, is_listed, number_of, missing, renumbered, numbered_fresh, numbers_right, unlike_before, number_right, with_number};

use listing::{Maturity, Places};
use product::Kind;

// A maturity with its number, and the count of numbers given after it.
#[derive(Clone, Copy)]
pub struct NumberedMaturity {
    pub maturity: Maturity,
    pub given: u16,
}

// Whether place i has the fresh month, day and days stepped back, and a number only where it is used.
fn is_place_right(maturities: [Maturity; 15], fresh: [Maturity; 15], n: usize, i: usize) -> bool
    requires { i < 15 }
    ensures { result ≡ place_right maturities fresh n i }
{
    let m = maturities[i];
    let f = fresh[i];
    m.key == f.key && m.day == f.day && m.back == f.back && (i < n || m.number == 0)
}

// Whether all places are right.
pub fn are_places_right(maturities: [Maturity; 15], fresh: [Maturity; 15], kind: Kind) -> bool
    ensures { result ≡ every 15 (place_right maturities fresh (places_of_kind kind)) }
{
    let n = listing::places_of_kind(kind) as usize;
    (0..15).all(|i| is_place_right(maturities, fresh, n, i))
}

// Whether a month is among the maturities.
fn is_among(maturities: &[Maturity], key: u16) -> bool
    ensures { result ≡ is_listed maturities.now key }
{
    maturities.iter().any(|m| m.key == key)
}

// Whether a month is in the places that a kind uses.
pub fn is_listed(maturities: [Maturity; 15], kind: Kind, key: u16) -> bool
    ensures { result ≡ is_listed (take (places_of_kind kind) maturities) key }
{
    let n = listing::places_of_kind(kind) as usize;
    is_among(&maturities[..n], key)
}

// How many of the maturities have a month that the others have not.
fn count_absent(maturities: &[Maturity], others: &[Maturity]) -> u16
    requires { length maturities.now ≤ 15 }
    ensures { (result ≡ length (missing maturities.now others.now)) × (result ≤ 15) }
{
    maturities
        .iter()
        .filter(|m| !is_among(others, m.key))
        .count() as u16
}

// How many of the maturities in the places that a kind uses have a month that those of others have not.
pub fn count_missing(maturities: [Maturity; 15], others: [Maturity; 15], kind: Kind) -> u16
    ensures { (result ≡ length (missing (take (places_of_kind kind) maturities) (take (places_of_kind kind) others))) × (result ≤ 15) }
{
    let n = listing::places_of_kind(kind) as usize;
    count_absent(&maturities[..n], &others[..n])
}

// A month that was there keeps its number, and one that enters takes the next.
fn numbered(old: &[Maturity], m: Maturity, given: u16) -> NumberedMaturity
    requires { given < 65535 }
    ensures { (result.maturity ≡ with_number m (cond (is_listed old.now m.key) (number_of old.now m.key) (given + 1))) × (result.given ≡ cond (is_listed old.now m.key) given (given + 1)) }
{
    let key = m.key;
    match old.iter().find(|o| o.key == key) {
        Some(same) => NumberedMaturity {
            maturity: Maturity {
                number: same.number,
                ..m
            },
            given,
        },
        None => NumberedMaturity {
            maturity: Maturity {
                number: given + 1,
                ..m
            },
            given: given + 1,
        },
    }
}

// The fresh maturities with their numbers, after the old ones and the count given.
fn number_fresh(old: &[Maturity], fresh: &[Maturity], given: u16) -> Places
    requires { (length fresh.now ≤ 15) × (given ≤ 60000) }
    ensures { result ≡ places15 (renumbered old.now given fresh.now) }
{
    let mut maturities = listing::unused_places();
    let mut given_so_far = given;
    for (i, m) in fresh.iter().enumerate() {
        let s = numbered(old, *m, given_so_far);
        maturities[i] = s.maturity;
        given_so_far = s.given;
    }
    maturities
}

// The fresh maturities in the places that a kind uses, with their numbers. A count given above 60,000, which no sound table has, leaves the old ones.
pub fn renumber(old: Places, fresh: Places, kind: Kind, given: u16) -> Places
    ensures { result ≡ cond (leb given 60000) (places15 (renumbered (take (places_of_kind kind) old) given (take (places_of_kind kind) fresh))) old }
{
    if 60000 < given {
        return old;
    }
    let n = listing::places_of_kind(kind) as usize;
    number_fresh(&old[..n], &fresh[..n], given)
}

// The fresh maturities in the places that a kind uses, numbered 1, 2, ..
pub fn number_opened(fresh: Places, kind: Kind) -> Places
    ensures { result ≡ places15 (numbered_fresh (take (places_of_kind kind) fresh)) }
{
    let n = listing::places_of_kind(kind) as usize;
    number_fresh(&[], &fresh[..n], 0)
}

// Whether no place before i has the number of place i.
fn is_unlike_before(maturities: [Maturity; 15], i: usize) -> bool
    requires { i < 15 }
    ensures { result ≡ unlike_before maturities i }
{
    let last = maturities[i];
    maturities[..i].iter().all(|m| m.number != last.number)
}

// Whether the number of place i is from 1 to given, and no place before it has it.
fn is_number_right(maturities: [Maturity; 15], given: u16, i: usize) -> bool
    requires { i < 15 }
    ensures { result ≡ number_right maturities given i }
{
    let m = maturities[i];
    1 <= m.number && m.number <= given && is_unlike_before(maturities, i)
}

// Whether the numbers of the first n places are distinct and from 1 to given.
fn are_first_right(maturities: [Maturity; 15], n: usize, given: u16) -> bool
    requires { n ≤ 15 }
    ensures { result ≡ numbers_right maturities n given }
{
    (0..n).all(|i| is_number_right(maturities, given, i))
}

// Whether the numbers in the places that a kind uses are distinct and from 1 to given.
pub fn are_numbers_right(maturities: [Maturity; 15], kind: Kind, given: u16) -> bool
    ensures { result ≡ numbers_right maturities (places_of_kind kind) given }
{
    let n = listing::places_of_kind(kind) as usize;
    are_first_right(maturities, n, given)
}
