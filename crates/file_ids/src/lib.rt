// The places of a master file that hold records, and the ids there: question 8.
#![tactic(auto)]

ghost use Rattle.std.specs.Prelude.{◌≡◌, ◌≤◌, true};
ghost use Rattle.std.specs.Option.{MatchOption};
ghost use Rattle.file_ids.specs.Ids.{place_count, is_record, record_count, id_at, id_rises, ids_rise};

// Whether a place of the file holds a record. Place p is record p % 15 of block p / 15.
pub fn is_record(file: &[u8], p: usize) -> bool
    ensures { result ≡ is_record file.now p }
{
    let b = file_blocks::block_at(file, p / 15);
    (file_blocks::byte_at(b, 0) == 2) & (p % 15 < file_blocks::number_at(b, 2))
}

// How many records the file has.
pub fn record_count(file: &[u8]) -> usize
    ensures { (result ≡ record_count file.now) × (result ≤ place_count file.now) }
{
    (0..15 * (file.len() / 512))
        .filter(|p| is_record(file, *p))
        .count()
}

// The id at a place.
pub fn id_at(file: &[u8], p: usize) -> file_records::FourBytes
    ensures { result ≡ id_at file.now p }
{
    file_records::four_at(file_records::record_at(file, p / 15, p % 15), 0)
}

// Whether the second of two ids is greater.
pub fn id_rises(a: [u8; 4], b: [u8; 4]) -> bool
    ensures { result ≡ id_rises a b }
{
    a < b
}

// Whether the id at a place is greater than that at the last place with a record before it; yes where there is none.
fn follows(file: &[u8], last: Option<usize>, p: usize) -> bool
    ensures { MatchOption last (result ≡ true) (λ q. result ≡ id_rises (id_at file.now q) (id_at file.now p)) }
{
    last.is_none_or(|q| id_rises(id_at(file, q), id_at(file, p)))
}

// Question 8: each id is compared with the one before it.
pub fn ids_rise(file: &[u8]) -> bool
    ensures { result ≡ ids_rise file.now }
{
    let mut last = None;
    for p in 0..15 * (file.len() / 512) {
        if is_record(file, p) {
            if !follows(file, last, p) {
                return false;
            }
            last = Some(p);
        }
    }
    true
}
