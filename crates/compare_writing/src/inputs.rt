// What a file is written from.
ghost use Rattle.std.specs.Prelude.{◌≤◌, ◌<◌};

use calendar::{Calendar, Cover};

// The map that begins at a byte of a draft.
fn map_at(head: &[u8], at: usize) -> [u8; 736]
    requires { at ≤ 65536 }
{
    let mut map = [0u8; 736];
    for i in 0..736 {
        map[i] = file_blocks::byte_at(head, at + i);
    }
    map
}

// The calendar of a draft.
pub(crate) fn calendar_at(head: &[u8]) -> Calendar {
    let closed = map_at(head, 12);
    let exchange = map_at(head, 748);
    Calendar {
        cover: Cover {
            first_year: file_records::field_at(head, 0),
            years: file_records::field_at(head, 2),
        },
        closed,
        exchange,
    }
}

// A number of four bytes.
pub(crate) fn length_at(head: &[u8], at: u16) -> usize
    requires { at < 65000 }
{
    65536 * file_blocks::number_at(head, at) + file_blocks::number_at(head, at + 2)
}

// Puts a record after the others, where there is room; the end of them.
fn put_record(records: &mut [u8], at: usize, bytes: [u8; 32]) -> usize {
    if records.len() < 32 {
        return at;
    }
    if records.len() - 32 < at {
        return at;
    }
    records[at..at + 32].copy_from_slice(&bytes);
    at + 32
}

// The same of the record at a place of a file, where it holds one.
fn put_place(file: &[u8], p: usize, records: &mut [u8], at: usize) -> usize {
    if !file_ids::is_record(file, p) {
        return at;
    }
    let record = file_write::record_of(file_load::product_at(file, p / 15, p % 15));
    put_record(records, at, record)
}

// The records of a file, each made from its product's fields; their length.
pub(crate) fn put_records(file: &[u8], records: &mut [u8]) -> usize {
    let places = 15 * (file.len() / 512);
    let mut at: usize = 0;
    for p in 0..places {
        at = put_place(file, p, records, at);
    }
    at
}
