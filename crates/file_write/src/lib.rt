// Writing a master file into a lent buffer.
#![tactic(auto)]

ghost use Rattle.std.specs.Prelude.{◌≡◌, ◌++◌, ◌+◌, ◌*◌, ◌%◌, ◌≤◌, ◌<◌, length, drop, set};
ghost use Rattle.std.proofs.Math.Seq.{paste};
ghost use Rattle.calendar.specs.Trading.{calendar_of_maps};
ghost use Rattle.file_blocks.specs.Blocks.{weighted_sum};
ghost use Rattle.file_draft.specs.Drafts.{high_byte, low_byte, header_byte, calendar_byte, records_within, product_byte, block_byte, block_for, blocks_for};
ghost use Rattle.file_write.specs.Writing.{write_call, write_answer, buffer_after, field_bytes, shares_of, sized_bytes, record_bytes};

use calendar::{Calendar, Cover};
use product::Product;
use questions::Refusal;

// A byte of a header: kind, version, year or count of records, the block's index.
fn header_byte(kind: u8, number: u16, index: u16, j: usize) -> u8
    ensures { result ≡ header_byte kind number index j }
{
    match j {
        0 => kind,
        1 => 1,
        2 => (number / 256) as u8,
        3 => (number % 256) as u8,
        4 => (index / 256) as u8,
        5 => (index % 256) as u8,
        _ => 0,
    }
}

// A byte of a calendar block, before its check.
fn calendar_byte<'a>(cover: Cover, closed: &'a [u8], exchange: &'a [u8], k: usize, j: usize) -> u8
    requires { (cover.first_year + k < 65536) × (k < 128) × (j < 510) }
    ensures { result ≡ calendar_byte (calendar_of_maps cover closed.now exchange.now) k j }
{
    if j < 16 {
        let index = k as u16;
        return header_byte(1, cover.first_year + index, index, j);
    }
    if j < 62 {
        return file_blocks::byte_at(closed, 46 * k + (j - 16));
    }
    if j < 108 {
        return file_blocks::byte_at(exchange, 46 * k + (j - 62));
    }
    0
}

// How many records a product block has, of a list of some bytes.
fn records_within(records: &[u8], n: usize) -> u16
    requires { (length records.now ≤ 65536) × (n < 128) }
    ensures { result ≡ records_within records.now n }
{
    let all = (records.len() + 31) / 32;
    if all < 15 * n {
        return 0;
    }
    if 15 <= all - 15 * n {
        return 15;
    }
    (all - 15 * n) as u16
}

// A byte of a product block, before its check.
fn product_byte(records: &[u8], n: usize, k: usize, j: usize) -> u8
    requires { (length records.now ≤ 65536) × (n < 128) × (k < 128) × (j < 510) }
    ensures { result ≡ product_byte records.now n k j }
{
    if j < 16 {
        return header_byte(2, records_within(records, n), k as u16, j);
    }
    if j < 496 {
        return file_blocks::byte_at(records, 480 * n + (j - 16));
    }
    0
}

// A byte of a block, before its check: the calendar blocks come first.
fn block_byte<'a>(
    cover: Cover,
    closed: &'a [u8],
    exchange: &'a [u8],
    records: &'a [u8],
    k: usize,
    j: usize,
) -> u8
    requires { (cover.first_year + k < 65536) × (length records.now ≤ 65536) × (k < 128) × (j < 510) }
    ensures { result ≡ block_byte (calendar_of_maps cover closed.now exchange.now) records.now k j }
{
    let years = cover.years as usize;
    if k < years {
        return calendar_byte(cover, closed, exchange, k, j);
    }
    product_byte(records, k - years, k, j)
}

// A block with its check, of its first 510 bytes.
fn checked(body: [u8; 512]) -> [u8; 512]
    ensures { result ≡ set (set body 510 (high_byte (weighted_sum body 510 % 65521))) 511 (low_byte (weighted_sum body 510 % 65521)) }
{
    let check = file_blocks::check_of(body);
    let mut block = body;
    block[510] = (check / 256) as u8;
    block[511] = (check % 256) as u8;
    block
}

// A block of the file.
fn block_for<'a>(
    cover: Cover,
    closed: &'a [u8],
    exchange: &'a [u8],
    records: &'a [u8],
    k: usize,
) -> [u8; 512]
    requires { (cover.first_year + k < 65536) × (length records.now ≤ 65536) × (k < 128) }
    ensures { result ≡ block_for (calendar_of_maps cover closed.now exchange.now) records.now k }
{
    let mut body = [0u8; 512];
    for j in 0..510 {
        body[j] = block_byte(cover, closed, exchange, records, k, j);
    }
    checked(body)
}

// Puts a block into the buffer.
fn put_block(block: [u8; 512], buffer: &mut [u8], at: usize)
    requires { at + 512 ≤ length buffer.old }
    ensures { buffer.new ≡ paste buffer.old at block 512 }
{
    buffer[at..at + 512].copy_from_slice(&block);
}

// Puts the blocks of the file into the buffer.
fn put_blocks(cal: Calendar, records: &[u8], buffer: &mut [u8], blocks: usize)
    requires { (cal.cover.first_year < 2100) × (length records.now ≤ 65536) × (blocks ≤ 128) × (512 * blocks ≤ length buffer.old) }
    ensures { buffer.new ≡ blocks_for cal records.now blocks ++ drop (512 * blocks) buffer.old }
{
    let cover = cal.cover;
    for k in 0..blocks {
        let block = block_for(cover, &cal.closed, &cal.exchange, records, k);
        put_block(block, buffer, 512 * k);
    }
}

// Writes the file of a calendar and a list of records, 32 bytes each, where questions 3 to 8 and 25 are answered yes, and gives the file's length.
pub fn write(calendar: Calendar, records: &[u8], buffer: &mut [u8]) -> Result<usize, Refusal>
    ensures { (write_answer result ≡ write_call calendar records.now (length buffer.old)) × (buffer.new ≡ buffer_after calendar records.now buffer.old) }
{
    file_draft::judge(calendar, records, buffer.len())?;
    let blocks = file_draft::blocks_in(calendar, records);
    put_blocks(calendar, records, buffer, blocks);
    Ok(512 * blocks)
}

// The bytes of a record.
pub type Record = [u8; 32];

// The record with these fields.
pub fn field_bytes(
    id: [u8; 4],
    group: [u8; 4],
    market: [u8; 4],
    kind: u8,
    shares: u16,
    tick: u16,
    currency: [u8; 3],
    part: u16,
) -> Record
    ensures { result ≡ field_bytes id group market kind shares tick currency part }
{
    [
        id[0],
        id[1],
        id[2],
        id[3],
        group[0],
        group[1],
        group[2],
        group[3],
        market[0],
        market[1],
        market[2],
        market[3],
        kind,
        (shares / 256) as u8,
        (shares % 256) as u8,
        (tick / 256) as u8,
        (tick % 256) as u8,
        currency[0],
        currency[1],
        currency[2],
        (part / 256) as u8,
        (part % 256) as u8,
        0,
        0,
        0,
        0,
        0,
        0,
        0,
        0,
        0,
        0,
    ]
}

// The whole shares of a size; 0 where it is above all that a record can have.
fn shares_of(size: u32) -> u16
    ensures { result ≡ shares_of size }
{
    if 655359999 < size {
        return 0;
    }
    (size / 10000) as u16
}

// The record of fields with a kind's number and a size in ten-thousandths.
pub fn sized_bytes(
    id: [u8; 4],
    group: [u8; 4],
    market: [u8; 4],
    kind: u8,
    size: u32,
    tick: u16,
    currency: [u8; 3],
) -> Record
    ensures { result ≡ sized_bytes id group market kind size tick currency }
{
    let shares = shares_of(size);
    let part = (size % 10000) as u16;
    field_bytes(id, group, market, kind, shares, tick, currency, part)
}

// The record of a product. One of less than a share has 0 shares, as one of too many, and question 7 refuses it.
pub fn record_of(p: Product) -> Record
    ensures { result ≡ record_bytes p }
{
    let id = p.id;
    let group = p.group;
    let market = p.market;
    let kind = p.kind;
    let currency = p.currency;
    sized_bytes(
        id,
        group,
        market,
        product::kind_number(kind),
        p.size,
        p.tick,
        currency,
    )
}
