// Tables, products and answers as programs in other languages hold them: `#[repr(C)]` structs of numbers, a kind by its number.
#![tactic(auto)]

ghost use Rattle.std.specs.Prelude.{◌≡◌};
ghost use Rattle.days.specs.Dates.{day_answer, date_answer};
ghost use Rattle.table_values.specs.Values.{day_reply};
ghost use Rattle.table_vendor.specs.Vendor.{verdict_answer};
ghost use Rattle.calendar.specs.Trading.{zero_calendar};
ghost use Rattle.questions.specs.Refusals.{result_answer};
ghost use Rattle.c_types.specs.Flat.{made_answer, written_reply, unflat_product, unflat_table, flat_product, flat_table, flat_outcome, outcome_on, measured_on, date_reply, verdict_reply, record_flat};

use calendar::Calendar;
use days::Date;
use listing::Maturity;
use product::{Kind, Product};
use questions::Refusal;
use table::{Outcome, Table};
use table_measures::Measured;
use table_values::DayReply;
use table_vendor::Verdict;

// The four bytes of a record's id: 1 to 4 of A–Z and 0–9, then spaces.
#[repr(C)]
#[derive(Clone, Copy)]
pub struct Id {
    pub bytes: [u8; 4],
}

// The 32 bytes of a product's record.
#[repr(C)]
#[derive(Clone, Copy)]
pub struct FlatRecord {
    pub bytes: [u8; 32],
}

// A product with its kind as the number that a record has. 24 bytes, the last two of them unused.
#[repr(C)]
#[derive(Clone, Copy)]
pub struct FlatProduct {
    pub id: [u8; 4],
    pub group: [u8; 4],
    pub market: [u8; 4],
    pub kind: u8,
    pub currency: [u8; 3],
    pub size: u32,
    pub tick: u16,
}

// A table whose product is flat.
#[repr(C)]
#[derive(Clone, Copy)]
pub struct FlatTable {
    pub product: FlatProduct,
    pub calendar: Calendar,
    pub date: u16,
    pub given: u16,
    pub maturities: [Maturity; 15],
}

// What open, roll, close and reopen give back.
#[repr(C)]
#[derive(Clone, Copy)]
pub struct FlatOutcome {
    pub refusal: u8,
    pub entered: u16,
    pub left: u16,
    pub table: FlatTable,
}

// What a measure gives back.
#[repr(C)]
#[derive(Clone, Copy)]
pub struct FlatMeasured {
    pub refusal: u8,
    pub price: u32,
    pub table: FlatTable,
}

// The number of a refusal, or 0 and a date.
#[repr(C)]
#[derive(Clone, Copy)]
pub struct DateReply {
    pub refusal: u8,
    pub year: u16,
    pub month: u16,
    pub day: u16,
}

// The refusal, 0 where a made-up calendar was made, and the calendar, zeros with a refusal.
#[repr(C)]
#[derive(Clone, Copy)]
pub struct Made {
    pub refusal: u8,
    pub calendar: Calendar,
}

// The number of a refusal, or 0 and what is said of a list: yes, or no with a key.
#[repr(C)]
#[derive(Clone, Copy)]
pub struct VerdictReply {
    pub refusal: u8,
    pub same: bool,
    pub key: u16,
}

// The product that a flat one stands for; one of zeros where its kind number is no kind.
pub fn unflat_product(p: FlatProduct) -> Product
    ensures { result ≡ unflat_product p }
{
    let Ok(kind) = Kind::try_from(p.kind) else {
        return product::zero_product();
    };
    let id = p.id;
    let group = p.group;
    let market = p.market;
    let currency = p.currency;
    Product {
        id,
        group,
        market,
        kind,
        size: p.size,
        tick: p.tick,
        currency,
    }
}

// The table that a flat one stands for. Where its product's kind number is no kind, it is not sound.
pub fn unflat_table(t: FlatTable) -> Table
    ensures { result ≡ unflat_table t }
{
    let product = unflat_product(t.product);
    let calendar = t.calendar;
    let maturities = t.maturities;
    Table {
        product,
        calendar,
        date: t.date,
        maturities,
        given: t.given,
    }
}

// A product, flat.
pub fn flat_product(p: Product) -> FlatProduct
    ensures { result ≡ flat_product p }
{
    let id = p.id;
    let group = p.group;
    let market = p.market;
    let currency = p.currency;
    let of_kind = p.kind;
    let kind = product::kind_number(of_kind);
    FlatProduct {
        id,
        group,
        market,
        kind,
        currency,
        size: p.size,
        tick: p.tick,
    }
}

// A table, flat.
pub fn flat_table(t: Table) -> FlatTable
    ensures { result ≡ flat_table t }
{
    let product = flat_product(t.product);
    let calendar = t.calendar;
    let maturities = t.maturities;
    FlatTable {
        product,
        calendar,
        date: t.date,
        given: t.given,
        maturities,
    }
}

// An outcome, flat.
pub fn flat_outcome(o: Outcome) -> FlatOutcome
    ensures { result ≡ flat_outcome o }
{
    let table = flat_table(o.table);
    FlatOutcome {
        refusal: o.refusal,
        entered: o.entered,
        left: o.left,
        table,
    }
}

// What a call on a flat table gives back; refused, the flat table as it came.
pub fn outcome_on(t: FlatTable, o: Outcome) -> FlatOutcome
    ensures { result ≡ outcome_on t o }
{
    if o.refusal != 0 {
        return FlatOutcome {
            refusal: o.refusal,
            entered: 0,
            left: 0,
            table: t,
        };
    }
    flat_outcome(o)
}

// What a measure on a flat table gives back; refused, the flat table as it came.
pub fn measured_on(t: FlatTable, m: Measured) -> FlatMeasured
    ensures { result ≡ measured_on t m }
{
    if m.refusal != 0 {
        return FlatMeasured {
            refusal: m.refusal,
            price: 0,
            table: t,
        };
    }
    let table = flat_table(m.table);
    FlatMeasured {
        refusal: m.refusal,
        price: m.price,
        table,
    }
}

// The refusal, 0 where a file was written, and its length, 0 with a refusal.
#[repr(C)]
#[derive(Clone, Copy)]
pub struct WrittenFile {
    pub refusal: u8,
    pub length: usize,
}

// The result of a writing as a reply.
pub fn reply_of_writing(written: Result<usize, Refusal>) -> WrittenFile
    ensures { written_reply result ≡ result_answer 0 written }
{
    match written {
        Ok(length) => WrittenFile { refusal: 0, length },
        Err(refusal) => WrittenFile {
            refusal: refusal.number(),
            length: 0,
        },
    }
}

// An answer with a day as a reply.
pub fn reply_of_day(answer: Result<u16, Refusal>) -> DayReply
    ensures { day_reply result ≡ day_answer answer }
{
    match answer {
        Ok(day) => DayReply { refusal: 0, day },
        Err(refusal) => DayReply {
            refusal: refusal.number(),
            day: 0,
        },
    }
}

// An answer with a date as a reply.
pub fn reply_of_date(answer: Result<Date, Refusal>) -> DateReply
    ensures { date_reply result ≡ date_answer answer }
{
    match answer {
        Ok(date) => DateReply {
            refusal: 0,
            year: date.year,
            month: date.month,
            day: date.day,
        },
        Err(refusal) => DateReply {
            refusal: refusal.number(),
            year: 0,
            month: 0,
            day: 0,
        },
    }
}

// A made-up calendar as a reply.
pub fn reply_of_made(made: Result<Calendar, Refusal>) -> Made
    ensures { made_answer result ≡ result_answer zero_calendar made }
{
    match made {
        Ok(calendar) => Made {
            refusal: 0,
            calendar,
        },
        Err(refusal) => Made {
            refusal: refusal.number(),
            calendar: calendar::zero_calendar(),
        },
    }
}

// What is said of a list as a reply.
pub fn reply_of_verdict(verdict: Verdict) -> VerdictReply
    ensures { verdict_reply result ≡ verdict_answer verdict }
{
    match verdict {
        Ok(None) => VerdictReply {
            refusal: 0,
            same: true,
            key: 0,
        },
        Ok(Some(key)) => VerdictReply {
            refusal: 0,
            same: false,
            key,
        },
        Err(refusal) => VerdictReply {
            refusal: refusal.number(),
            same: false,
            key: 0,
        },
    }
}

// The record of a product.
pub fn flat_record(p: FlatProduct) -> FlatRecord
    ensures { result.bytes ≡ record_flat p }
{
    let id = p.id;
    let group = p.group;
    let market = p.market;
    let currency = p.currency;
    let bytes = file_write::sized_bytes(id, group, market, p.kind, p.size, p.tick, currency);
    FlatRecord { bytes }
}
