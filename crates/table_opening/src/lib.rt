// What opening a table finds in a master file.
#![tactic(auto)]

ghost use Rattle.std.specs.Prelude.{◌≡◌};
ghost use Rattle.file_calendar.specs.Calendars.{calendar_answer};
ghost use Rattle.table_opening.specs.Opening.{opening_of, opening_in, listing_in, opening_result, listed_result};

use calendar::Calendar;
use file_calendar::FileCalendar;
use file_load::Found;
use listing::Maturity;
use product::Product;
use questions::Refusal;

// The product, the file's calendar, and the fresh listing, not yet numbered.
#[derive(Clone, Copy)]
pub struct Findings {
    pub product: Product,
    pub calendar: Calendar,
    pub fresh: [Maturity; 15],
}

// The same but for the calendar.
#[derive(Clone, Copy)]
pub struct ListedFindings {
    pub product: Product,
    pub fresh: [Maturity; 15],
}

// The product with an id, and the fresh listing on a date under the calendar of a verdict, whose first map is lent.
// The file's verdict by `judge` is at hand, so questions 1 to 8 are not asked again.
// A refusal is a number here, as a verdict from elsewhere may have any.
pub fn listed_in(
    file: &[u8],
    judged: FileCalendar,
    id: [u8; 4],
    date: u16,
) -> Result<ListedFindings, u8>
    ensures { result ≡ listed_result (listing_in (calendar_answer judged) file.now id date) }
{
    let refusal = judged.refusal;
    if refusal != 0 {
        return Err(refusal);
    }
    let Found::At(block, record) = file_load::find_rising(file, id) else {
        return Err(Refusal::UnknownId.number());
    };
    let cover = judged.calendar.cover;
    if !calendar::in_cover(cover, date) {
        return Err(Refusal::OutsideCover.number());
    }
    let product = file_load::product_at(file, block, record);
    let kind = product.kind;
    let group = product.group;
    if !listing::is_week_into_cover(kind, cover, date) {
        return Err(Refusal::InFirstWeek.number());
    }
    let l = listing::list_in(cover, &judged.calendar.closed, kind, group, date);
    if !l.complete {
        return Err(Refusal::ListingBeyondCover.number());
    }
    let fresh = l.maturities;
    Ok(ListedFindings { product, fresh })
}

// The same with the calendar of the verdict.
pub fn opening_in(file: &[u8], judged: FileCalendar, id: [u8; 4], date: u16) -> Result<Findings, u8>
    ensures { result ≡ opening_result (opening_in (calendar_answer judged) file.now id date) }
{
    let l = listed_in(file, judged, id, date)?;
    let product = l.product;
    let calendar = judged.calendar;
    let fresh = l.fresh;
    Ok(Findings {
        product,
        calendar,
        fresh,
    })
}

// The product with an id, the file's calendar, and the fresh listing on a date.
pub fn opening_of(file: &[u8], id: [u8; 4], date: u16) -> Result<Findings, u8>
    ensures { result ≡ opening_result (opening_of file.now id date) }
{
    let judged = file_load::judge(file);
    opening_in(file, judged, id, date)
}
