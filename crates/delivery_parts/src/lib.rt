// A delivery place by place.
#![tactic(auto)]

ghost use Rattle.std.specs.Prelude.{◌≡◌};
ghost use Rattle.file_calendar.specs.Calendars.{calendar_answer};
ghost use Rattle.table.specs.Table.{open_in};
ghost use Rattle.delivery_parts.specs.PlaceParts.{part_fits, no_part, PlaceIn};

use file_calendar::FileCalendar;

// What a place gives: whether the buffers have room, whether it holds a record, its product's id, open's refusal,
// and how many bytes of rows stand in the buffer.
#[derive(Clone, Copy)]
pub struct PlacePart {
    pub fits: bool,
    pub holds: bool,
    pub id: [u8; 4],
    pub refusal: u8,
    pub length: usize,
}

// Whether two buffers have room for a place's rows, and for the refusals of so many notices.
fn part_fits(count: usize, refusals: usize, out: usize) -> bool
    ensures { result ≡ part_fits count refusals out }
{
    (count <= refusals) & (1024 <= out)
}

// A place that gives nothing.
fn no_part(fits: bool) -> PlacePart
    ensures { result ≡ no_part fits }
{
    PlacePart {
        fits,
        holds: false,
        id: [0, 0, 0, 0],
        refusal: 0,
        length: 0,
    }
}

// The rows of the product at a place at the start of a lent buffer of 1,024 bytes or more,
// and the refusals of the first notices of two lists in another, one byte each.
// The file's verdict by `judge` is at hand. Without room nothing is done.
pub fn deliver_place(
    file: &[u8],
    judged: FileCalendar,
    place: usize,
    date: u16,
    calls: &[u32],
    ids: &[u8],
    count: u32,
    refusals: &mut [u8],
    out: &mut [u8],
) -> PlacePart
    ensures { PlaceIn (open_in (calendar_answer judged) file.now) file.now place date count calls.now ids.now refusals.old refusals.new out.old out.new result }
{
    if !part_fits(count as usize, refusals.len(), out.len()) {
        return no_part(false);
    }
    if !file_ids::is_record(file, place) {
        return no_part(true);
    }
    let id = file_ids::id_at(file, place);
    let d = delivery_tables::deliver(file, judged, id, date, calls, ids, count, refusals);
    let refusal = d.refusal;
    if refusal != 0 {
        return PlacePart {
            fits: true,
            holds: true,
            id,
            refusal,
            length: 0,
        };
    }
    let t = d.table;
    let length = delivery_rows::print_rows(out, 0, id, t);
    PlacePart {
        fits: true,
        holds: true,
        id,
        refusal: 0,
        length,
    }
}
