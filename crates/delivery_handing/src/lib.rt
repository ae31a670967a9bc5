// What `deliver` hands out where rows are printed: to standard output the rows, and on standard error the refused calls.
#![tactic(auto)]

mod output;

ghost use Rattle.std.specs.Prelude.{◌≡◌, ◌+◌, ◌<◌, ◌≤◌, true, [], length, if◌then◌else◌};
ghost use Rattle.file_ids.specs.Ids.{place_count};
ghost use Rattle.file_calendar.specs.Calendars.{calendar_answer};
ghost use Rattle.delivery_refusals.specs.Refusals.{refusal_lines, unknown_lines};
ghost use Rattle.delivery_parts.specs.PlaceParts.{deliver_text, deliver_refusals};
ghost use Rattle.file_text_print.specs.WholeText.{NextOf};
ghost use Rattle.delivery_parts.specs.Handing.{Runs, HandedTo};

use delivery_notices::NoticesTaken;
use delivery_parts::PlacePart;
use file_calendar::FileCalendar;
pub use output::{DeliveryHanded, has_told, is_open, nothing_handed, tell};

// Tells the refused calls of a place, which have to be the next of what is told. A text of 65,536 bytes has at most 6,553 notices; of more nothing is told.
fn tell_place(
    rt: HostRuntime,
    handed: DeliveryHanded,
    file: &[u8],
    text: &[u8],
    part: PlacePart,
    opened: u32,
    calls: &[u32],
    refusals: &[u8],
    count: u32,
) -> DeliveryHanded
    ensures { (result.sent ≡ handed.sent) × (count ≤ 6553 → handed.told ≤ 1000000000 → NextOf (deliver_refusals file.now text.now) handed.told (if part.holds then refusal_lines part.id opened part.refusal calls.now refusals.now (count + 1) else []) → (result.told ≡ handed.told + length (if part.holds then refusal_lines part.id opened part.refusal calls.now refusals.now (count + 1) else [])) × (result.told ≤ handed.told + 419520)) }
{
    if !part.holds {
        return handed;
    }
    if 6553 < count {
        return handed;
    }
    let id = part.id;
    let mut h = handed;
    for i in 0..count + 1 {
        let line = delivery_refusals::refusal_line(id, opened, part.refusal, calls, refusals, i);
        h = output::tell(rt, h, file, text, line);
    }
    h
}

// Tells the measures of ids that the file has not, which have to be the next of what is told.
fn tell_unknown(
    rt: HostRuntime,
    handed: DeliveryHanded,
    file: &[u8],
    text: &[u8],
    calls: &[u32],
    ids: &[u8],
    count: u32,
) -> DeliveryHanded
    ensures { (result.sent ≡ handed.sent) × (count ≤ 6553 → handed.told ≤ 1000000000 → NextOf (deliver_refusals file.now text.now) handed.told (unknown_lines file.now calls.now ids.now count) → result.told ≡ handed.told + length (unknown_lines file.now calls.now ids.now count)) }
{
    let mut h = handed;
    for i in 0..count {
        let line = delivery_refusals::unknown_measure_line(file, calls, ids, i);
        h = output::tell(rt, h, file, text, line);
    }
    h
}

// Writes the rows of a place and tells its refused calls. After a write that fails nothing is told.
fn print_place(
    rt: HostRuntime,
    handed: DeliveryHanded,
    file: &[u8],
    judged: FileCalendar,
    text: &[u8],
    p: usize,
    t: NoticesTaken,
    calls: &[u32],
    ids: &[u8],
    refusals: &mut [u8],
    out: &mut [u8],
) -> DeliveryHanded
    ensures { Runs file.now text.now (calendar_answer judged) t calls.now ids.now → HandedTo file.now text.now p handed.sent.bytes handed.told → p < place_count file.now → 6554 ≤ length refusals.old → length out.old ≡ 1024 → result.sent.open ≡ true → HandedTo file.now text.now (p + 1) result.sent.bytes result.told }
{
    let part = delivery_parts::deliver_place(
        file, judged, p, t.date, calls, ids, t.count, refusals, out,
    );
    let written = output::write_out(rt, handed, file, text, out, part.length);
    if !output::is_open(written) {
        return written;
    }
    tell_place(
        rt, written, file, text, part, t.opened, calls, refusals, t.count,
    )
}

// The rows and the refused calls of every place, in the file's order. A write that fails ends the run.
fn print_places(
    rt: HostRuntime,
    handed: DeliveryHanded,
    file: &[u8],
    judged: FileCalendar,
    text: &[u8],
    t: NoticesTaken,
    calls: &[u32],
    ids: &[u8],
) -> DeliveryHanded
    ensures { Runs file.now text.now (calendar_answer judged) t calls.now ids.now → HandedTo file.now text.now 0 handed.sent.bytes handed.told → result.sent.open ≡ true → HandedTo file.now text.now (place_count file.now) result.sent.bytes result.told }
{
    let mut h = handed;
    let places = 15 * (file.len() / 512);
    let mut refusals = [0u8; 6554];
    let mut out = [0u8; 1024];
    for p in 0..places {
        h = print_place(
            rt,
            h,
            file,
            judged,
            text,
            p,
            t,
            calls,
            ids,
            &mut refusals,
            &mut out,
        );
        if !output::is_open(h) {
            return h;
        }
    }
    h
}

// What an accepted file and notices without a bad line give: the heading and the rows, the refused calls, the measures of unknown ids.
// Where standard output took all, as many bytes as the definition's two texts have, each as the next of its text.
pub fn print_all(
    rt: HostRuntime,
    file: &[u8],
    judged: FileCalendar,
    text: &[u8],
    t: NoticesTaken,
    calls: &[u32],
    ids: &[u8],
) -> DeliveryHanded
    ensures { Runs file.now text.now (calendar_answer judged) t calls.now ids.now → result.sent.open ≡ true → (result.sent.bytes ≡ length (deliver_text file.now text.now)) × (result.told ≡ length (deliver_refusals file.now text.now)) }
{
    let headed = output::write_line(
        rt,
        output::nothing_handed(),
        file,
        text,
        delivery_rows::delivery_heading_line(),
    );
    if !output::is_open(headed) {
        return headed;
    }
    let printed = print_places(rt, headed, file, judged, text, t, calls, ids);
    if !output::is_open(printed) {
        return printed;
    }
    tell_unknown(rt, printed, file, text, calls, ids, t.count)
}
