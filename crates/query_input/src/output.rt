// What is written to standard output.
ghost use Rattle.std.specs.Prelude.{◌≡◌, true, ◌≤◌, length, take};
ghost use Rattle.session_parts.specs.TermsParts.{counted};
ghost use Rattle.delivery_queries.specs.Queries.{standing_in};
ghost use Rattle.delivery_sessions.specs.QueryRuns.{QueryComesNext};

use delivery_notices::NoticesTaken;
use delivery_sessions::QueryProgress;
use file_calendar::FileCalendar;
use streams::Sent;

// Writes the bytes at the start of a buffer, which have to be what comes next of the answers from one place in the input to another;
// so many refusals have room where what is known of a product is worked out.
// Where the output does not take them, one line on standard error says why.
pub(crate) fn write_out(
    rt: HostRuntime,
    sent: Sent,
    file: &[u8],
    judged: FileCalendar,
    t: NoticesTaken,
    calls: &[u32],
    ids: &[u8],
    room: usize,
    part: &[u8],
    from: QueryProgress,
    to: QueryProgress,
    out: &[u8],
) -> Sent
    requires { (to.length ≤ length out.now) × QueryComesNext (standing_in judged file.now t calls.now ids.now room) part.now from to (take to.length out.now) }
    ensures { result.open ≡ true → result.bytes ≡ counted sent.bytes to.length }
{
    let n = to.length;
    streams::write_next(rt, sent, b"query: standard output", &out[..n])
}
