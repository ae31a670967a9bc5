// A whole run of the program `deliver`: reads master.bin and notices.txt, and prints the rows of the tables of all products after the notices,
// and the calls that were refused.
#![tactic(auto)]

mod input;

ghost use Rattle.std.specs.Prelude.{◌≡◌, true, false, not, ◌≤◌, eqb, length, take};
ghost use Rattle.streams.specs.Transfers.{Within};
ghost use Rattle.file_calendar.specs.Calendars.{calendar_answer};
ghost use Rattle.file_load.specs.Load.{judge_call};
ghost use Rattle.program_status.specs.Statuses.{status_of};
ghost use Rattle.delivery_parts.specs.PlaceParts.{deliver_text, deliver_refusals};
ghost use Rattle.deliver_run.specs.DeliverRuns.{deliver_failed, DeliverRan};

use delivery_handing::DeliveryHanded;
use file_calendar::FileCalendar;
use streams::Transfer;

// What a file with its verdict and a text of notices give:
// where standard output took all, as many bytes as the definition's two texts have, each as the next of its text.
fn answer(rt: HostRuntime, file: &[u8], judged: FileCalendar, text: &[u8]) -> DeliveryHanded
    requires { (calendar_answer judged ≡ judge_call file.now) × (length file.now ≤ 65537) }
    ensures { result.sent.open ≡ true → (result.sent.bytes ≡ length (deliver_text file.now text.now)) × (result.told ≡ length (deliver_refusals file.now text.now)) }
{
    let none = delivery_handing::nothing_handed();
    let refusal = judged.refusal;
    if refusal != 0 {
        let line = delivery_refusals::master_line(refusal);
        return delivery_handing::tell(rt, none, file, text, line);
    }
    let mut calls = [0u32; 32770];
    let mut ids = [0u8; 26216];
    let t = delivery_notices::read_notices(text, &mut calls, &mut ids);
    let bad = t.bad;
    if bad != 0 {
        let line = delivery_refusals::bad_notice_line(bad);
        return delivery_handing::tell(rt, none, file, text, line);
    }
    delivery_handing::print_all(rt, file, judged, text, t, &calls, &ids)
}

// The notices, which are read where the file is accepted.
fn notices_of(rt: HostRuntime, refusal: u8, text: &mut [u8]) -> Transfer
    ensures { Within result text.new }
{
    if refusal != 0 {
        return Transfer {
            failed: false,
            length: 0,
        };
    }
    input::read_notices(rt, text)
}

// What was read of the notices, and what was handed out.
#[derive(Clone, Copy)]
struct Delivery {
    read: Transfer,
    handed: DeliveryHanded,
}

// The notices of a file that was read; the file is judged first. Where they cannot be read nothing is handed out.
fn judged(rt: HostRuntime, file: &[u8], text: &mut [u8]) -> Delivery
    requires { length file.now ≤ 65537 }
    ensures { Within result.read text.new × (result.read.failed ≡ true → (result.handed.sent.bytes ≡ 0) × (result.handed.told ≡ 0)) × (result.read.failed ≡ false → result.handed.sent.open ≡ true → (result.handed.sent.bytes ≡ length (deliver_text file.now (take result.read.length text.new))) × (result.handed.told ≡ length (deliver_refusals file.now (take result.read.length text.new)))) }
{
    let judged = file_load::judge(file);
    let read = notices_of(rt, judged.refusal, text);
    if read.failed {
        let handed = delivery_handing::nothing_handed();
        return Delivery { read, handed };
    }
    let n = read.length;
    let handed = answer(rt, file, judged, &text[..n]);
    Delivery { read, handed }
}

// What was read of master.bin and of the notices, what was handed out, and the status with which the program ends.
#[derive(Clone, Copy)]
pub struct DeliverOutcome {
    pub master: Transfer,
    pub notices: Transfer,
    pub handed: DeliveryHanded,
    pub status: u8,
}

// The end of a run, with its status: something was refused where something was told.
fn ended(master: Transfer, notices: Transfer, handed: DeliveryHanded) -> DeliverOutcome
    ensures { (result.master ≡ master) × (result.notices ≡ notices) × (result.handed ≡ handed) × (result.status ≡ status_of (deliver_failed result) (not (eqb result.handed.told 0))) }
{
    let open = delivery_handing::is_open(handed);
    let refused = delivery_handing::has_told(handed);
    let failed = master.failed | (notices.failed | !open);
    let status = program_status::status(failed, refused);
    DeliverOutcome {
        master,
        notices,
        handed,
        status,
    }
}

// A run. A file that cannot be read is told, with the system's reason, and ends it.
pub fn run(rt: HostRuntime) -> DeliverOutcome
    ensures { DeliverRan result }
{
    let mut file = [0u8; 65537];
    let mut text = [0u8; 65537];
    let master = input::read_master(rt, &mut file);
    if master.failed {
        let unread = Transfer {
            failed: false,
            length: 0,
        };
        return ended(master, unread, delivery_handing::nothing_handed());
    }
    let size = master.length;
    let d = judged(rt, &file[..size], &mut text);
    let notices = d.read;
    let handed = d.handed;
    ended(master, notices, handed)
}
