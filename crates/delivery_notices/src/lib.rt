// A text of notices to its date and to two lent lists: the calls, five numbers each, and the ids, four bytes each.
#![tactic(auto)]

ghost use Rattle.std.specs.Prelude.{◌≡◌, true, ◌+◌, ◌*◌, ◌≤◌, ◌<◌, length, set, take};
ghost use Rattle.delivery_lines.specs.NoticeLines.{Said, bad, said_by, line_held};
ghost use Rattle.delivery_notices.specs.Notices.{nothing_told, lines_told};
ghost use Rattle.delivery_notices.specs.NoticeLists.{kind_in, first_in, StoredIn, lists_fit, TextIn};
ghost use Rattle.delivery_notices.specs.NoticeReading.{no_notices_taken, bad_taken, may_stand, whole_taken, read_length, SaidIn, LineTaken, NoticeLinesIn};

use delivery_lines::NoticeLine;

// What the lines so far say: whether the lists have room, the number of the line of the O, 0 before it, and its date,
// how many notices stand in the lists, how many lines there were up to the first bad one, and the number of that one, 0 where there is none.
#[derive(Clone, Copy)]
pub struct NoticesTaken {
    pub fits: bool,
    pub opened: u32,
    pub date: u16,
    pub count: u32,
    pub lines: u32,
    pub bad: u32,
}

// The kind of a call by its letter, as `replay` numbers them.
fn kind_in(letter: u8) -> u32
    ensures { result ≡ kind_in letter }
{
    if letter == b'R' {
        return 0;
    }
    if letter == b'E' {
        return 2;
    }
    if letter == b'M' {
        return 3;
    }
    1
}

// The first number of a call: the p of a measure, or the day.
fn first_in(letter: u8, day: u16, p: u32) -> u32
    ensures { result ≡ first_in letter day p }
{
    if letter == b'M' {
        return p;
    }
    day as u32
}

// Five numbers to the places of call i.
fn put_call(calls: &mut [u32], i: usize, line: u32, kind: u32, first: u32, second: u32, third: u32)
    requires { 5 * i + 5 ≤ length calls.old }
    ensures { calls.new ≡ set (set (set (set (set calls.old (5 * i) line) (5 * i + 1) kind) (5 * i + 2) first) (5 * i + 3) second) (5 * i + 4) third }
{
    let at = 5 * i;
    calls[at] = line;
    calls[at + 1] = kind;
    calls[at + 2] = first;
    calls[at + 3] = second;
    calls[at + 4] = third;
}

// Four bytes to the places of id i.
fn put_id(ids: &mut [u8], i: usize, a: u8, b: u8, c: u8, d: u8)
    requires { 4 * i + 4 ≤ length ids.old }
    ensures { ids.new ≡ set (set (set (set ids.old (4 * i) a) (4 * i + 1) b) (4 * i + 2) c) (4 * i + 3) d }
{
    let at = 4 * i;
    ids[at] = a;
    ids[at + 1] = b;
    ids[at + 2] = c;
    ids[at + 3] = d;
}

// One notice more after the first i of two lists, with the number of its line.
fn store_notice(line: u32, n: NoticeLine, i: usize, calls: &mut [u32], ids: &mut [u8])
    requires { (5 * i + 5 ≤ length calls.old) × (4 * i + 4 ≤ length ids.old) }
    ensures { StoredIn line n i calls.old calls.new ids.old ids.new }
{
    let letter = n.letter;
    let id = n.id;
    put_call(
        calls,
        i,
        line,
        kind_in(letter),
        first_in(letter, n.day, n.p),
        n.q,
        n.price,
    );
    put_id(ids, i, id[0], id[1], id[2], id[3]);
}

// After a bad line.
fn bad_taken(t: NoticesTaken) -> NoticesTaken
    requires { t.lines ≤ 65538 }
    ensures { result ≡ bad_taken t }
{
    let mut r = t;
    r.lines = t.lines + 1;
    r.bad = t.lines + 1;
    r
}

// Whether a line with a letter may stand after an O on a line, 0 before it.
fn may_stand(letter: u8, opened: u32) -> bool
    ensures { result ≡ may_stand letter opened }
{
    if letter == b'O' {
        return opened == 0;
    }
    opened != 0
}

// After a line, by what it says.
fn take_said(t: NoticesTaken, n: NoticeLine, calls: &mut [u32], ids: &mut [u8]) -> NoticesTaken
    requires { (t.lines ≤ 65538) × (t.count ≤ 6553) × (t.bad ≡ 0) × (5 * t.count + 5 ≤ length calls.old) × (4 * t.count + 4 ≤ length ids.old) }
    ensures { SaidIn t n calls.old calls.new ids.old ids.new result }
{
    let letter = n.letter;
    let mut r = t;
    r.lines = t.lines + 1;
    if letter == b'#' {
        return r;
    }
    if letter == 0 {
        return bad_taken(t);
    }
    if !may_stand(letter, t.opened) {
        return bad_taken(t);
    }
    if letter == b'O' {
        r.opened = t.lines + 1;
        r.date = n.day;
        return r;
    }
    store_notice(t.lines + 1, n, t.count as usize, calls, ids);
    r.count = t.count + 1;
    r
}

// After a line; after a bad one nothing more is taken. A line that is cut is bad whatever it says.
fn take_line(
    t: NoticesTaken,
    line: &[u8],
    cut: bool,
    calls: &mut [u32],
    ids: &mut [u8],
) -> NoticesTaken
    requires { (t.lines ≤ 65538) × (t.count ≤ 6553) × (5 * t.count + 5 ≤ length calls.old) × (4 * t.count + 4 ≤ length ids.old) }
    ensures { LineTaken t line.now cut calls.old calls.new ids.old ids.new result }
{
    if t.bad != 0 {
        return t;
    }
    if cut {
        return bad_taken(t);
    }
    take_said(t, delivery_lines::notice_of(line), calls, ids)
}

// Before the first line.
fn no_notices_taken(fits: bool) -> NoticesTaken
    ensures { result ≡ no_notices_taken fits }
{
    NoticesTaken {
        fits,
        opened: 0,
        date: 0,
        count: 0,
        lines: 0,
        bad: 0,
    }
}

// All lines of a text; where it is too long, its last line is bad.
fn read_lines(text: &[u8], long: bool, calls: &mut [u32], ids: &mut [u8]) -> NoticesTaken
    requires { (length text.now ≤ 65537) × (32770 ≤ length calls.old) × (26216 ≤ length ids.old) }
    ensures { NoticeLinesIn text.now long calls.old calls.new ids.old ids.new result }
{
    let mut t = no_notices_taken(true);
    let mut from: usize = 0;
    while from < text.len() {
        let end = session_lines::byte_from(text, from, b'\n');
        let cut = long & (text.len() <= end + 1);
        t = take_line(t, &text[from..end], cut, calls, ids);
        from = end + 1;
    }
    t
}

// The end of a text: without an O a line is missing.
fn whole_taken(t: NoticesTaken) -> NoticesTaken
    requires { t.lines ≤ 65538 }
    ensures { result ≡ whole_taken t }
{
    if t.opened != 0 {
        return t;
    }
    if t.bad != 0 {
        return t;
    }
    bad_taken(t)
}

// Whether two lists have room for all notices that a text can say.
fn lists_fit(calls: usize, ids: usize) -> bool
    ensures { result ≡ lists_fit calls ids }
{
    (32770 <= calls) & (26216 <= ids)
}

// How many bytes of a text are read: all, or 65,537.
pub fn read_length(n: usize) -> usize
    ensures { result ≡ read_length n }
{
    if 65537 < n {
        return 65537;
    }
    n
}

// A text of notices: its date, and its notices in two lent lists, 32,770 numbers and 26,216 bytes or more; or the number of the first bad line.
// Where a list is shorter nothing is read.
pub fn read_notices(text: &[u8], calls: &mut [u32], ids: &mut [u8]) -> NoticesTaken
    ensures { TextIn text.now calls.old calls.new ids.old ids.new result }
{
    if !lists_fit(calls.len(), ids.len()) {
        return no_notices_taken(false);
    }
    let n = read_length(text.len());
    let part = &text[..n];
    let mark = delivery_lines::mark_length(part);
    let t = read_lines(&part[mark..], 65536 < text.len(), calls, ids);
    whole_taken(t)
}
