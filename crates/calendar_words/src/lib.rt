// Words of days: eight weeks of a year's map of closed days as one number, the first day the highest bit; and the bytes of whole maps.
// The compiler reads the bytes of a word at once, and many bytes of a map.
#![tactic(auto)]

ghost use Rattle.std.specs.Prelude.{◌≡◌, not, ◌||◌, ◌+◌, ◌-◌, ◌*◌, ◌%◌, ◌≤◌, ◌<◌, eqb, ltb, get_or, bit_or};
ghost use Rattle.questions.specs.Search.{every};
ghost use Rattle.calendar.specs.Bits.{byte_bit, bit_at};
ghost use Rattle.calendar_words.specs.DayWords.{day_word, weeks_of, rest_of, weekends_from, moved_on, no_seven, bytes_from};

fn wide(byte: u8) -> u64
    ensures { (result ≡ byte) × (result < 256) }
{
    byte as u64
}

// Two bytes of the maps as one number.
fn two_at(maps: &[u8; 736], at: usize) -> u64
    requires { at + 2 ≤ 736 }
    ensures { (result ≡ bytes_from maps.now at 2) × (result < 65536) }
{
    0x100 * wide(maps[at]) + wide(maps[at + 1])
}

fn four_at(maps: &[u8; 736], at: usize) -> u64
    requires { at + 4 ≤ 736 }
    ensures { (result ≡ bytes_from maps.now at 4) × (result < 4294967296) }
{
    0x1000000 * wide(maps[at])
        + 0x10000 * wide(maps[at + 1])
        + 0x100 * wide(maps[at + 2])
        + wide(maps[at + 3])
}

fn three_at(maps: &[u8; 736], at: usize) -> u64
    requires { at + 3 ≤ 736 }
    ensures { (result ≡ bytes_from maps.now at 3) × (result < 16777216) }
{
    0x100 * two_at(maps, at) + wide(maps[at + 2])
}

fn seven_at(maps: &[u8; 736], at: usize) -> u64
    requires { at + 7 ≤ 736 }
    ensures { (result ≡ bytes_from maps.now at 7) × (result < 72057594037927936) }
{
    0x1000000 * four_at(maps, at) + three_at(maps, at + 4)
}

// Eight weeks of the map of year k, a word of 56 days: the j-th of six.
pub fn weeks_of(maps: &[u8; 736], k: u16, j: u16) -> u64
    ensures { result ≡ weeks_of maps.now k j }
{
    if 16 <= k {
        return 0;
    }
    if 6 <= j {
        return 0;
    }
    seven_at(maps, 46 * (k as usize) + 7 * (j as usize))
}

// The rest of the map of year k, after six times eight weeks: a word of 32 days, the last two or three of them after the year's end.
pub fn rest_of(maps: &[u8; 736], k: u16) -> u64
    ensures { result ≡ rest_of maps.now k }
{
    if 16 <= k {
        return 0;
    }
    four_at(maps, 46 * (k as usize) + 42)
}

// The Saturdays and Sundays of the 64 days that begin with a weekday.
fn weekends_on(weekday: u16) -> u64
    requires { weekday < 7 }
    ensures { result ≡ day_word 64 (λ p. not (ltb ((weekday + p) % 7) 5)) }
{
    match weekday {
        0 => 0x060C183060C18306,
        1 => 0x0C183060C183060C,
        2 => 0x183060C183060C18,
        3 => 0x3060C183060C1830,
        4 => 0x60C183060C183060,
        5 => 0xC183060C183060C1,
        _ => 0x83060C183060C183,
    }
}

// The Saturdays and Sundays of the 64 days from a day on.
pub fn weekends_from(day: u16) -> u64
    ensures { result ≡ weekends_from day }
{
    weekends_on(days::weekday(day))
}

// A window of 64 days moved on by w days, to the word of the next w.
pub fn moved_on(window: u64, next: u64, w: u64) -> u64
    ensures { result ≡ moved_on window next w }
{
    if 64 <= w {
        return 0;
    }
    if 0 < next >> w {
        return 0;
    }
    (window << w) | next
}

// Whether no seven days in a row have their bit. A bit of `two` is one of two in a row, a bit of `four` of four, and two of these three days apart are seven.
pub fn no_seven(x: u64) -> bool
    ensures { result ≡ no_seven x }
{
    let two = x & (x >> 1);
    let four = two & (two >> 2);
    four & (four >> 3) == 0
}

// The days that the bytes of a map from a place on have together. The compiler reads many bytes at once.
fn days_from(map: &[u8; 736], at: usize) -> u8
    requires { at ≤ 736 }
    ensures { eqb result 0 ≡ every (736 - at) (λ k. every 8 (λ p. not (byte_bit (get_or map.now (at + k) 0) p))) }
{
    map[at..].iter().fold(0, |days, byte| days | *byte)
}

// Whether a map has no day after its first k years.
pub fn is_empty_after(map: &[u8; 736], k: u16) -> bool
    ensures { result ≡ every (5888 - 368 * k) (λ p. not (bit_at map.now (368 * k + p))) }
{
    if 16 <= k {
        return true;
    }
    days_from(map, 46 * (k as usize)) == 0
}

// The days of the second of two bytes that the first has not.
fn days_beyond(first: u8, second: u8) -> u8
    ensures { (result ≡ bit_or first second - first) × (eqb result 0 ≡ every 8 (λ p. not (byte_bit second p) || byte_bit first p)) }
{
    (first | second) - first
}

// The same of all bytes of two maps together. The compiler reads many bytes at once.
fn all_beyond<'a>(first: &'a [u8; 736], second: &'a [u8; 736]) -> u8
    ensures { eqb result 0 ≡ every 736 (λ k. every 8 (λ p. not (byte_bit (get_or second.now k 0) p) || byte_bit (get_or first.now k 0) p)) }
{
    first
        .iter()
        .zip(second)
        .fold(0, |days, (a, b)| days | days_beyond(*a, *b))
}

// Whether a map has only days that another has.
pub fn is_within<'a>(second: &'a [u8; 736], first: &'a [u8; 736]) -> bool
    ensures { result ≡ every 5888 (λ s. not (bit_at second.now s) || bit_at first.now s) }
{
    all_beyond(first, second) == 0
}
