// Lines of any length, byte by byte; and a line of the program `terms` to a command.
#![tactic(auto)]

ghost use Rattle.std.specs.Prelude.{◌≡◌, ◌+◌, ◌≤◌, ◌<◌, ◌==◌, get_or, length, position};
ghost use Rattle.std.specs.List.{list_all};
ghost use Rattle.product.specs.Fields.{id_character};
ghost use Rattle.session_lines.specs.CommandLines.{digit_value, two_digits, two_value, date_form, date_at, other_line, move_command, id_form, id_byte_at, id_in_line, open_form, open_command, line_command, empty_line, extended, fed};
ghost use Rattle.session_lines.specs.BytePlaces.{ByteFrom};

// A line: its first bytes and their number. The longest command has 17, the longest line of a master file's text 63.
#[derive(Clone, Copy)]
pub struct Line {
    pub bytes: [u8; 64],
    pub length: usize,
}

// A command: the letter O, R or C, the id of an O, and the day. Another line has no letter, 0.
#[derive(Clone, Copy)]
pub struct Command {
    pub letter: u8,
    pub id: [u8; 4],
    pub day: u16,
}

// Whether there is a date, and its day.
#[derive(Clone, Copy)]
pub struct DateRead {
    pub there: bool,
    pub day: u16,
}

// A line with no bytes.
pub fn empty_line() -> Line
    ensures { result ≡ empty_line }
{
    Line {
        bytes: [0; 64],
        length: 0,
    }
}

// A line with one byte more.
pub fn extend(line: Line, byte: u8) -> Line
    ensures { result ≡ extended line byte }
{
    let at = line.length;
    if 64 <= at {
        return line;
    }
    let mut bytes = line.bytes;
    bytes[at] = byte;
    Line {
        bytes,
        length: at + 1,
    }
}

// A line with all bytes of a slice more: `extend` with each of them, on one array.
pub fn feed(line: Line, bytes: &[u8]) -> Line
    ensures { result ≡ fed line bytes.now }
{
    let mut held = line.bytes;
    let mut n = line.length;
    for byte in bytes {
        if 64 <= n {
            return Line {
                bytes: held,
                length: n,
            };
        }
        held[n] = *byte;
        n += 1;
    }
    Line {
        bytes: held,
        length: n,
    }
}

// The place of the first such byte.
fn first_place(bytes: &[u8], byte: u8) -> Option<usize>
    ensures { result ≡ position (λ b. b == byte) bytes.now }
{
    bytes.iter().position(|b| *b == byte)
}

// The place of the first such byte from a place on, or the end; a place past the end stays.
pub fn byte_from(bytes: &[u8], from: usize, byte: u8) -> usize
    ensures { (from ≤ length bytes.now → ByteFrom byte bytes.now from result) × (length bytes.now < from → result ≡ from) }
{
    if bytes.len() < from {
        return from;
    }
    match first_place(&bytes[from..], byte) {
        Some(ahead) => from + ahead,
        None => bytes.len(),
    }
}

// The value of a digit.
pub fn digit_value(byte: u8) -> u16
    ensures { (result ≡ digit_value byte) × (result ≤ 9) }
{
    if byte < 48 {
        return 0;
    }
    ((byte - 48) % 10) as u16
}

// Whether two digits stand at a place and the next.
fn are_two_digits(bytes: [u8; 64], at: usize) -> bool
    requires { at + 2 ≤ 64 }
    ensures { result ≡ two_digits (λ i. get_or bytes i 0) at }
{
    product::is_digit(bytes[at]) & product::is_digit(bytes[at + 1])
}

// The number that they are.
fn two_value(bytes: [u8; 64], at: usize) -> u16
    requires { at + 2 ≤ 64 }
    ensures { (result ≡ two_value (λ i. get_or bytes i 0) at) × (result ≤ 99) }
{
    10 * digit_value(bytes[at]) + digit_value(bytes[at + 1])
}

// Whether the ten bytes from a place on have the form of a date.
fn is_date_form(bytes: [u8; 64], at: usize) -> bool
    requires { at + 10 ≤ 64 }
    ensures { result ≡ date_form (λ i. get_or bytes i 0) at }
{
    are_two_digits(bytes, at)
        & (are_two_digits(bytes, at + 2)
            & ((bytes[at + 4] == b'-')
                & (are_two_digits(bytes, at + 5)
                    & ((bytes[at + 7] == b'-') & are_two_digits(bytes, at + 8)))))
}

// The date from a place on.
fn date_at(bytes: [u8; 64], at: usize) -> DateRead
    requires { at + 10 ≤ 64 }
    ensures { result ≡ date_at (λ i. get_or bytes i 0) at }
{
    if !is_date_form(bytes, at) {
        return DateRead {
            there: false,
            day: 0,
        };
    }
    let year = 100 * two_value(bytes, at) + two_value(bytes, at + 2);
    match days::day_of_date(year, two_value(bytes, at + 5), two_value(bytes, at + 8)) {
        Ok(day) => DateRead { there: true, day },
        Err(_) => DateRead {
            there: false,
            day: 0,
        },
    }
}

// The date from a place of a line on.
pub fn date_from(line: Line, at: usize) -> DateRead
    ensures { result ≡ date_at (λ i. get_or line.bytes i 0) at }
{
    if 54 < at {
        return DateRead {
            there: false,
            day: 0,
        };
    }
    let bytes = line.bytes;
    date_at(bytes, at)
}

// Another line.
fn other_line() -> Command
    ensures { result ≡ other_line }
{
    Command {
        letter: 0,
        id: [0, 0, 0, 0],
        day: 0,
    }
}

// A roll, a close or another line.
fn move_command(bytes: [u8; 64], length: usize) -> Command
    ensures { result ≡ move_command (λ i. get_or bytes i 0) length }
{
    let letter = bytes[0];
    if length != 12 {
        return other_line();
    }
    if !(((letter == b'R') | (letter == b'C')) & (bytes[1] == b' ')) {
        return other_line();
    }
    let date = date_at(bytes, 2);
    if !date.there {
        return other_line();
    }
    Command {
        letter,
        id: [0, 0, 0, 0],
        day: date.day,
    }
}

// Whether all bytes are characters of an id.
fn are_id_characters(bytes: &[u8]) -> bool
    ensures { result ≡ list_all id_character bytes.now }
{
    bytes.iter().all(|b| product::is_id_character(*b))
}

// Whether k characters of an id follow the letter and its space.
fn is_id_form(bytes: [u8; 64], k: usize) -> bool
    requires { k ≤ 4 }
    ensures { result ≡ id_form (λ i. get_or bytes i 0) k }
{
    are_id_characters(&bytes[2..2 + k])
}

// Byte i of an id of k characters, with spaces after them.
fn id_byte_at(bytes: [u8; 64], k: usize, i: usize) -> u8
    requires { i < 4 }
    ensures { result ≡ id_byte_at (λ i. get_or bytes i 0) k i }
{
    if i < k {
        return bytes[2 + i];
    }
    b' '
}

// The id of k characters as a record has it.
fn id_in_line(bytes: [u8; 64], k: usize) -> [u8; 4]
    ensures { result ≡ id_in_line (λ i. get_or bytes i 0) k }
{
    [
        id_byte_at(bytes, k, 0),
        id_byte_at(bytes, k, 1),
        id_byte_at(bytes, k, 2),
        id_byte_at(bytes, k, 3),
    ]
}

// Whether the line has the form of an open with an id of k characters, up to the date.
fn is_open_form(bytes: [u8; 64], k: usize) -> bool
    ensures { result ≡ open_form (λ i. get_or bytes i 0) k }
{
    if k < 1 {
        return false;
    }
    if 4 < k {
        return false;
    }
    (bytes[1] == b' ') & (is_id_form(bytes, k) & (bytes[2 + k] == b' '))
}

// An open or another line.
fn open_command(bytes: [u8; 64], length: usize) -> Command
    ensures { result ≡ open_command (λ i. get_or bytes i 0) length }
{
    if length < 13 {
        return other_line();
    }
    let k = length - 13;
    if !is_open_form(bytes, k) {
        return other_line();
    }
    let date = date_at(bytes, 3 + k);
    if !date.there {
        return other_line();
    }
    let id = id_in_line(bytes, k);
    Command {
        letter: b'O',
        id,
        day: date.day,
    }
}

// The command of a line.
pub fn command_of(line: Line) -> Command
    ensures { result ≡ line_command line }
{
    let bytes = line.bytes;
    if bytes[0] == b'O' {
        return open_command(bytes, line.length);
    }
    move_command(bytes, line.length)
}
