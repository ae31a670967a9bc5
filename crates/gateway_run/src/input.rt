// The number of blocks that is said beforehand.

// The number that decimal digits say; 0, which is refused, for another text and for one of more than 9,999.
fn number_of(text: &[u8]) -> u16 {
    let mut number: u16 = 0;
    for byte in text {
        if !byte.is_ascii_digit() | (999 < number) {
            return 0;
        }
        number = 10 * number + u16::from(*byte - b'0');
    }
    number
}

// The number that the program's one argument says in up to 8 digits; 0 where it has none, or more than one.
pub fn number_said(rt: HostRuntime) -> u16 {
    let mut text = [0u8; 8];
    match program_arguments::sole_argument(rt, &mut text) {
        Some(n) => number_of(&text[..n]),
        None => 0,
    }
}
