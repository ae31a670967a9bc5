// What a run of `gateway` ends with.
#![tactic(auto)]

ghost use Rattle.std.specs.Prelude.{◌≡◌, ◌≤◌};
ghost use Rattle.session_text.specs.TermsText.{last_digit};
ghost use Rattle.file_intake.specs.Intake.{finished_answer};
ghost use Rattle.file_intake_text.specs.GatewayTexts.{refused_end, ended_answer, five_digits, digit_count};

use file_intake::Finished;

// The refusal, 0 for an accepted file, and the counts, zeros with a refusal: 6 bytes.
#[derive(Clone, Copy)]
pub struct Ended {
    pub refusal: u8,
    pub years: u16,
    pub records: u16,
}

// The end at a call that was refused.
pub fn refused(number: u8) -> Ended
    ensures { result ≡ refused_end number }
{
    Ended {
        refusal: number,
        years: 0,
        records: 0,
    }
}

// The end at the final call.
pub fn finished(last: Finished) -> Ended
    ensures { ended_answer result ≡ finished_answer last }
{
    let counts = last.counts;
    Ended {
        refusal: last.refusal,
        years: counts.years,
        records: counts.records,
    }
}

// The last decimal digit of a number.
fn digit(n: u16) -> u8
    ensures { result ≡ last_digit n }
{
    b'0' + (n % 10) as u8
}

// The characters of a number in five digits.
pub type FiveDigits = [u8; 5];

// A number in five digits.
pub fn five_digits(n: u16) -> FiveDigits
    ensures { result ≡ five_digits n }
{
    let rest = n % 10000;
    [
        digit(n / 10000),
        digit(rest / 100 / 10),
        digit(rest / 100),
        digit(rest % 100 / 10),
        digit(rest % 100),
    ]
}

// How many of them it has without the zeros before it.
pub fn digit_count(n: u16) -> usize
    ensures { (result ≡ digit_count n) × (result ≤ 5) }
{
    if n < 10 {
        return 1;
    }
    if n < 100 {
        return 2;
    }
    if n < 1000 {
        return 3;
    }
    if n < 10000 {
        return 4;
    }
    5
}
