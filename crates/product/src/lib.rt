// Products: their kinds and fields, the Italian groups and the days to settlement.
#![tactic(auto)]

ghost use Rattle.std.specs.Prelude.{◌≡◌, [], ◌∷◌, ◌+◌, ◌*◌, ◌<◌};
ghost use Rattle.product.specs.Fields.{kind_number, kind_call, kind_answer, is_future, is_weekly, letter, digit, id_character, id_byte, id_of_length, id_right, first_digit, group_right, market_right, kind_right, size_right, file_size_right, tick_right, is_code, currency_right, fields_right, product_right, zero_product};
ghost use Rattle.product.specs.Settlement.{italian, group_number, option_days, settlement_days};

use questions::Refusal;

// The text by which a future is listed.
#[derive(Clone, Copy)]
pub enum ListingText {
    Of2008,
    Of2005,
}

// An option's longest time to maturity.
#[derive(Clone, Copy)]
pub enum Term {
    Months12,
    Months24,
    Months60,
    Weeks5,
}

// A product's kind.
#[derive(Clone, Copy)]
pub enum Kind {
    Future(ListingText),
    Option(Term),
}

// A product's fields, as in its record; the size in ten-thousandths of a share.
#[derive(Clone, Copy)]
pub struct Product {
    pub id: [u8; 4],
    pub group: [u8; 4],
    pub market: [u8; 4],
    pub kind: Kind,
    pub size: u32,
    pub tick: u16,
    pub currency: [u8; 3],
}

// A product of zeros; kind 0 is a future.
pub fn zero_product() -> Product
    ensures { result ≡ zero_product }
{
    Product {
        id: [0, 0, 0, 0],
        group: [0, 0, 0, 0],
        market: [0, 0, 0, 0],
        kind: Kind::Future(ListingText::Of2008),
        size: 0,
        tick: 0,
        currency: [0, 0, 0],
    }
}

// A kind's number in a record.
pub fn kind_number(kind: Kind) -> u8
    ensures { result ≡ kind_number kind }
{
    match kind {
        Kind::Future(ListingText::Of2008) => 0,
        Kind::Option(Term::Months12) => 1,
        Kind::Option(Term::Months24) => 2,
        Kind::Option(Term::Months60) => 3,
        Kind::Future(ListingText::Of2005) => 4,
        Kind::Option(Term::Weeks5) => 5,
    }
}

// The kind with a number, or the refusal 7.
impl TryFrom<u8> for Kind {
    type Error = Refusal;

    ghost try_from_gives = { λ number result. kind_answer result ≡ kind_call number };

    fn try_from(number: u8) -> Result<Kind, Refusal> {
        match number {
            0 => Ok(Kind::Future(ListingText::Of2008)),
            1 => Ok(Kind::Option(Term::Months12)),
            2 => Ok(Kind::Option(Term::Months24)),
            3 => Ok(Kind::Option(Term::Months60)),
            4 => Ok(Kind::Future(ListingText::Of2005)),
            5 => Ok(Kind::Option(Term::Weeks5)),
            _ => Err(Refusal::WrongRecord),
        }
    }
}

// The kind that was looked up; the kind of number 0 where there is none.
pub fn kind_or_future(answer: Result<Kind, Refusal>) -> Kind
    ensures { result ≡ (kind_answer answer).value }
{
    answer.unwrap_or(Kind::Future(ListingText::Of2008))
}

// Question 21.
pub fn is_future(kind: Kind) -> bool
    ensures { result ≡ is_future kind }
{
    matches!(kind, Kind::Future(_))
}

// 02, note 3: whether a kind's maturities are weekly.
pub fn is_weekly(kind: Kind) -> bool
    ensures { result ≡ is_weekly kind }
{
    matches!(kind, Kind::Option(Term::Weeks5))
}

// A letter A–Z.
pub fn is_letter(byte: u8) -> bool
    ensures { result ≡ letter byte }
{
    (b'A' <= byte) & (byte <= b'Z')
}

// A digit 0–9.
pub fn is_digit(byte: u8) -> bool
    ensures { result ≡ digit byte }
{
    (b'0' <= byte) & (byte <= b'9')
}

// A character of an id.
pub fn is_id_character(byte: u8) -> bool
    ensures { result ≡ id_character byte }
{
    is_letter(byte) | is_digit(byte)
}

// A byte of an id, within its characters or after them.
fn id_byte(within: bool, byte: u8) -> bool
    ensures { result ≡ id_byte within byte }
{
    if within {
        return is_id_character(byte);
    }
    byte == b' '
}

// An id of a given count of characters, and then spaces.
fn id_of(id: [u8; 4], count: usize) -> bool
    ensures { result ≡ id_of_length id count }
{
    for i in 0..4 {
        if !id_byte(i < count, id[i]) {
            return false;
        }
    }
    true
}

// Question 7, the id. Most have four characters.
pub fn id_right(id: [u8; 4]) -> bool
    ensures { result ≡ id_right id }
{
    if id_of(id, 4) {
        return true;
    }
    id_of(id, 1) | id_of(id, 2) | id_of(id, 3)
}

// The first digit of a group, by the kind's number.
fn first_digit(kind: u8) -> u8
    ensures { result ≡ first_digit kind }
{
    match kind {
        0 | 4 => b'0',
        _ => b'1',
    }
}

// Question 7, the group of a kind with this number.
pub fn group_right(group: [u8; 4], kind: u8) -> bool
    ensures { result ≡ group_right group kind }
{
    is_letter(group[0])
        & is_letter(group[1])
        & is_digit(group[2])
        & is_digit(group[3])
        & (group[2] == first_digit(kind))
}

// Question 7, the cash market.
pub fn market_right(market: [u8; 4]) -> bool
    ensures { result ≡ market_right market }
{
    is_letter(market[0]) & is_letter(market[1]) & is_letter(market[2]) & is_letter(market[3])
}

// Question 7, the kind's number.
pub fn kind_right(kind: u8) -> bool
    ensures { result ≡ kind_right kind }
{
    kind <= 5
}

// The size of a table's product, in ten-thousandths of a share.
pub fn size_right(size: u32) -> bool
    ensures { result ≡ size_right size }
{
    (1 <= size) & (size <= 655359999)
}

// Question 7, the size in a record: whole shares, and ten-thousandths beside them.
pub fn file_size_right(shares: u16, part: u16) -> bool
    ensures { result ≡ file_size_right shares part }
{
    (1 <= shares) & (part <= 9999)
}

// Question 7, the tick.
pub fn tick_right(tick: u16) -> bool
    ensures { result ≡ tick_right tick }
{
    matches!(tick, 1 | 5 | 10 | 100)
}

// Question 7, the currency.
pub fn currency_right(currency: [u8; 3]) -> bool
    ensures { result ≡ currency_right currency }
{
    (currency == *b"EUR")
        | (currency == *b"CHF")
        | (currency == *b"USD")
        | (currency == *b"GBP")
        | (currency == *b"GBX")
}

// Question 7, all fields, as bytes and numbers.
pub fn fields_right(
    id: [u8; 4],
    group: [u8; 4],
    market: [u8; 4],
    kind: u8,
    size: u32,
    tick: u16,
    currency: [u8; 3],
) -> bool
    ensures { result ≡ fields_right id group market kind size tick currency }
{
    id_right(id)
        & group_right(group, kind)
        & market_right(market)
        & kind_right(kind)
        & size_right(size)
        & tick_right(tick)
        & currency_right(currency)
}

// Question 7, of a product.
pub fn product_right(product: Product) -> bool
    ensures { result ≡ product_right product }
{
    let id = product.id;
    let group = product.group;
    let market = product.market;
    let kind = product.kind;
    let currency = product.currency;
    fields_right(
        id,
        group,
        market,
        kind_number(kind),
        product.size,
        product.tick,
        currency,
    )
}

// The groups whose anchor is a day earlier.
pub fn is_italian(group: [u8; 4]) -> bool
    ensures { result ≡ italian group }
{
    (group == *b"IT01") | (group == *b"IT11")
}

// A group's two digits as one number; 100 where a byte is no digit.
fn group_number(tens: u8, ones: u8) -> u8
    ensures { result ≡ group_number tens ones }
{
    if is_digit(tens) & is_digit(ones) {
        return 10 * (tens - b'0') + (ones - b'0');
    }
    100
}

// The days to settlement of an option.
pub fn option_days(group: [u8; 4]) -> u8
    ensures { result ≡ option_days group }
{
    let number = group_number(group[2], group[3]);
    match (group[0], group[1], number) {
        (b'D', b'E', 11..=14) => 2,
        (b'F', b'I', 11..=14) | (b'G', b'B', 11) | (b'I', b'E', 11) => 4,
        _ => 3,
    }
}

// The days to settlement, by which the due day follows a trading day.
pub fn settlement_days(kind: Kind, group: [u8; 4]) -> u8
    ensures { result ≡ settlement_days kind group }
{
    match kind {
        Kind::Future(_) => 1,
        Kind::Option(_) => option_days(group),
    }
}
