// Numbered questions: the refusal that a call returns where one of its questions is answered no. Definitions and laws of questions, and of tests over runs of numbers.
#![tactic(auto)]

ghost use Rattle.std.specs.Prelude.{◌≡◌};
ghost use Rattle.questions.specs.Refusals.{refusal_number};

// A question that is answered no (01, Questions, in order; 02).
#[derive(Clone, Copy, PartialEq, Eq)]
pub enum Refusal {
    WrongLength,
    WrongCheck,
    WrongHeader,
    WrongBlocks,
    UncleanCalendar,
    IdleWeek,
    WrongRecord,
    IdsNotRising,
    UnknownId,
    Unsound,
    OutsideCover,
    BeforeTableDate,
    NotAfterTableDate,
    NotATradingDay,
    WeekLeftIdle,
    ListingBeyondCover,
    DueBeyondCover,
    NotListed,
    PriceOutOfRange,
    OffTick,
    NotAFuture,
    FinalOrContractsOutOfRange,
    NotADate,
    InFirstWeek,
    NoRoomForFile,
    NotAClosedWeekday,
    FrontChanges,
    RatioOutOfRange,
    MeasureOutOfRange,
    QueueNumberOutOfRange,
    WronglyQueued,
}

impl Refusal {
    // The number of the question.
    pub fn number(self) -> u8
        ensures { result ≡ refusal_number self }
    {
        match self {
            Refusal::WrongLength => 1,
            Refusal::WrongCheck => 2,
            Refusal::WrongHeader => 3,
            Refusal::WrongBlocks => 4,
            Refusal::UncleanCalendar => 5,
            Refusal::IdleWeek => 6,
            Refusal::WrongRecord => 7,
            Refusal::IdsNotRising => 8,
            Refusal::UnknownId => 9,
            Refusal::Unsound => 10,
            Refusal::OutsideCover => 11,
            Refusal::BeforeTableDate => 12,
            Refusal::NotAfterTableDate => 13,
            Refusal::NotATradingDay => 14,
            Refusal::WeekLeftIdle => 15,
            Refusal::ListingBeyondCover => 16,
            Refusal::DueBeyondCover => 17,
            Refusal::NotListed => 18,
            Refusal::PriceOutOfRange => 19,
            Refusal::OffTick => 20,
            Refusal::NotAFuture => 21,
            Refusal::FinalOrContractsOutOfRange => 22,
            Refusal::NotADate => 23,
            Refusal::InFirstWeek => 24,
            Refusal::NoRoomForFile => 25,
            Refusal::NotAClosedWeekday => 26,
            Refusal::FrontChanges => 27,
            Refusal::RatioOutOfRange => 28,
            Refusal::MeasureOutOfRange => 29,
            Refusal::QueueNumberOutOfRange => 30,
            Refusal::WronglyQueued => 31,
        }
    }
}
