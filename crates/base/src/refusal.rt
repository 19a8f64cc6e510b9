// The refusals of the calls, each with its number, and what a call answers: a value, or a refusal. The names are those of the host's crate.

ghost use Rattle.std.specs.Prelude.{◌≡◌};
ghost use Rattle.base.specs.Refusals.{refusal_number};

// Why a call is refused.
#[derive(Clone, Copy)]
pub enum Refusal {
    // 1: the committee has no stakes
    NoStakes,
    // 2: a stake of the committee is zero
    ZeroStake,
    // 3: the committee has more than 128 members
    TooManyMembers,
    // 4: the total stake is over 2^63 - 1
    TotalTooLarge,
    // 5: the stakes are no committee
    BrokenCommittee,
    // 6: the aggregator has unknown voters, or a stake that is not their sum
    BrokenAggregator,
    // 10: the store is not in order
    StoreNotInOrder,
    // 11: the pending table is not in order
    TableNotInOrder,
    // 12: the work slice is shorter than the pending table
    WorkTooShort,
    // 13: the store is full
    StoreFull,
    // 14: the pending table is full
    TableFull,
    // 15: the slice for events is too short
    EventsTooShort,
    // 20: the record, locator or reference is malformed
    Malformed,
    // 21: the author is not in the committee
    UnknownAuthor,
    // 22: a block of round 0 has includes or statements
    RoundZeroNotEmpty,
    // 23: a block of that reference is stored already
    StoredAlready,
    // 24: the author of an include is not in the committee
    UnknownIncludeAuthor,
    // 25: the round of an include is not lower than the block's
    IncludeRoundNotLower,
    // 26: the end of a range is below its start
    RangeEndBelowStart,
    // 27: the end of a range is 1,048,576 or more
    RangeEndTooLarge,
    // 28: the offset of an accept is 2^64 - 1
    AcceptOffsetTooLarge,
    // 29: the authors of the includes of the round before do not hold quorum
    ClockNotMet,
    // 30: an include is not stored
    IncludeNotStored,
    // 40: a slice for the answer has another length than the call asks for
    AnswerSlice,
    // 41: no such share is stored
    NoSuchShare,
    // 42: the locator is not pending
    NotPending,
    // 50: the slice to be written is too short
    TooShortToWrite,
    // 51: no record has that form
    NotWritable,
    // 52: the slip does not hold or is of another form, or none can be written since the locator is not final
    SlipNotHeld,
    // 53: a record that the slip names is missing
    SlipRecordMissing,
    // 54: the index disagrees with the store
    IndexDisagrees,
    // 55: the index is too short for the block's part
    IndexTooShort,
    // 56: the file of stakes is broken
    StakesFileBroken,
    // 57: a name in the file of stakes is bad or comes twice
    StakesFileName,
    // 58: the slice for the list has fewer places than there are stored shares
    PlacesTooShort,
    // 59: the blast calendar has too many windows, or one that is empty, overlaps, or is out of order or range
    BrokenCalendar,
    // 60: all who can be reached miss quorum together with the voters
    QuorumOutOfReach,
    // 61: the first byte of the slip names no reading
    SlipReadingUnknown,
    // 62: the locators are not sorted, or not whole
    LocatorsNotSorted,
    // 63: the slice for replies is too short
    RepliesTooShort,
    // 64: the slice for outcomes has fewer words than there are records
    OutcomesTooShort,
}

impl Refusal {
    // Its number.
    pub fn number(self) -> u64
        ensures { result ≡ refusal_number self }
    {
        match self {
            Refusal::NoStakes => 1,
            Refusal::ZeroStake => 2,
            Refusal::TooManyMembers => 3,
            Refusal::TotalTooLarge => 4,
            Refusal::BrokenCommittee => 5,
            Refusal::BrokenAggregator => 6,
            Refusal::StoreNotInOrder => 10,
            Refusal::TableNotInOrder => 11,
            Refusal::WorkTooShort => 12,
            Refusal::StoreFull => 13,
            Refusal::TableFull => 14,
            Refusal::EventsTooShort => 15,
            Refusal::Malformed => 20,
            Refusal::UnknownAuthor => 21,
            Refusal::RoundZeroNotEmpty => 22,
            Refusal::StoredAlready => 23,
            Refusal::UnknownIncludeAuthor => 24,
            Refusal::IncludeRoundNotLower => 25,
            Refusal::RangeEndBelowStart => 26,
            Refusal::RangeEndTooLarge => 27,
            Refusal::AcceptOffsetTooLarge => 28,
            Refusal::ClockNotMet => 29,
            Refusal::IncludeNotStored => 30,
            Refusal::AnswerSlice => 40,
            Refusal::NoSuchShare => 41,
            Refusal::NotPending => 42,
            Refusal::TooShortToWrite => 50,
            Refusal::NotWritable => 51,
            Refusal::SlipNotHeld => 52,
            Refusal::SlipRecordMissing => 53,
            Refusal::IndexDisagrees => 54,
            Refusal::IndexTooShort => 55,
            Refusal::StakesFileBroken => 56,
            Refusal::StakesFileName => 57,
            Refusal::PlacesTooShort => 58,
            Refusal::BrokenCalendar => 59,
            Refusal::QuorumOutOfReach => 60,
            Refusal::SlipReadingUnknown => 61,
            Refusal::LocatorsNotSorted => 62,
            Refusal::RepliesTooShort => 63,
            Refusal::OutcomesTooShort => 64,
        }
    }
}
