// The lanes: which ranges of which block each of them has, and which of them a list wants.
#![tactic(auto)]

ghost use Rattle.std.specs.Prelude.{◌≡◌};
ghost use Rattle.list_readings_spec.specs.Answers.{is_ordinary};
ghost use Rattle.list_lanes.specs.Lanes.{lane_kind, wants_rejects, wants_lane};

use final_readings_spec::Reading;
use list_kind_ranges::RangeKind;
use list_readings_spec::FinalList;

// The list that is asked for. Votes are always wanted; where owners may withdraw rejects are too, and shares for the ordinary list.
#[derive(Clone, Copy)]
pub struct Wanted {
    pub reading: Reading,
    pub list: FinalList,
}

// The lanes: the votes of 1,024 blocks by their places, then their rejects, then their shares.
pub const LANES: usize = 3072;

pub fn lane_kind(lane: usize) -> RangeKind
    ensures { result ≡ lane_kind lane }
{
    if lane < 1024 {
        return RangeKind::Votes;
    }
    if lane < 2048 {
        return RangeKind::Rejects;
    }
    RangeKind::Shares
}

pub fn wants_rejects(reading: Reading) -> bool
    ensures { result ≡ wants_rejects reading }
{
    match reading {
        Reading::Old => false,
        Reading::Withdrawing => true,
    }
}

pub fn wants_shares(list: FinalList) -> bool
    ensures { result ≡ is_ordinary list }
{
    match list {
        FinalList::Ordinary => true,
        FinalList::Wide => false,
    }
}

pub fn wants_lane(wanted: Wanted, lane: usize) -> bool
    ensures { result ≡ wants_lane wanted lane }
{
    if lane < 1024 {
        return true;
    }
    if lane < 2048 {
        let reading = wanted.reading;
        return wants_rejects(reading);
    }
    let list = wanted.list;
    wants_shares(list)
}
