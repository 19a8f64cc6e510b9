// Whether a list of final locators shows a locator of which it is marked who votes for it, who rejects it and whose share it is, and which blocks
// certify it then.
#![tactic(auto)]

ghost use Rattle.std.specs.Prelude.{◌≡◌, ◌≤◌, length};
ghost use Rattle.final_block_votes.specs.Walk.{SortedStore};
ghost use Rattle.list_marked.specs.Marked.{Walkable, MarkedIn, CertifiedAll, MayShow, ShownAll};

use committee::Stake;
use committee_set::AuthoritySet;
use final_certifying::Certifiers;
use list_lanes::Wanted;

// ---- who votes

// The authors of the marked blocks.
fn marked_authors(store: &[u8], order: &[u64], marks: &[u64]) -> AuthoritySet
    requires { SortedStore store.now order.now × ((length order.now ≤ 1024) × (length marks.now ≡ 3072)) }
    ensures { MarkedIn store.now order.now marks.now (length order.now) result }
{
    let mut authors = AuthoritySet::new();
    for k in 0..order.len() {
        if marks[k] != 1 {
            continue;
        }
        let author = store_entries::author_at(store, order[k] as usize);
        authors = authors.insert(author);
    }
    authors
}

// ---- who certifies

// The blocks that certify, by the marks of those who vote and, where owners may withdraw, of those who reject.
fn certify(
    stakes: &[u64],
    total: Stake,
    store: &[u8],
    order: &[u64],
    sets: &[u64],
    wanted: Wanted,
    marks: &[u64],
    certified: &mut [u64],
) -> Certifiers
    requires { Walkable stakes.now total store.now order.now sets.now marks.now certified.old }
    ensures { CertifiedAll wanted stakes.now store.now order.now marks.now certified.new result }
{
    let own = &marks[0..1024];
    let nobody = &marks[0..0];
    let reading = wanted.reading;
    if !list_lanes::wants_rejects(reading) {
        return list_walk::walk(stakes, total, store, order, sets, own, nobody, certified);
    }
    let rejects = &marks[1024..2048];
    if !list_ancestry::any_marked(rejects, order.len()) {
        return list_walk::walk(stakes, total, store, order, sets, own, nobody, certified);
    }
    let mut rejecters = [0u64; 2048];
    list_ancestry::spread(store, order, sets, rejects, &mut rejecters);
    list_walk::walk(
        stakes, total, store, order, sets, own, &rejecters, certified,
    )
}

// ---- what the list shows

// Whether the list may show it: the ordinary one shows stored shares only.
fn may_show(order: &[u64], wanted: Wanted, marks: &[u64]) -> bool
    requires { (length order.now ≤ 1024) × (length marks.now ≡ 3072) }
    ensures { MayShow wanted marks.now (length order.now) result }
{
    let list = wanted.list;
    if !list_lanes::wants_shares(list) {
        return true;
    }
    list_ancestry::any_marked(&marks[2048..3072], order.len())
}

// What these marks say of the list: it shows the locator, with these certifying blocks, or does not. The walk over the blocks is made only where the
// authors of those who vote hold quorum.
pub fn shown_marks(
    stakes: &[u64],
    total: Stake,
    store: &[u8],
    order: &[u64],
    sets: &[u64],
    wanted: Wanted,
    marks: &[u64],
    certified: &mut [u64],
) -> Option<Certifiers>
    requires { Walkable stakes.now total store.now order.now sets.now marks.now certified.old }
    ensures { ShownAll wanted stakes.now store.now order.now marks.now certified.new result }
{
    if !may_show(order, wanted, marks) {
        return None;
    }
    let authors = marked_authors(store, order, marks);
    if !committee::is_quorum(total, committee_set::stake_of(stakes, authors)) {
        return None;
    }
    let found = certify(stakes, total, store, order, sets, wanted, marks, certified);
    if !committee::is_quorum(total, committee_set::stake_of(stakes, found.authors)) {
        return None;
    }
    Some(found)
}
