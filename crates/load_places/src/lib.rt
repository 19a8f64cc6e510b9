// The places of the list of loadable shares: what is written, read back, and looked up by halving.
#![tactic(auto)]

ghost use Rattle.std.specs.Prelude.{◌≡◌, true, [], ◌∷◌, ◌+◌, ◌*◌, ◌≤◌, ◌<◌, length, get_or};
ghost use Rattle.std.proofs.lemmas.List.Edits.{sets};
ghost use Rattle.base.specs.Lists.{pick, any_of};
ghost use Rattle.record_spec.specs.Reference.{same_locator};
ghost use Rattle.types.specs.Values.{as_locator};
ghost use Rattle.store_spec.specs.Entry.{is_entry};
ghost use Rattle.load_spec.specs.Loadable.{met};
ghost use Rattle.load_spec.specs.Question.{named_by};
ghost use Rattle.load_needed.specs.Answers.{as_needed};
ghost use Rattle.load_places.specs.Listed.{place_at, Listed, met_by};

use std::cmp::Ordering;
use types::TransactionLocator;

// The share that a place names.
fn share_at(store: &[u8], places: &[u64], i: usize) -> TransactionLocator
    requires { (2 * i + 1 < length places.now) × (is_entry store.now (get_or places.now (2 * i) 0) ≡ true) }
    ensures { as_locator result ≡ place_at store.now places.now i }
{
    let at = places[2 * i] as usize;
    let block = store_entries::reference_at(store, at);
    TransactionLocator {
        block,
        offset: places[2 * i + 1],
    }
}

// Whether a share is at one of the first n places, which ascend by locator.
fn is_listed(store: &[u8], places: &[u64], n: usize, share: TransactionLocator) -> bool
    requires { Listed store.now places.now n }
    ensures { result ≡ any_of (same_locator (as_locator share)) (named_by store.now n places.now) }
{
    let mut low: usize = 0;
    let mut high = n;
    while low < high {
        let middle = low + (high - low) / 2;
        let compared = types::compare_locators(share_at(store, places, middle), share);
        match compared {
            Ordering::Equal => {
                return true;
            }
            Ordering::Less => {
                low = middle + 1;
            }
            Ordering::Greater => {
                high = middle;
            }
        }
    }
    false
}

// Whether what a share needs, if anything, is of a lower round and at one of the first n places.
fn is_met(
    store: &[u8],
    places: &[u64],
    n: usize,
    share: TransactionLocator,
    needed: Option<TransactionLocator>,
) -> bool
    requires { Listed store.now places.now n }
    ensures { result ≡ met (λ m. any_of (same_locator m) (named_by store.now n places.now)) (as_locator share) (as_needed needed) }
{
    let Some(change) = needed else {
        return true;
    };
    if share.block.round.0 <= change.block.round.0 {
        return false;
    }
    is_listed(store, places, n, change)
}

// Puts a final share of that payload, whose block's entry stands at a position, after the first n places if what it needs is among them;
// the answer is how many there are then.
pub fn list_share(
    store: &[u8],
    places: &mut [u64],
    n: usize,
    at: usize,
    share: TransactionLocator,
    bytes: &[u8],
) -> usize
    requires { Listed store.now places.old n × (2 * n + 2 ≤ length places.old) }
    ensures value { result ≡ pick (met_by store.now n places.old (as_locator share) bytes.now) (n + 1) n }
    ensures places_after { places.new ≡ pick (met_by store.now n places.old (as_locator share) bytes.now) (sets places.old (2 * n) (at ∷ share.offset ∷ [])) places.old }
{
    let needed = load_needed::needed_by(bytes);
    if !is_met(store, places, n, share, needed) {
        return n;
    }
    places[2 * n] = at as u64;
    places[2 * n + 1] = share.offset;
    n + 1
}
