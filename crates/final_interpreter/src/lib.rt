// The interpreter that holds the store it reads, as the Rust's `FinalizationInterpreter` does: thin functions over the covered questions.
#![tactic(auto)]

ghost use Rattle.std.specs.Prelude.{◌≡◌};
ghost use Rattle.types.specs.Values.{as_locator, as_maybe};
ghost use Rattle.final_spec.specs.Finality.{finality};
ghost use Rattle.list_ordinary_spec.specs.FinalShares.{next_final_share};
ghost use Rattle.final_question.specs.Answers.{as_finality};
ghost use Rattle.list_next.specs.Answers.{as_next_final};

use base::Refusal;
use final_question::FinalOrNot;
use types::TransactionLocator;

#[derive(Clone, Copy)]
pub struct Interpreter<'a> {
    pub store: &'a [u8],
}

pub fn new<'a>(store: &'a [u8]) -> Interpreter<'a>
    ensures { result.store ≡ store.entry }
{
    Interpreter { store }
}

// Whether a locator is final, in the store that is held.
pub fn finality<'s, 'a>(
    stakes: &'s [u64],
    interpreter: Interpreter<'a>,
    positions: &mut [u64],
    locator: TransactionLocator,
) -> Result<FinalOrNot, Refusal>
    ensures { (as_finality result ≡ (finality stakes.now interpreter.entry.store.now positions.old (as_locator locator)).answer) × (positions.new ≡ (finality stakes.now interpreter.entry.store.now positions.old (as_locator locator)).positions) }
{
    final_question::finality(stakes, interpreter.store, positions, locator)
}

// The least final stored share after a given locator, or from the start, in the store that is held.
pub fn next_final<'s, 'a>(
    stakes: &'s [u64],
    interpreter: Interpreter<'a>,
    after: Option<TransactionLocator>,
) -> Result<Option<TransactionLocator>, Refusal>
    ensures { as_next_final result ≡ next_final_share stakes.now interpreter.entry.store.now (as_maybe after) }
{
    list_next::next_final(stakes, interpreter.store, after)
}

// The finality question with plain parameters, for every other caller.
pub fn finality_held(
    stakes: &[u64],
    store: &[u8],
    positions: &mut [u64],
    locator: TransactionLocator,
) -> Result<FinalOrNot, Refusal>
    ensures { (as_finality result ≡ (finality stakes.now store.now positions.old (as_locator locator)).answer) × (positions.new ≡ (finality stakes.now store.now positions.old (as_locator locator)).positions) }
{
    finality(stakes, new(store), positions, locator)
}

// The next final stored share with plain parameters.
pub fn next_final_held(
    stakes: &[u64],
    store: &[u8],
    after: Option<TransactionLocator>,
) -> Result<Option<TransactionLocator>, Refusal>
    ensures { as_next_final result ≡ next_final_share stakes.now store.now (as_maybe after) }
{
    next_final(stakes, new(store), after)
}
