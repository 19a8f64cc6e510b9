// The lists of final locators, asked on and in bulk.
ghost use Rattle.std.specs.Prelude.{◌≡◌};
ghost use Rattle.host_calls.specs.Calls.{encoded};
ghost use Rattle.host_finals.specs.NextFinal.{next_final_call, next_wide_call, next_final_withdrawing_call, next_wide_withdrawing_call};
ghost use Rattle.host_finals.specs.Stretches.{stretches_call, wide_stretches_call, stretches_withdrawing_call, wide_stretches_withdrawing_call};
ghost use Rattle.host_index_finals.specs.Indexed.{stretches_indexed_call, wide_stretches_indexed_call};

use final_readings_spec::Reading;
use list_readings_spec::FinalList;

// The least final stored share after a given locator, or from the start: 1 where it was written, 0 where none is left.
#[unsafe(no_mangle)]
pub extern "C" fn lomkhvide_next_final(
    stakes: &[u8],
    store: &[u8],
    after: &[u8],
    found: &mut [u8],
) -> u64
    ensures value { result ≡ encoded (next_final_call stakes.now store.now after.now found.old).answer }
    ensures found_after { found.new ≡ (next_final_call stakes.now store.now after.now found.old).found }
{
    let mut held = [0u64; committee::MAX_MEMBERS];
    let n = host_calls::stakes_of(stakes, &mut held);
    host_finals::next_final_of(
        &held[..n],
        store,
        FinalList::Ordinary,
        Reading::Old,
        after,
        found,
    )
}

// The ordinary list after a given locator, or from the start, in stretches of ten words: twice their number, and 1 more where a locator of
// the list follows them.
#[unsafe(no_mangle)]
pub extern "C" fn lomkhvide_final_stretches(
    stakes: &[u8],
    store: &[u8],
    after: &[u8],
    out: &mut [u8],
) -> u64
    ensures value { result ≡ encoded (stretches_call stakes.now store.now after.now out.old).answer }
    ensures out_after { out.new ≡ (stretches_call stakes.now store.now after.now out.old).stretches }
{
    let mut held = [0u64; committee::MAX_MEMBERS];
    let n = host_calls::stakes_of(stakes, &mut held);
    host_finals::stretches_of(
        &held[..n],
        store,
        FinalList::Ordinary,
        Reading::Old,
        after,
        out,
    )
}

// The least final locator after a given one, stored or not, in the same form.
#[unsafe(no_mangle)]
pub extern "C" fn lomkhvide_next_wide(
    stakes: &[u8],
    store: &[u8],
    after: &[u8],
    found: &mut [u8],
) -> u64
    ensures value { result ≡ encoded (next_wide_call stakes.now store.now after.now found.old).answer }
    ensures found_after { found.new ≡ (next_wide_call stakes.now store.now after.now found.old).found }
{
    let mut held = [0u64; committee::MAX_MEMBERS];
    let n = host_calls::stakes_of(stakes, &mut held);
    host_finals::next_final_of(
        &held[..n],
        store,
        FinalList::Wide,
        Reading::Old,
        after,
        found,
    )
}

// The wide list in stretches, in the same form.
#[unsafe(no_mangle)]
pub extern "C" fn lomkhvide_wide_stretches(
    stakes: &[u8],
    store: &[u8],
    after: &[u8],
    out: &mut [u8],
) -> u64
    ensures value { result ≡ encoded (wide_stretches_call stakes.now store.now after.now out.old).answer }
    ensures out_after { out.new ≡ (wide_stretches_call stakes.now store.now after.now out.old).stretches }
{
    let mut held = [0u64; committee::MAX_MEMBERS];
    let n = host_calls::stakes_of(stakes, &mut held);
    host_finals::stretches_of(&held[..n], store, FinalList::Wide, Reading::Old, after, out)
}

// The least final stored share after a given locator where owners may withdraw, in the same form.
#[unsafe(no_mangle)]
pub extern "C" fn lomkhvide_next_final_withdrawing(
    stakes: &[u8],
    store: &[u8],
    after: &[u8],
    found: &mut [u8],
) -> u64
    ensures value { result ≡ encoded (next_final_withdrawing_call stakes.now store.now after.now found.old).answer }
    ensures found_after { found.new ≡ (next_final_withdrawing_call stakes.now store.now after.now found.old).found }
{
    let mut held = [0u64; committee::MAX_MEMBERS];
    let n = host_calls::stakes_of(stakes, &mut held);
    host_finals::next_final_of(
        &held[..n],
        store,
        FinalList::Ordinary,
        Reading::Withdrawing,
        after,
        found,
    )
}

// The ordinary list where owners may withdraw in stretches, in the same form.
#[unsafe(no_mangle)]
pub extern "C" fn lomkhvide_final_stretches_withdrawing(
    stakes: &[u8],
    store: &[u8],
    after: &[u8],
    out: &mut [u8],
) -> u64
    ensures value { result ≡ encoded (stretches_withdrawing_call stakes.now store.now after.now out.old).answer }
    ensures out_after { out.new ≡ (stretches_withdrawing_call stakes.now store.now after.now out.old).stretches }
{
    let mut held = [0u64; committee::MAX_MEMBERS];
    let n = host_calls::stakes_of(stakes, &mut held);
    host_finals::stretches_of(
        &held[..n],
        store,
        FinalList::Ordinary,
        Reading::Withdrawing,
        after,
        out,
    )
}

// The least final locator after a given one, stored or not, where owners may withdraw, in the same form.
#[unsafe(no_mangle)]
pub extern "C" fn lomkhvide_next_wide_withdrawing(
    stakes: &[u8],
    store: &[u8],
    after: &[u8],
    found: &mut [u8],
) -> u64
    ensures value { result ≡ encoded (next_wide_withdrawing_call stakes.now store.now after.now found.old).answer }
    ensures found_after { found.new ≡ (next_wide_withdrawing_call stakes.now store.now after.now found.old).found }
{
    let mut held = [0u64; committee::MAX_MEMBERS];
    let n = host_calls::stakes_of(stakes, &mut held);
    host_finals::next_final_of(
        &held[..n],
        store,
        FinalList::Wide,
        Reading::Withdrawing,
        after,
        found,
    )
}

// The wide list where owners may withdraw in stretches, in the same form.
#[unsafe(no_mangle)]
pub extern "C" fn lomkhvide_wide_stretches_withdrawing(
    stakes: &[u8],
    store: &[u8],
    after: &[u8],
    out: &mut [u8],
) -> u64
    ensures value { result ≡ encoded (wide_stretches_withdrawing_call stakes.now store.now after.now out.old).answer }
    ensures out_after { out.new ≡ (wide_stretches_withdrawing_call stakes.now store.now after.now out.old).stretches }
{
    let mut held = [0u64; committee::MAX_MEMBERS];
    let n = host_calls::stakes_of(stakes, &mut held);
    host_finals::stretches_of(
        &held[..n],
        store,
        FinalList::Wide,
        Reading::Withdrawing,
        after,
        out,
    )
}

// The ordinary list with the index, in the same form.
#[unsafe(no_mangle)]
pub extern "C" fn lomkhvide_final_stretches_indexed(
    stakes: &[u8],
    store: &[u8],
    index: &[u64],
    after: &[u8],
    out: &mut [u8],
) -> u64
    ensures value { result ≡ encoded (stretches_indexed_call stakes.now store.now index.now after.now out.old).answer }
    ensures out_after { out.new ≡ (stretches_indexed_call stakes.now store.now index.now after.now out.old).stretches }
{
    let mut held = [0u64; committee::MAX_MEMBERS];
    let n = host_calls::stakes_of(stakes, &mut held);
    host_index_finals::stretches_of(&held[..n], store, FinalList::Ordinary, index, after, out)
}

// The wide list with the index, in the same form.
#[unsafe(no_mangle)]
pub extern "C" fn lomkhvide_wide_stretches_indexed(
    stakes: &[u8],
    store: &[u8],
    index: &[u64],
    after: &[u8],
    out: &mut [u8],
) -> u64
    ensures value { result ≡ encoded (wide_stretches_indexed_call stakes.now store.now index.now after.now out.old).answer }
    ensures out_after { out.new ≡ (wide_stretches_indexed_call stakes.now store.now index.now after.now out.old).stretches }
{
    let mut held = [0u64; committee::MAX_MEMBERS];
    let n = host_calls::stakes_of(stakes, &mut held);
    host_index_finals::stretches_of(&held[..n], store, FinalList::Wide, index, after, out)
}
