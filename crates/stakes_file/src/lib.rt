// A network's own stakes, loaded from the file `stakes` (document 02, "Five").
#![tactic(auto)]

ghost use Rattle.std.specs.Prelude.{◌≡◌, ◌≤◌, length, take};
ghost use Rattle.std.proofs.Math.Option.{some};
ghost use Rattle.base.specs.Checks.{answered, checked};
ghost use Rattle.committee.specs.Committee.{committee_checks};
ghost use Rattle.stakes_chain.specs.Chain.{Inside};
ghost use Rattle.stakes_file.specs.Load.{members_at, load_along, load, loaded_into};
ghost use Rattle.stakes_file.specs.Answers.{as_load};
ghost use Rattle.stakes_file.specs.Claims.{Claims};
ghost use Rattle.stakes_file.specs.Examples.{Examples};

use base::Refusal;

// Puts the stakes in the records of the indexes in front.
fn stakes_along(file: &[u8], indexes: &[u16], stakes: &mut [u64])
    requires { Inside file.now indexes.now × (length indexes.now ≤ length stakes.old) }
    ensures { take (length indexes.now) stakes.new ≡ members_at file.now indexes.now }
{
    for k in 0..indexes.len() {
        stakes[k] = base::read_u64(file, stakes_chain::place(indexes[k]) + 18);
    }
}

// Puts the members in front of the words that are lent, if these are enough.
fn put_in_front(members: &[u64], stakes: &mut [u64]) -> Result<usize, Refusal>
    ensures result_value { as_load result ≡ (loaded_into (answered members.now) stakes.old).answer }
    ensures stakes_after { stakes.new ≡ (loaded_into (answered members.now) stakes.old).stakes }
{
    if stakes.len() < members.len() {
        return Err(Refusal::AnswerSlice);
    }
    for i in 0..members.len() {
        stakes[i] = members[i];
    }
    Ok(members.len())
}

// The same where they are a committee: 1 to 4.
fn put_committee(members: &[u64], stakes: &mut [u64]) -> Result<usize, Refusal>
    ensures result_value { as_load result ≡ (loaded_into (checked (committee_checks members.now) members.now) stakes.old).answer }
    ensures stakes_after { stakes.new ≡ (loaded_into (checked (committee_checks members.now) members.now) stakes.old).stakes }
{
    committee::new_committee(members)?;
    put_in_front(members, stakes)
}

// The members along a chain that is not broken: 57, then 1 to 4.
fn load_along(file: &[u8], indexes: &[u16], stakes: &mut [u64]) -> Result<usize, Refusal>
    requires { Inside file.now indexes.now × (length indexes.now ≤ 2520) }
    ensures result_value { as_load result ≡ (loaded_into (load_along file.now (some indexes.now)) stakes.old).answer }
    ensures stakes_after { stakes.new ≡ (loaded_into (load_along file.now (some indexes.now)) stakes.old).stakes }
{
    if !stakes_names::good_names(file, indexes) {
        return Err(Refusal::StakesFileName);
    }
    let n = indexes.len();
    let mut members = [0u64; 2520];
    stakes_along(file, indexes, &mut members);
    put_committee(&members[..n], stakes)
}

// Loads the table from the bytes of the file: 56, 57, 1 to 4, then 40 for fewer words than members. An absent file is an empty one.
pub fn load(file: &[u8], stakes: &mut [u64]) -> Result<usize, Refusal>
    ensures result_value { as_load result ≡ (loaded_into (load file.now) stakes.old).answer }
    ensures stakes_after { stakes.new ≡ (loaded_into (load file.now) stakes.old).stakes }
{
    if file.len() == 0 {
        let course = committee::course_committee();
        return put_in_front(&course, stakes);
    }
    let mut indexes = [0u16; 2520];
    let Some(n) = stakes_chain::chain(file, &mut indexes) else {
        return Err(Refusal::StakesFileBroken);
    };
    load_along(file, &indexes[..n], stakes)
}

// What loading gives, sentence by sentence.
pub fn claims()
    ensures { Claims }
{}

// Small files with what they load.
pub fn examples()
    ensures { Examples }
{}
