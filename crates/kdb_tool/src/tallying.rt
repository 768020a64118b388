//! What a history comes to: how many commits it has, which keys it leaves below the name of generated scripts, and the
//! sum of their values.
ghost use Rattle.std.specs.Prelude.{◌≡◌, IfOk, IfSome};
ghost use Rattle.kdb_tool.specs.Generated.{ComesTo, IsNumber, SumsTo, generated_keys, generated_name, number_of};

use commit_log::History;
use kdb_gen::Tally;
use key_meta::Memory;
use key_name::KeyName;
use key_set::KeySet;
use model_names::Namespace;
use std::alloc::{AllocError, Global};

/// The tally of a history. None where a value is no number, or their sum is too large for one.
pub fn tally_in(alloc: Global, history: &History) -> Result<Option<Tally>, Memory>
    ensures { IfOk result (λ found. IfSome found (ComesTo history.now.commits)) }
{
    let keys = generated_keys(alloc, history)?;
    match sum_of(&keys) {
        Some(sum) => Ok(Some(Tally {
            commits: history.len(),
            keys: keys.len() as u64,
            sum,
        })),
        None => Ok(None),
    }
}

/// The keys below that name behind all commits.
fn generated_keys(alloc: Global, history: &History) -> Result<KeySet, Memory>
    ensures { IfOk result (λ keys. keys ≡ generated_keys history.now.commits) }
{
    let keys = history.replay(&KeySet::new(alloc), history.len())?;
    keys.below(&generated_name(alloc)?)
}

/// The name that all keys of generated scripts stand below.
fn generated_name(alloc: Global) -> Result<KeyName, Memory>
    ensures { IfOk result (λ name. name ≡ generated_name) }
{
    match KeyName::root(alloc, Namespace::User).child("gen") {
        Ok(name) => Ok(name),
        // a part so short makes no name too long
        Err(_) => Err(AllocError),
    }
}

/// The sum of the values of some keys, where all are numbers.
fn sum_of(keys: &KeySet) -> Option<u64>
    ensures { IfSome result (SumsTo keys.now) }
{
    let mut sum: u64 = 0;
    for (_name, entry) in keys.iter() {
        let number = number_of(entry.value.as_str())?;
        sum = sum.checked_add(number)?;
    }
    Some(sum)
}

/// The number of a value, where it is one.
fn number_of(value: &str) -> Option<u64>
    ensures { IfSome result (λ number. IsNumber value.now × (number ≡ number_of value.now)) }
{
    match value.parse::<u64>() {
        Ok(number) => Some(number),
        Err(_) => None,
    }
}
