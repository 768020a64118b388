//! The names of hosts and aliases: words as parts, as they stand.
ghost use Rattle.std.specs.Prelude.{◌≡◌, ◌==◌, ◌∷◌, [], IfOk, MatchOption};
ghost use Rattle.std.specs.List.{list_any};
ghost use Rattle.model_names.specs.declared.namespaces.Namespace.TheVariants.{Cascading};
ghost use Rattle.model_names.specs.WellFormed.{IsName};
ghost use Rattle.key_name.specs.Children.{child_of};
ghost use Rattle.model_hosts.specs.Keys.{family};

use file_lines::hand_on_memory;
use key_meta::Memory;
use key_name::{KeyName, Namespace};
use std::alloc::{AllocError, Global};

/// The name with a word behind its parts; none where that is no name.
pub fn child(above: &KeyName, word: &[u8]) -> Result<Option<KeyName>, Memory>
    ensures { IfOk result (λ found. MatchOption found
        (IsName (child_of above.now word.now) → ⊥)
        (λ name. (name ≡ child_of above.now word.now) × IsName name)) }
{
    let Ok(part) = str::from_utf8(word) else {
        return Ok(None);
    };
    match above.child(part) {
        Ok(name) => Ok(Some(name)),
        Err(fault) => {
            hand_on_memory(fault)?;
            Ok(None)
        }
    }
}

/// The name of the family of an address.
pub fn family_name(alloc: Global, address: &[u8]) -> Result<KeyName, Memory>
    ensures { IfOk result (λ name. name ≡ record { namespace = Cascading; parts = family address.now ∷ [] }) }
{
    let root = KeyName::root(alloc, Namespace::Cascading);
    match root.child(family_of(address)) {
        Ok(name) => Ok(name),
        Err(_) => Err(AllocError),
    }
}

/// The family of an address.
pub fn family_of(address: &[u8]) -> &'static str
    ensures { result.now ≡ family address.now }
{
    if has_colon(address) { "ipv6" } else { "ipv4" }
}

/// Whether a colon stands among bytes.
fn has_colon(bytes: &[u8]) -> bool
    ensures { result ≡ list_any (λ b. b == 58) bytes.now }
{
    bytes.iter().any(|byte| *byte == b':')
}
