//! The keys that the sessions write.
ghost use Rattle.std.specs.Prelude.{◌≡◌, ◌≤◌, None, IfOk};
ghost use Rattle.kdb_gen.specs.Generated.{key_of, sessions, user_root};
ghost use Rattle.key_name.specs.Children.{child_of, child_refusal};

use key_meta::Memory;
use key_name::{KeyName, NameFault, Namespace};
use std::alloc::{AllocError, Global};

/// How many keys a session writes, in turn.
pub const KEYS_OF_SESSION: u32 = 10;

/// All keys stand at or below the root of `user`.
pub fn user_root(alloc: Global) -> KeyName
    ensures { result ≡ user_root }
{
    KeyName::root(alloc, Namespace::User)
}

/// The key that a session writes in a round.
pub fn key_of(alloc: Global, session: u32, round: u32) -> Result<KeyName, Memory>
    requires first { 1 ≤ session }
    requires last { session ≤ sessions }
    ensures { IfOk result (λ name. name ≡ key_of session round) }
{
    let place = round % KEYS_OF_SESSION;
    let all = child(&user_root(alloc), "gen")?;
    let own_part = format!(in alloc; "s{session}")?;
    let own = child(&all, own_part.as_str())?;
    let part = format!(in alloc; "k{place}")?;
    child(&own, part.as_str())
}

/// A name with a part behind its own that may stand there.
fn child(name: &KeyName, part: &str) -> Result<KeyName, Memory>
    requires { child_refusal name.now part.now ≡ None }
    ensures { IfOk result (λ child. child ≡ child_of name.now part.now) }
{
    match name.child(part) {
        Ok(child) => Ok(child),
        Err(NameFault::Memory) => Err(AllocError),
        Err(_) => unreachable!(),
    }
}
