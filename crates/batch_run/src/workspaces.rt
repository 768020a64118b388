//! What a session has beside its handle.

use key_set::KeySet;
use watch_feed::Watch;

/// The working set of a session, and its watch where it has one.
#[derive(Drop)]
pub struct Workspace {
    pub keys: KeySet,
    pub watch: Option<Watch>,
}
