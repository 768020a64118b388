//! What a lookup finds.

use key_meta::{Meta, Text};
use key_name::KeyName;

/// The name of the key that was found, with what it holds.
#[derive(Drop)]
pub struct Found {
    pub name: KeyName,
    pub value: Text,
    pub meta: Meta,
}
