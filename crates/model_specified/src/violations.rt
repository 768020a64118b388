//! Which key breaks a rule.

use key_meta::Text;
use key_name::KeyName;

/// A key that breaks a rule, the rule by its number, and the text that broke it: the metadata text where that is at
/// fault, and else the value in the specified set.
#[derive(Drop)]
pub struct Violation {
    pub key: KeyName,
    pub rule: u8,
    pub given: Text,
}
