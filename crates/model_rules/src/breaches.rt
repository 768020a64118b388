//! What a value breaks.

use key_meta::Text;

/// A rule that is broken, by its number, and the text that broke it: the metadata text where that is at fault, and else
/// the value.
#[derive(Drop)]
pub struct Broken {
    pub rule: u8,
    pub given: Text,
}
