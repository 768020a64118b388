//! What becomes of a conflict, and the words for it.
ghost use Rattle.std.specs.Prelude.{◌≡◌};
ghost use Rattle.key_merge.specs.Strategies.{strategy_of};

/// Which side wins where both changed a key, and not alike. Under `Abort` none does: the conflicts are told instead.
#[derive(Clone, Copy, PartialEq, Eq, Drop)]
pub enum Strategy {
    Abort,
    Our,
    Their,
}

/// The strategy of a word.
pub fn strategy_of(word: &str) -> Option<Strategy>
    ensures { result ≡ strategy_of word.now }
{
    match word {
        "abort" => Some(Strategy::Abort),
        "our" => Some(Strategy::Our),
        "their" => Some(Strategy::Their),
        _ => None,
    }
}
