//! What becomes of one name.
ghost use Rattle.std.specs.Prelude.{◌≡◌};
ghost use Rattle.std.specs.Option.{option_map};
ghost use Rattle.key_set.specs.EntryView.{entry_of};
ghost use Rattle.key_merge.specs.Merging.{choice_of, is_same_entry, is_taken_from_their};

use crate::Strategy;
use key_set::Entry;

/// Where the entry of a name comes from, or that both sides changed it, and not alike.
#[derive(Clone, Copy, PartialEq, Eq, Drop)]
pub enum Choice {
    Our,
    Their,
    Conflict,
}

/// What becomes of a name that has these entries, each perhaps absent.
pub fn choose(base: Option<&Entry>, our: Option<&Entry>, their: Option<&Entry>) -> Choice
    ensures { result
        ≡ choice_of (option_map (λ e. entry_of e.now) base.entry) (option_map (λ e. entry_of e.now) our.entry) (option_map (λ e. entry_of e.now) their.entry) }
{
    if is_same(our, their) {
        Choice::Our
    } else if is_same(our, base) {
        Choice::Their
    } else if is_same(their, base) {
        Choice::Our
    } else {
        Choice::Conflict
    }
}

/// Whether the other side's entry is taken.
pub fn takes_their(choice: Choice, strategy: Strategy) -> bool
    ensures { result ≡ is_taken_from_their strategy choice }
{
    match choice {
        Choice::Our => false,
        Choice::Their => true,
        Choice::Conflict => match strategy {
            Strategy::Their => true,
            _ => false,
        },
    }
}

/// Whether two entries, each perhaps absent, are the same.
fn is_same(one: Option<&Entry>, other: Option<&Entry>) -> bool
    ensures { result
        ≡ is_same_entry (option_map (λ e. entry_of e.now) one.entry) (option_map (λ e. entry_of e.now) other.entry) }
{
    match (one, other) {
        (None, None) => true,
        (Some(one), Some(other)) => one == other,
        _ => false,
    }
}
