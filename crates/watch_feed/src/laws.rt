//! Laws of news, and of watches that look at a history as it goes on. Nothing here runs: each function stands for its
//! contract.
ghost use Rattle.std.specs.Prelude.{◌≡◌, ℕ, ◌≤◌, ◌++◌, List, length};
ghost use mathlib.Core.List.{IsPrefix};
ghost use Rattle.model_history.specs.History.{Commit};
ghost use Rattle.model_names.specs.Name.{Name};
ghost use Rattle.watch_feed.specs.News.{news};
ghost use Rattle.watch_feed.specs.Polls.{AreFronts, AreTold, last_front, polls};
ghost use Rattle.watch_feed.specs.Watches.{WatchValue, collected, watching};

/// The news between two fronts are those up to a third one between them, and then those from there on.
pub fn news_go_on_from_front_to_front()
    ensures { (history : List Commit) (from middle to : ℕ) (parent : Name) → from ≤ middle → middle ≤ to
        → to ≤ length history
        → news history from to parent ≡ news history from middle parent ++ news history middle to parent }
{}

/// A watch that looks at a history twice, as it goes on, has the same to tell as one that looks once.
pub fn two_collects_are_one()
    ensures { (watch : WatchValue) (before after : List Commit) → watch.front ≤ length before → IsPrefix before after
        → collected (collected watch before) after ≡ collected watch after }
{}

/// Polls one after the other tell each change once, in order, or count it as missed. None misses a change while it has
/// room.
pub fn polls_tell_each_change_once()
    ensures { (history : List Commit) (parent : Name) (room from : ℕ) (fronts : List ℕ) → AreFronts history from fronts
        → AreTold room (news history from (last_front from fronts) parent) (polls history (watching parent room from) fronts) }
{}
