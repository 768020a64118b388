//! What a watch is told: the changes of new commits at or below a parent, the last ones of which it keeps.
#![tactic(auto)]

mod laws;
mod news;
mod rings;
mod telling;
mod watches;

pub use laws::{news_go_on_from_front_to_front, polls_tell_each_change_once, two_collects_are_one};
pub use news::{Changed, News};
pub use watches::{MOST_ROOM, Watch};
