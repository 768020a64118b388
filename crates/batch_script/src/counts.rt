//! Words that count.
ghost use Rattle.std.specs.Prelude.{◌≡◌, ◌≤◌, IfSome};
ghost use Rattle.model_names.specs.ArrayPart.{are_digits, has_leading_zero};
ghost use Rattle.batch_script.specs.Counts.{commit_number_of, count_of, tries_of, watch_room_of};
ghost use Rattle.batch_script.specs.Rows.{most_sessions, session_of};

use crate::commit_numbers::{CommitNumber, LARGEST_COMMIT_NUMBER};
use crate::tries::{MOST_TRIES, Tries};
use crate::watch_rooms::{LARGEST_WATCH_ROOM, WatchRoom};

/// The most sessions of a script.
pub const MOST_SESSIONS: u32 = 32;

/// The session that a word numbers.
pub fn session_of(word: &str) -> Option<u32>
    ensures session { result ≡ session_of word.now }
    ensures limits { IfSome result (λ session. (1 ≤ session) × (session ≤ most_sessions)) }
{
    count_of(MOST_SESSIONS, word)
}

/// How often a merge is tried, by a word.
pub fn tries_of(word: &str) -> Option<Tries>
    ensures { result ≡ tries_of word.now }
{
    match count_of(MOST_TRIES, word) {
        Some(count) => Tries::new(count),
        None => None,
    }
}

/// How many changes a watch has room for, by a word.
pub fn watch_room_of(word: &str) -> Option<WatchRoom>
    ensures { result ≡ watch_room_of word.now }
{
    match count_of(LARGEST_WATCH_ROOM, word) {
        Some(count) => WatchRoom::new(count),
        None => None,
    }
}

/// The number of a commit, by a word.
pub fn commit_number_of(word: &str) -> Option<CommitNumber>
    ensures { result ≡ commit_number_of word.now }
{
    match count_of(LARGEST_COMMIT_NUMBER, word) {
        Some(count) => CommitNumber::new(count),
        None => None,
    }
}

/// The number of a word that counts from 1 on, and no more than so much.
pub fn count_of(most: u32, word: &str) -> Option<u32>
    ensures count { result ≡ count_of most word.now }
    ensures limits { IfSome result (λ count. (1 ≤ count) × (count ≤ most)) }
{
    if !are_digits(word) {
        return None;
    }
    if has_leading_zero(word) {
        return None;
    }
    match word.parse::<u32>() {
        Ok(number) => {
            if 1 <= number && number <= most {
                Some(number)
            } else {
                None
            }
        }
        Err(_) => None,
    }
}

/// Whether a zero stands before other digits.
fn has_leading_zero(digits: &str) -> bool
    ensures { result ≡ has_leading_zero digits.now }
{
    digits.len() > 1 && digits.as_bytes()[0] == b'0'
}

fn are_digits(text: &str) -> bool
    ensures { result ≡ are_digits text.now }
{
    !text.is_empty() && text.as_bytes().iter().all(|b| b.is_ascii_digit())
}
