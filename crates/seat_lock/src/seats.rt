//! A seat outside of a turn.
ghost use Rattle.std.specs.Prelude.{◌≡◌, length};

use crate::views::View;
use atomic_table::Badge;
use std::marker::Model;

/// A thread's right to take turns at one lock, and what it has seen there. To contracts it is its lock, its number, all
/// entries that it has seen, and those that it made.
#[derive(Drop)]
pub struct Seat<E> {
    pub(crate) badge: Badge<View<E>>,
    pub(crate) number: u32,
    pub(crate) front: u64,
}

impl<E> Model for Seat<E> {
    ghost use Rattle.seat_lock.specs.Known.{Known, knowledge, known_code};
    ghost use Rattle.seat_lock.specs.Views.{seen_of, own_of};
    ghost use Rattle.seat_lock.specs.Boards.{IsSeated};

    ghost Value = { Known E };

    ghost coded = { known_code E.code };

    ghost view = { λ s. knowledge s.badge.table_id s.number (seen_of s.badge.views) (own_of s.badge.views) };

    ghost invariant = { λ s. IsSeated s.number s.front s.badge.views };
}

impl<E> Seat<E> {
    /// Its number: 1, 2 and so on.
    pub fn number(&self) -> u32
        ensures { result ≡ self.now.number }
    {
        self.number
    }

    /// How many entries it has seen.
    pub fn front(&self) -> u64
        ensures { result ≡ length self.now.seen }
    {
        self.front
    }
}
