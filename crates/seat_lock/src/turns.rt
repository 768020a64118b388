//! A seat in its turn.
use crate::board::Sitter;
use crate::story::Storied;
use std::marker::Model;

/// A turn at a lock, with its value. To contracts it is the lock, the seat's number, the entries that were found, those
/// of them that the seat made, and the value.
pub struct Turn<V: Storied> {
    pub(crate) seat: Sitter<V>,
    pub(crate) number: u32,
    pub(crate) value: V,
}

impl<V: Storied> Model for Turn<V> {
    ghost use Rattle.seat_lock.specs.Known.{Held, turn_of, held_code};
    ghost use Rattle.seat_lock.specs.Views.{first_own};
    ghost use Rattle.seat_lock.specs.Boards.{IsInTurn};

    ghost Value = { Held V.Entry V };

    ghost coded = { held_code V.Entry.code V.code };

    ghost view = { λ t. turn_of t.seat.table_id t.number t.seat.me.0.seen (first_own t.seat.me.0.mine) t.value };

    ghost invariant = { λ t. IsInTurn t.number t.seat.me };
}

impl<V: Storied> Turn<V> {
    ghost use Rattle.std.specs.Prelude.{◌≡◌};
    ghost use Rattle.std.specs.Borrow.{Lends, sem};
    ghost use Rattle.seat_lock.specs.Known.{with_value};
    ghost use Rattle.seat_lock.specs.contracts.turns.Turn.{the_row};

    /// The value under the lock, for as long as the turn.
    pub fn value(&mut self) -> &mut V
        ensures* writes_back { sem 𝓛 (Lends (the_row V.row V.Entry.row V.Storied) V.row self.entry result (with_value self.old)) }
        ensures value { result.now ≡ self.old.value }
    {
        &mut self.value
    }
}
