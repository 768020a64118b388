//! How a table is made, and how it ends.
ghost use Rattle.std.specs.Prelude.{◌≡◌, ◌+◌, ◌<◌, ◌≤◌, ℕ, [], length, vec_capacity, slice_get, Some, All, IfOk, IfErr};
ghost use Rattle.seat_lock.specs.Known.{knowledge};
ghost use Rattle.seat_lock.specs.Views.{first_view};
ghost use Rattle.seat_lock.specs.Story.{HasNoMaker};
ghost use Rattle.seat_lock.specs.Boards.{IsBoard, IsOutside, HasAll, IsShut};

use crate::board::{Board, Come, Sitter};
use crate::locks::NoLock;
use crate::seats::Seat;
use crate::steps::{absorb, deal};
use crate::story::Storied;
use atomic_table::{Refused, Table};
use std::alloc::Global;
use std::snapshot::Snapshot;

/// A table of a value, and its first seat, which has all numbers.
pub fn make<V: Storied>(
    alloc: Global,
    value: V,
    seats: u32,
) -> Result<(Board<V>, Sitter<V>), NoLock<V>>
    requires story { V.stands value (V.first value) }
    requires first { HasNoMaker V.maker (V.first value) }
    ensures board { IfOk result (λ new. IsBoard new.0.shared.table_id × (new.0.shared.key.0.value ≡ value) × (new.0.shared.key.1 ≡ seats)) }
    ensures seat { IfOk result (λ new. (new.1.table_id ≡ new.0.shared.table_id) × (new.1.me ≡ (first_view (V.first value) seats, []))) }
    ensures err { IfErr result (λ none. none.value ≡ value) }
{
    let Ok(mut slots) = Vec::with_capacity(alloc, 1) else {
        return Err(NoLock { value });
    };
    let key = (Snapshot::of(&value), seats);
    slots.push_reserved(Some(value));
    match Table::new(alloc, &[0, 0], slots, &key) {
        Ok(made) => Ok(made),
        Err(Refused { mut slots }) => {
            let Some(Some(value)) = slots.pop() else {
                unreachable!()
            };
            slots.destroy_empty();
            Err(NoLock { value })
        }
    }
}

/// A seat for each number.
pub fn deal_all<V: Storied>(
    board: &Board<V>,
    mut first: Sitter<V>,
    count: u32,
    front: u64,
    mut seats: Vec<Seat<V::Entry>>,
) -> Vec<Seat<V::Entry>>
    requires board { IsBoard board.now.shared.table_id × (first.table_id ≡ board.now.shared.table_id) }
    requires first { first.me ≡ (first_view first.me.0.seen count, []) }
    requires front { front ≡ length first.me.0.seen }
    requires room { (seats.items ≡ []) × (count ≤ vec_capacity seats) }
    ensures count { length result.items ≡ count }
    ensures each { (k : ℕ) → k < count
        → slice_get result.items k ≡ Some (knowledge board.now.shared.table_id (k + 1) first.me.0.seen []) }
{
    for before in 0..count {
        let seat = deal(board, &mut first);
        seats.push_reserved(Seat {
            badge: seat.into_badge(),
            number: before + 1,
            front,
        });
    }
    seats
}

/// A seat that has taken in all of these.
pub fn gather<V: Storied>(board: &Board<V>, mut seats: Vec<Seat<V::Entry>>) -> Sitter<V>
    requires board { IsBoard board.now.shared.table_id }
    requires seats { All (λ seat. seat.place ≡ board.now.shared.table_id) seats.items }
    ensures board { result.table_id ≡ board.now.shared.table_id }
    ensures outside { IsOutside result.me }
    ensures all { HasAll V.maker seats.items result.me.0 }
{
    let (_, mut all) = board.shared.load_new_seat::<Come>(0);
    while let Some(seat) = seats.pop() {
        let Seat { badge, .. } = seat;
        absorb(board, &mut all, badge.into_seat());
    }
    all
}

/// Ends a table, and gives its value.
pub fn shut<V: Storied>(board: Board<V>, all: Sitter<V>) -> V
    requires board { IsBoard board.shared.table_id × (all.table_id ≡ board.shared.table_id) }
    requires outside { IsOutside all.me }
    requires all { length all.me.0.mine ≡ board.shared.key.1 }
    ensures { IsShut V.maker V.stands (V.first board.shared.key.0.value) board.shared.key.1 all.me.0 result }
{
    let mut closed = board.close_with(all);
    let value = closed.take(0);
    closed.free();
    let Some(value) = value else { unreachable!() };
    value
}
