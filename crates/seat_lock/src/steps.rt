//! The steps on the table, one function each.
ghost use Rattle.std.specs.Prelude.{◌≡◌, ◌%◌, ◌^◌, ◌<◌, ◌==◌, ℕ, true, [], ◌∷◌, ◌++◌, length, Some, None, MatchBool};
ghost use mathlib.Core.List.{IsPrefix};
ghost use Rattle.seat_lock.specs.Views.{with_ticket, ended_view, compared_view, rest_view, dealt_view, joint_view};
ghost use Rattle.seat_lock.specs.Boards.{IsBoard, IsOutside, IsWaiting, HasEntered, CanGain};
ghost use Rattle.seat_lock.specs.Rule.{IsWithin};
ghost use Rattle.seat_lock.specs.Steps.{Enters};

use crate::bells::Bells;
use crate::board::{Board, Compare, Deal, Draw, End, Gather, Look, Note, Sitter};
use crate::story::Storied;
use std::sync::Wait;

/// Draws a ticket.
pub fn draw<V: Storied>(board: &Board<V>, seat: &mut Sitter<V>) -> u64
    requires board { IsBoard board.now.shared.table_id × (seat.old.table_id ≡ board.now.shared.table_id) }
    requires idle { (seat.old.me.0.ticket ≡ None) × (0 < length seat.old.me.0.mine) }
    ensures board { seat.new.table_id ≡ seat.old.table_id }
    ensures drawn { (ticket : ℕ) × (result ≡ ticket % 2 ^ 64)
        × (seat.new.me ≡ (with_ticket (Some ticket) seat.old.me.0, seat.old.me.1)) }
{
    board.shared.fetch_add::<Draw>(seat, 1, 1)
}

/// Looks whose turn it is, and if it is the ticket's takes the value out of the slot.
fn look<V: Storied>(board: &Board<V>, seat: &mut Sitter<V>, ticket: u64) -> u64
    requires board { IsBoard board.now.shared.table_id × (seat.old.table_id ≡ board.now.shared.table_id) }
    requires waits { IsWaiting ticket seat.old.me }
    ensures board { seat.new.table_id ≡ seat.old.table_id }
    ensures turn { MatchBool (result == ticket) (Enters V.maker V.stands seat.old.me seat.new.me) (seat.new.me ≡ seat.old.me) }
{
    board.shared.load::<Look<V>>(seat, 0)
}

/// The value of the slot that the seat has taken.
fn take<V: Storied>(board: &Board<V>, seat: &mut Sitter<V>) -> V
    requires board { seat.old.table_id ≡ board.now.shared.table_id }
    requires taken { (value : V) × (seat.old.me.1 ≡ (0, Some value) ∷ []) }
    ensures board { seat.new.table_id ≡ seat.old.table_id }
    ensures value { seat.old.me.1 ≡ (0, Some result) ∷ [] }
    ensures seat { seat.new.me ≡ (seat.old.me.0, (0, None) ∷ []) }
{
    match board.shared.exchange(seat, 0, None) {
        Some(value) => value,
        None => unreachable!(),
    }
}

/// Waits for a turn, and gives the value.
pub fn enter<V: Storied, R: Wait>(
    rt: &R,
    board: &Board<V>,
    bells: &Bells,
    seat: &mut Sitter<V>,
) -> V
    requires board { IsBoard board.now.shared.table_id × (seat.old.table_id ≡ board.now.shared.table_id) }
    requires outside { IsOutside seat.old.me }
    requires number { 0 < length seat.old.me.0.mine }
    ensures board { seat.new.table_id ≡ seat.old.table_id }
    ensures found { HasEntered V.maker V.stands seat.old.me seat.new.me result }
{
    let ticket = draw(board, seat);
    let mut looks: u32 = 0;
    for _ in rt.forever() {
        let turn = look(board, seat, ticket);
        if turn == ticket {
            return take(board, seat);
        }
        looks = bells.wait(rt, ticket, ticket.wrapping_sub(turn), looks);
    }
    unreachable!()
}

/// Ends the turn: the value goes back, and the next ticket, which is answered, has its turn.
pub fn end<V: Storied>(board: &Board<V>, seat: &mut Sitter<V>, value: V) -> u64
    requires board { IsBoard board.now.shared.table_id × (seat.old.table_id ≡ board.now.shared.table_id) }
    requires holds { (seat.old.me.0.holds ≡ true) × (seat.old.me.1 ≡ (0, None) ∷ []) }
    requires story { V.stands value (seat.old.me.0.seen ++ V.more value) }
    requires gains { CanGain V.maker (V.more value) seat.old.me.0.mine }
    ensures board { seat.new.table_id ≡ seat.old.table_id }
    ensures ended { seat.new.me ≡ (ended_view V.maker (V.more value) seat.old.me.0, []) }
{
    let empty = board.shared.exchange(seat, 0, Some(value));
    let None = empty else { unreachable!() };
    board.shared.fetch_add::<End<V>>(seat, 0, 1).wrapping_add(1)
}

/// A new seat with the first number.
pub fn deal<V: Storied>(board: &Board<V>, seat: &mut Sitter<V>) -> Sitter<V>
    requires board { IsBoard board.now.shared.table_id × (seat.old.table_id ≡ board.now.shared.table_id) }
    requires outside { IsOutside seat.old.me }
    ensures board { (seat.new.table_id ≡ seat.old.table_id) × (result.table_id ≡ seat.old.table_id) }
    ensures old { seat.new.me ≡ (rest_view 1 seat.old.me.0, []) }
    ensures new { result.me ≡ (dealt_view 1 seat.old.me.0, []) }
{
    board.shared.split_seat::<Deal>(seat)
}

/// A new seat with no number, which has seen as much.
pub fn note<V: Storied>(board: &Board<V>, seat: &mut Sitter<V>) -> Sitter<V>
    requires board { IsBoard board.now.shared.table_id × (seat.old.table_id ≡ board.now.shared.table_id) }
    requires outside { IsOutside seat.old.me }
    ensures board { (seat.new.table_id ≡ seat.old.table_id) × (result.table_id ≡ seat.old.table_id) }
    ensures old { seat.new.me ≡ (rest_view 0 seat.old.me.0, []) }
    ensures new { result.me ≡ (dealt_view 0 seat.old.me.0, []) }
{
    board.shared.split_seat::<Note>(seat)
}

/// Takes in another seat, and sees what it saw.
pub fn absorb<V: Storied>(board: &Board<V>, seat: &mut Sitter<V>, other: Sitter<V>)
    requires board { IsBoard board.now.shared.table_id × (seat.old.table_id ≡ board.now.shared.table_id) }
    requires other { other.table_id ≡ board.now.shared.table_id }
    requires outside { IsOutside seat.old.me × IsOutside other.me }
    ensures board { seat.new.table_id ≡ seat.old.table_id }
    ensures joined { seat.new.me ≡ (compared_view (joint_view seat.old.me.0 other.me.0), []) }
    ensures within { IsWithin V.maker seat.new.me.0.seen (seat.old.me.0.mine ++ other.me.0.mine) }
    ensures seen { IsPrefix seat.old.me.0.seen seat.new.me.0.seen × IsPrefix other.me.0.seen seat.new.me.0.seen }
{
    board.shared.join_seat::<Gather>(seat, other);
    board.shared.load::<Compare<V>>(seat, 0);
}
