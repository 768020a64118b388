//! The lock.
ghost use Rattle.std.specs.Prelude.{◌≡◌, ◌<◌, ◌≤◌, ◌++◌, length, All, IfOk, IfErr};
ghost use mathlib.Core.List.{IsPrefix};
ghost use Rattle.seat_lock.specs.Known.{knowledge};
ghost use Rattle.seat_lock.specs.Story.{made_by, longer, HasNoMaker, IsOneTurn, AreNew, IsClosed};

use crate::bells::Bells;
use crate::board::{Board, Sitter};
use crate::openings::{deal_all, gather, make, shut};
use crate::seats::Seat;
use crate::steps::{absorb, end, enter, note};
use crate::story::Storied;
use crate::turns::Turn;
use atomic_table::Badge;
use std::alloc::Global;
use std::marker::Model;
use std::mem;
use std::sync::Wait;

/// A lock with its value. To contracts it is which lock it is, how many seats it has, and the entries with which it
/// began.
pub struct Lock<V: Storied> {
    board: Board<V>,
    bells: Bells,
}

impl<V: Storied> Model for Lock<V> {
    ghost use Rattle.seat_lock.specs.Known.{Place, lock_of, place_code};
    ghost use Rattle.seat_lock.specs.Boards.{IsBoard};

    ghost Value = { Place V.Entry };

    ghost coded = { place_code V.Entry.code };

    ghost view = { λ l. lock_of l.board.shared.table_id l.board.shared.key.1 (V.first l.board.shared.key.0.value) };

    ghost invariant = { λ l. IsBoard l.board.shared.table_id };
}

/// There was no memory. The value comes back.
#[derive(Drop)]
pub struct NoLock<V> {
    pub value: V,
}

/// A new lock with its seats.
pub struct NewLock<V: Storied> {
    pub lock: Lock<V>,
    pub seats: Vec<Seat<V::Entry>>,
}

impl<V: Storied> Lock<V> {
    /// A lock of a value, whose entries nobody made, with 1 to 33 seats. It is refused for want of memory alone.
    pub fn new(alloc: Global, value: V, seats: u32) -> Result<NewLock<V>, NoLock<V>>
        requires seats { (0 < seats) × (seats ≤ 33) }
        requires story { V.stands value (V.first value) }
        requires first { HasNoMaker V.maker (V.first value) }
        ensures lock { IfOk result (λ new. (new.lock.seats ≡ seats) × (new.lock.start ≡ V.first value)) }
        ensures seats { IfOk result (λ new. AreNew new.lock new.seats.items) }
        ensures err { IfErr result (λ none. none.value ≡ value) }
    {
        let front = value.count();
        let Ok(room) = Vec::with_capacity(alloc, seats as usize) else {
            return Err(NoLock { value });
        };
        let Ok(bells) = Bells::new(alloc) else {
            return Err(NoLock { value });
        };
        let (board, first) = make(alloc, value, seats)?;
        let seats = deal_all(&board, first, seats, front, room);
        Ok(NewLock {
            lock: Lock { board, bells },
            seats,
        })
    }

    /// Waits for the seat's turn. What is found begins with all that the seat has seen, and has of the seat's number
    /// those entries that it made.
    pub fn enter<R: Wait>(&self, rt: &R, seat: Seat<V::Entry>) -> Turn<V>
        requires { seat.place ≡ self.now.place }
        ensures same { (result.place ≡ seat.place) × (result.number ≡ seat.number) × (result.own ≡ seat.own) }
        ensures stands { V.stands result.value result.seen }
        ensures seen { IsPrefix seat.seen result.seen }
        ensures own { made_by V.maker seat.number result.seen ≡ seat.own }
    {
        let Seat { badge, number, .. } = seat;
        let mut sitter: Sitter<V> = badge.into_seat();
        let value = enter(rt, &self.board, &self.bells, &mut sitter);
        Turn {
            seat: sitter,
            number,
            value,
        }
    }

    /// Ends a turn, in which nothing was added, or one entry of the seat's number. It waits for nobody.
    pub fn leave(&self, turn: Turn<V>) -> Seat<V::Entry>
        requires place { turn.place ≡ self.now.place }
        requires story { V.stands turn.value (turn.seen ++ V.more turn.value) }
        requires one { IsOneTurn V.maker turn.number (V.more turn.value) }
        ensures { result
            ≡ knowledge turn.place turn.number (turn.seen ++ V.more turn.value) (turn.own ++ V.more turn.value) }
    {
        let Turn {
            mut seat,
            number,
            value,
        } = turn;
        let front = value.count();
        let next = end(&self.board, &mut seat, value);
        self.bells.ring(next);
        Seat {
            badge: seat.into_badge(),
            number,
            front,
        }
    }

    /// Lets a seat see all that another has seen. It waits for nobody.
    pub fn meet(&self, seat: &mut Seat<V::Entry>, other: &mut Seat<V::Entry>)
        requires { (seat.old.place ≡ self.now.place) × (other.old.place ≡ self.now.place) }
        ensures met { seat.new
            ≡ knowledge seat.old.place seat.old.number (longer seat.old.seen other.old.seen) seat.old.own }
        ensures seen { IsPrefix seat.old.seen seat.new.seen × IsPrefix other.old.seen seat.new.seen }
        ensures own { IsPrefix (made_by V.maker seat.old.number seat.new.seen) seat.old.own }
        ensures other { other.new ≡ other.old }
    {
        let mut them: Sitter<V> = mem::replace(&mut other.badge, Badge::blank()).into_seat();
        let seen = note(&self.board, &mut them);
        other.badge = them.into_badge();
        let mut us: Sitter<V> = mem::replace(&mut seat.badge, Badge::blank()).into_seat();
        absorb(&self.board, &mut us, seen);
        seat.badge = us.into_badge();
        if seat.front < other.front {
            seat.front = other.front;
        }
    }

    /// Ends the lock, with all of its seats, and gives the value.
    pub fn close(self, seats: Vec<Seat<V::Entry>>) -> V
        requires place { All (λ seat. seat.place ≡ self.place) seats.items }
        requires all { length seats.items ≡ self.seats }
        ensures { IsClosed V.maker V.stands self seats.items result }
    {
        let Lock {
            board,
            bells: _bells,
        } = self;
        let all = gather(&board, seats);
        shut(board, all)
    }
}
