//! The table under a lock, its rule, and what each step on it tells.
use crate::story::Storied;
use crate::views::View;
use atomic_table::{Join, Play, Seat, Split, Table, TableRule};
use std::alloc::Global;
use std::marker::PhantomData;
use std::snapshot::Snapshot;

/// The rule of the table. Its key is the value as it was when the lock was made, and the count of seats.
pub struct Law<V> {
    of: PhantomData<V>,
}

impl<V: Storied> TableRule<Option<V>, View<V::Entry>, (Snapshot<V>, u32)> for Law<V> {
    ghost use Rattle.seat_lock.specs.Rule.{Kept};
    ghost use Rattle.seat_lock.specs.Views.{first_view};

    ghost holds = { λ key. Kept V.maker V.stands (V.first key.0.value) key.1 };

    ghost first = { λ key. first_view (V.first key.0.value) key.1 };
}

/// A ticket is drawn.
pub struct Draw {}

impl<V, E> Play<Option<V>, View<E>> for Draw {
    ghost use Rattle.seat_lock.specs.Steps.{Draws};

    ghost then = { Draws };
}

/// The turn is looked at, and the value taken where it is the seat's.
pub struct Look<V> {
    of: PhantomData<V>,
}

impl<V: Storied> Play<Option<V>, View<V::Entry>> for Look<V> {
    ghost use Rattle.seat_lock.specs.Steps.{Looks};

    ghost then = { Looks V.maker V.stands };
}

/// The value is put back, and the turn passed on.
pub struct End<V> {
    of: PhantomData<V>,
}

impl<V: Storied> Play<Option<V>, View<V::Entry>> for End<V> {
    ghost use Rattle.seat_lock.specs.Steps.{Ends};

    ghost then = { Ends V.maker V.more };
}

/// What two seats saw is compared.
pub struct Compare<V> {
    of: PhantomData<V>,
}

impl<V: Storied> Play<Option<V>, View<V::Entry>> for Compare<V> {
    ghost use Rattle.seat_lock.specs.Steps.{Compares};

    ghost then = { Compares V.maker };
}

/// A seat comes that has no number.
pub struct Come {}

impl<V, E> Play<Option<V>, View<E>> for Come {
    ghost use Rattle.seat_lock.specs.Steps.{Comes};

    ghost then = { Comes };
}

/// A new seat gets the first number.
pub struct Deal {}

impl<E> Split<View<E>> for Deal {
    ghost use Rattle.seat_lock.specs.Views.{rest_view, dealt_view};

    ghost left = { rest_view 1 };

    ghost right = { dealt_view 1 };
}

/// A new seat gets no number, and has seen as much.
pub struct Note {}

impl<E> Split<View<E>> for Note {
    ghost use Rattle.seat_lock.specs.Views.{rest_view, dealt_view};

    ghost left = { rest_view 0 };

    ghost right = { dealt_view 0 };
}

/// A seat gets all that another has.
pub struct Gather {}

impl<E> Join<View<E>> for Gather {
    ghost use Rattle.seat_lock.specs.Views.{joint_view, empty_view};

    ghost both = { joint_view };

    ghost spent = { empty_view };
}

/// Two words, the turn and the count of tickets drawn, and one slot for the value.
pub type Board<V> = Table<
    Option<V>,
    View<<V as Storied>::Entry>,
    (Snapshot<V>, u32),
    Law<V>,
    Global,
>;

/// A seat at that table.
pub type Sitter<V> = Seat<Option<V>, View<<V as Storied>::Entry>>;
