//! What a seat knows, as plain data.
use std::collections::LinkedList;

/// No value of it is made: it is what proofs say of a seat. `beside` is what another seat saw, until the two are
/// compared, and `mine` has each number of the seat with the entries that it made.
pub struct View<E> {
    pub ticket: Option<u64>,
    pub holds: bool,
    pub seen: LinkedList<E>,
    pub beside: LinkedList<E>,
    pub mine: LinkedList<(u64, LinkedList<E>)>,
}
