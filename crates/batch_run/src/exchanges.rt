//! Rooms for replies go to the sessions and come back.
ghost use Rattle.std.specs.Prelude.{◌≡◌, ℕ, ◌<◌, length, slice_index_or};
ghost use Rattle.std.specs.Global.{Vec};
ghost use Rattle.batch_run.specs.Going.{IsExchanged};
ghost use Rattle.batch_run.specs.declared.workers.Worker.{Worker};
ghost use Rattle.kdb_handle.specs.declared.replies.Reply.{Reply};

use crate::workers::Worker;
use kdb_handle::Reply;
use std::mem;

/// Exchanges what each session has told for the room of its place.
pub fn exchange(workers: &mut [Worker], rooms: &mut [Vec<Reply>])
    requires { length rooms.old ≡ length workers.old }
    ensures { (i : ℕ) (d : Worker) (e : Vec Reply) → i < length workers.old
        → IsExchanged (slice_index_or workers.old i d) (slice_index_or rooms.old i e) (slice_index_or workers.new i d) (slice_index_or rooms.new i e) }
{
    for place in 0..workers.len() {
        mem::swap(&mut workers[place].told, &mut rooms[place]);
    }
}
