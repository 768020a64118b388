//! An entry of the story of a store, which exists in proofs alone.
use std::marker::Model;

/// No value of it is made: to contracts it is the opening, a commit, or a set that was begun and failed.
#[derive(Drop)]
pub struct StoryEntry {
    nothing: (),
}

impl Model for StoryEntry {
    ghost use Rattle.std.specs.Prelude.{[]};
    ghost use Rattle.kdb_handle.specs.Story.{Told, Committed, coded_told};

    ghost Value = { Told };

    ghost coded = { coded_told };

    ghost view = { λ e. Committed (record { handle = 0; touched = []; changes = [] }) };
}
