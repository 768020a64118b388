//! Small journals, worked: what is read in them.
ghost use Rattle.std.specs.Prelude.{◌≡◌, ℕ, [], ◌∷◌, ◌++◌, Ok, Err};
ghost use Rattle.journal_codec.specs.Forms.{behind_gate, spelled_on};
ghost use Rattle.journal_steps.specs.declared.faults.JournalFault.TheVariants.{BadJournal as Bad, UnknownVersion as Unknown};
ghost use Rattle.journal_lists.specs.Heads.{front, front_size};
ghost use Rattle.journal_lists.specs.Journals.{journal_in};
ghost use Rattle.journal_lists.specs.Lists.{ReadsFrom, OpensFrom, list_bytes};
ghost use Rattle.journal_lists.specs.Readings.{list_in};
ghost use Rattle.journal_lists.specs.Rules.{plain};
ghost use Rattle.journal_lists.specs.Worked.{first, second, alone, names};

/// The open entries of a journal, up to the first gate that isn't open, or behind a body with a plain count.
pub fn open_entries_are_read()
    ensures empty { list_in plain [] ≡ Ok [] }
    ensures shut { list_in plain (0 ∷ alone first) ≡ Ok [] }
    ensures other { list_in plain (77 ∷ alone first) ≡ Ok [] }
    ensures alone { list_in plain (1 ∷ alone first) ≡ Ok (first ∷ []) }
    ensures ends { list_in plain (1 ∷ (alone first ++ 1 ∷ alone second)) ≡ Ok (first ∷ []) }
    ensures count { spelled_on first ≡ 129 ∷ 1 ∷ 97 ∷ 1 ∷ 0 ∷ 0 ∷ 0 ∷ 120 ∷ [] }
    ensures two { list_in plain (list_bytes (first ∷ second ∷ [])) ≡ Ok (first ∷ second ∷ []) }
    ensures old_behind { list_in plain (1 ∷ (behind_gate first ++ 1 ∷ alone second)) ≡ Ok (first ∷ second ∷ []) }
    ensures shut_behind { list_in plain (1 ∷ (behind_gate first ++ 0 ∷ behind_gate second)) ≡ Ok (first ∷ []) }
{}

/// The place in the first open body that isn't whole.
pub fn open_bodies_are_refused_at_their_place()
    ensures length { list_in plain (1 ∷ 255 ∷ 255 ∷ 255 ∷ 255 ∷ []) ≡ Err 0 }
    ensures cut { list_in plain (1 ∷ 2 ∷ 0 ∷ 0 ∷ 0 ∷ 1 ∷ []) ≡ Err 1 }
    ensures behind { list_in plain (list_bytes (first ∷ []) ++ 1 ∷ 2 ∷ 0 ∷ 0 ∷ 0 ∷ 1 ∷ []) ≡ Err 1 }
{}

/// A byte at a gate that is neither 0 nor 1 is read as either, and at the opening as 0.
pub fn an_odd_gate_is_read_in_two_ways()
    ensures shut { ReadsFrom plain 0 0 (77 ∷ behind_gate first) [] }
    ensures open { ReadsFrom plain 0 0 (77 ∷ behind_gate first) (first ∷ []) }
    ensures opening { OpensFrom plain 0 0 (77 ∷ behind_gate first) [] }
{}

/// Of `journal2` the version is read first, then the header, and then the list, whose places are counted from the
/// file's first byte.
pub fn a_head_is_read_before_its_list()
    ensures bytes { front names ≡ 1 ∷ 2 ∷ 3 ∷ 0 ∷ 0 ∷ 0 ∷ 1 ∷ 1 ∷ 97 ∷ [] }
    ensures short { journal_in (1 ∷ 2 ∷ 3 ∷ 0 ∷ 0 ∷ []) ≡ Ok [] }
    ensures shut { journal_in (0 ∷ 3 ∷ 3 ∷ 0 ∷ 0 ∷ 0 ∷ []) ≡ Ok [] }
    ensures no_entry { journal_in (front names ++ 0 ∷ behind_gate first) ≡ Ok [] }
    ensures entry { journal_in (front names ++ list_bytes (first ∷ [])) ≡ Ok (first ∷ []) }
    ensures version { journal_in (1 ∷ 3 ∷ 3 ∷ 0 ∷ 0 ∷ 0 ∷ []) ≡ Err (Unknown 3) }
    ensures header { journal_in (1 ∷ 2 ∷ 3 ∷ 0 ∷ 0 ∷ 0 ∷ 1 ∷ []) ≡ Err (Bad 7) }
    ensures other_name { journal_in (front names ++ list_bytes (second ∷ [])) ≡ Err (Bad 16) }
{}
