//! A few lines and scripts, worked: the definitions at concrete words.
ghost use Rattle.std.specs.Prelude.{◌≡◌, [], ◌∷◌, codes, false, true, None, Some};
ghost use Rattle.model_names.specs.declared.namespaces.Namespace.TheVariants.{Cascading, User, Proc as ProcNamespace};
ghost use Rattle.batch_script.specs.declared.items.Item.TheVariants.{Proc, Session, Phase as PhaseEnd, Does};
ghost use Rattle.batch_script.specs.declared.steps.Step.TheVariants.{Get, Set, Merge, Poll, Undo, Watch};
ghost use Rattle.key_merge.specs.declared.strategies.Strategy.TheVariants.{Our};
ghost use Rattle.batch_script.specs.Counts.{commit_number_of, tries_of, watch_room_of};
ghost use Rattle.batch_script.specs.Letters.{written_at};
ghost use Rattle.batch_script.specs.Rows.{merge_of, said, session_of, watch_of};
ghost use Rattle.batch_script.specs.Places.{may_follow};
ghost use Rattle.batch_script.specs.Phases.{script_of};

/// A session is numbered from 1 to 32, without leading zero.
pub fn sessions_are_numbered_from_1_to_32()
    ensures first { session_of (codes "1") ≡ Some 1 }
    ensures last { session_of (codes "32") ≡ Some 32 }
    ensures none { session_of (codes "0") ≡ None }
    ensures too_many { session_of (codes "33") ≡ None }
    ensures leading_zero { session_of (codes "01") ≡ None }
    ensures sign { session_of (codes "+1") ≡ None }
{}

/// A merge is tried from 1 to 100,000 times.
pub fn merges_are_tried_from_1_to_100000_times()
    ensures once { tries_of (codes "1") ≡ Some 1 }
    ensures last { tries_of (codes "100000") ≡ Some 100000 }
    ensures none { tries_of (codes "0") ≡ None }
    ensures too_many { tries_of (codes "100001") ≡ None }
    ensures leading_zero { tries_of (codes "07") ≡ None }
{}

/// A watch has room for 1 to 4,096 changes.
pub fn watches_have_room_for_1_to_4096_changes()
    ensures one { watch_room_of (codes "1") ≡ Some 1 }
    ensures largest { watch_room_of (codes "4096") ≡ Some 4096 }
    ensures none { watch_room_of (codes "0") ≡ None }
    ensures too_many { watch_room_of (codes "4097") ≡ None }
    ensures leading_zero { watch_room_of (codes "01") ≡ None }
{}

/// A commit that is taken back is numbered from 1 to 1,000,000,000.
pub fn commits_are_numbered_from_1_to_1000000000()
    ensures first { commit_number_of (codes "1") ≡ Some 1 }
    ensures largest { commit_number_of (codes "1000000000") ≡ Some 1000000000 }
    ensures none { commit_number_of (codes "0") ≡ None }
    ensures too_large { commit_number_of (codes "1000000001") ≡ None }
    ensures leading_zero { commit_number_of (codes "01") ≡ None }
{}

/// Words say what their row says. A step that no row has says nothing.
pub fn words_say_what_their_row_says()
    ensures session { said (codes "session" ∷ codes "3" ∷ []) ≡ Some (Session 3) }
    ensures phase { said (codes "phase" ∷ []) ≡ Some PhaseEnd }
    ensures few { said (codes "put" ∷ codes "user:/sw" ∷ []) ≡ None }
    ensures cascading { said (codes "cut" ∷ codes "/sw" ∷ []) ≡ None }
    ensures unknown { said (codes "fetch" ∷ codes "/" ∷ []) ≡ None }
    ensures merge { merge_of (record { namespace = Cascading; parts = [] }) (codes "our") (codes "7")
        ≡ Some (Does (Merge (record { namespace = Cascading; parts = [] }) Our 7)) }
    ensures strategy { said (codes "merge" ∷ codes "/" ∷ codes "ours" ∷ codes "7" ∷ []) ≡ None }
    ensures no_tries { said (codes "merge" ∷ codes "/" ∷ codes "our" ∷ codes "0" ∷ []) ≡ None }
    ensures too_many_tries { said (codes "merge" ∷ codes "/" ∷ codes "our" ∷ codes "100001" ∷ []) ≡ None }
    ensures leading_zero { said (codes "merge" ∷ codes "/" ∷ codes "our" ∷ codes "07" ∷ []) ≡ None }
    ensures watch { watch_of (record { namespace = Cascading; parts = [] }) (codes "2")
        ≡ Some (Does (Watch (record { namespace = Cascading; parts = [] }) 2)) }
    ensures no_room { said (codes "watch" ∷ codes "/" ∷ codes "0" ∷ []) ≡ None }
    ensures too_much_room { said (codes "watch" ∷ codes "/" ∷ codes "4097" ∷ []) ≡ None }
    ensures room_left_out { said (codes "watch" ∷ codes "/" ∷ []) ≡ None }
    ensures poll { said (codes "poll" ∷ []) ≡ Some (Does Poll) }
    ensures polled_parent { said (codes "poll" ∷ codes "/" ∷ []) ≡ None }
    ensures undo { said (codes "undo" ∷ codes "7" ∷ []) ≡ Some (Does (Undo 7)) }
    ensures undo_left_out { said (codes "undo" ∷ []) ≡ None }
    ensures undo_of_two { said (codes "undo" ∷ codes "1" ∷ codes "2" ∷ []) ≡ None }
{}

/// In quotes a byte is written as it is or by an escape. A control byte is not.
pub fn bytes_are_written_in_quotes()
    ensures plain { written_at (codes "a\"") ≡ Some (97, codes "\"") }
    ensures quote { written_at (codes "\\\"b") ≡ Some (34, codes "b") }
    ensures digits { written_at (codes "\\x4Ab") ≡ Some (74, codes "b") }
    ensures beyond_ascii { written_at (codes "\\x80") ≡ None }
    ensures control { written_at (9 ∷ []) ≡ None }
    ensures unknown { written_at (codes "\\s") ≡ None }
{}

/// A key of a handle stands in the header, and a step behind a session of its own phase.
pub fn lines_have_their_places()
    ensures header { may_follow (Session 1 ∷ []) (Proc (record { session = 1; key = record { namespace = ProcNamespace; parts = [] }; value = [] }))
        ≡ false }
    ensures behind_phase { may_follow (PhaseEnd ∷ []) (Proc (record { session = 1; key = record { namespace = ProcNamespace; parts = [] }; value = [] }))
        ≡ false }
    ensures step { may_follow (Session 1 ∷ []) (Does (Get (record { namespace = Cascading; parts = [] }))) ≡ true }
    ensures next_phase { may_follow (Session 1 ∷ PhaseEnd ∷ []) (Does (Get (record { namespace = Cascading; parts = [] })))
        ≡ false }
{}

/// Sessions stand in ascending order in a phase, with all their steps, and a phase may have none.
pub fn sessions_ascend_in_a_phase()
    ensures { script_of (Session 2 ∷ Does (Get (record { namespace = User; parts = [] })) ∷ Session 1 ∷ Does (Set (record { namespace = User; parts = [] })) ∷ Session 2
        ∷ Does (Set (record { namespace = User; parts = [] })) ∷ PhaseEnd ∷ Session 3 ∷ [])
        ≡ record {
          proc = [];
          phases = record {
            sessions = record { session = 1; steps = Set (record { namespace = User; parts = [] }) ∷ [] }
                ∷ record { session = 2; steps = Get (record { namespace = User; parts = [] }) ∷ Set (record { namespace = User; parts = [] }) ∷ [] } ∷ [];
          }
              ∷ record { sessions = [] } ∷ [];
        } }
{}
