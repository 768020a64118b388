//! A few generated runs, worked: the definitions at concrete numbers.
ghost use Rattle.std.specs.Prelude.{◌≡◌, [], ◌∷◌, codes};
ghost use Rattle.batch_script.specs.declared.steps.Step.TheVariants.{Get, Put, Merge};
ghost use Rattle.kdb_gen.specs.Generated.{steps_of};
ghost use Rattle.kdb_gen.specs.Tallies.{summary, tally_of};
ghost use Rattle.key_merge.specs.declared.strategies.Strategy.TheVariants.{Our};
ghost use Rattle.model_names.specs.declared.namespaces.Namespace.TheVariants.{User};

/// A session writes its number as often as there were rounds, and merges; before that it gets all keys.
pub fn a_script_of_one_round()
    ensures { steps_of 1 3 ≡
        Get (record { namespace = User; parts = [] })
        ∷ Put (record { namespace = User; parts = codes "gen" ∷ codes "s3" ∷ codes "k1" ∷ [] }) (codes "3")
        ∷ Merge (record { namespace = User; parts = [] }) Our 5 ∷ [] }
{}

/// Before its tenth round a session has no key twice; behind it, each has what was written last.
pub fn tallies_of_some_rounds()
    ensures one { tally_of 1 ≡ record { commits = 4; keys = 4; sum = 10 } }
    ensures seven { tally_of 7 ≡ record { commits = 28; keys = 28; sum = 280 } }
    ensures twenty_five { tally_of 25 ≡ record { commits = 100; keys = 40; sum = 2050 } }
    ensures thousand { tally_of 1000 ≡ record { commits = 4000; keys = 40; sum = 99550 } }
{}

pub fn summaries_of_some_rounds()
    ensures seven { summary 7 (tally_of 7) ≡ codes "gen 7\nsessions 4\ncommits 28\nkeys 28\nsum 280\n" }
    ensures more { summary 25 (tally_of 25) ≡ codes "gen 25\nsessions 4\ncommits 100\nkeys 40\nsum 2050\n" }
    ensures thousand { summary 1000 (tally_of 1000) ≡ codes "gen 1000\nsessions 4\ncommits 4000\nkeys 40\nsum 99550\n" }
{}
