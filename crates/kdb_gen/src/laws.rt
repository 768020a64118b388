//! What holds of generated scripts, of however many rounds.
ghost use Rattle.std.specs.Prelude.{◌≡◌, ◌≢◌, ◌<◌, ◌≤◌, ◌+◌, ℕ, All};
ghost use Rattle.batch_script.specs.Rising.{AreAscending};
ghost use Rattle.batch_script.specs.declared.steps.Phase as phases;
ghost use Rattle.batch_script.specs.declared.steps.ProcLine as keys;
ghost use Rattle.kdb_gen.specs.Generated.{gen_script, key_of, keys_of_session, sessions};
ghost use Rattle.model_names.specs.declared.namespaces.Namespace.TheVariants.{Proc};

/// In each phase of a generated script the sessions ascend, from 1 to 32, and the keys of handles are in `proc`:
/// there are none.
pub fn a_generated_script_can_be_played()
    ensures ordered { (rounds : ℕ)
        → All (λ (phase : phases.Phase). AreAscending phase.sessions) (gen_script rounds).phases }
    ensures procs { (rounds : ℕ) → All (λ (line : keys.ProcLine). line.key.namespace ≡ Proc) (gen_script rounds).proc }
{}

/// No two sessions write one key, and a session writes each of its keys again in every tenth round, not before: so the
/// last ten rounds are those whose values stay.
pub fn a_key_is_written_by_one_session_in_every_tenth_round()
    ensures again { (session round : ℕ) → key_of session (round + keys_of_session) ≡ key_of session round }
    ensures between { (session round later : ℕ) → round < later → later < round + keys_of_session
        → key_of session later ≢ key_of session round }
    ensures apart { (session other round later : ℕ) → session ≤ sessions → other ≤ sessions → session ≢ other
        → key_of session round ≢ key_of other later }
{}
