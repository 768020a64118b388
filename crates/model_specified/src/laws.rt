//! The laws of specified sets.
ghost use Rattle.std.specs.Prelude.{◌≡◌, ◌≤◌, Bool, List, [], ◌∷◌, ◌++◌, length, Option, Some, ℕ, codes};
ghost use Rattle.std.specs.Bool.{Decides};
ghost use Rattle.std.specs.FinMap as map;
ghost use Rattle.std.specs.Option.{option_map, option_or};
ghost use Rattle.general_words.specs.Searches.{first_some};
ghost use Rattle.kdb_outside.specs.Faults.{HasRisen};
ghost use Rattle.model_maps.specs.Entry.{Meta};
ghost use Rattle.model_maps.specs.KeyMap.{KeyMap};
ghost use Rattle.model_names.specs.Glob.{HasGlob, MatchesGlob};
ghost use Rattle.model_names.specs.Name.{Name, Part};
ghost use Rattle.model_specified.specs.Globs.{has_glob, matches_glob};
ghost use Rattle.model_specified.specs.SpecMeta.{spec_keys, spec_meta, specs_of};
ghost use Rattle.model_rules.specs.Rules.{breach, longest_pattern};
ghost use Rattle.model_rules.specs.declared.breaches.Broken.{Broken};
ghost use Rattle.model_specified.specs.Violations.{AreOfKeys, AreViolations, AreViolationsBy, BeginWith, IsFirstViolation, IsNoPattern, MayBeRefused, TellsPattern, checked_keys};
ghost use Rattle.model_specified.specs.declared.violations.Violation.{Violation};
ghost use Rattle.model_specified.specs.Specified.{default_at, specified, specified_entry, with_defaults};

/// The tests of globs tell just what names say of them.
pub fn the_tests_of_globs_decide()
    ensures matches { (parts patterns : List Part)
        → Decides (matches_glob parts patterns) (MatchesGlob parts patterns) }
    ensures has { (parts : List Part) → Decides (has_glob parts) (HasGlob parts) }
{}

/// In the specification metadata of a path each name has the text of the first specification key of the path that has
/// it.
pub fn the_first_specification_key_with_a_name_gives_its_text()
    ensures { (keys : KeyMap) (path : List Part) (name : List ℕ)
        → map.get (spec_meta keys path) name
        ≡ first_some (λ spec. map.get spec.meta name) (specs_of (spec_keys keys) path) }
{}

/// The specified set has the names that the set with its defaults has, each with its specified entry.
pub fn each_key_is_specified_by_itself()
    ensures { (keys : KeyMap) (name : Name)
        → map.get (specified keys) name
        ≡ option_map (specified_entry (spec_keys keys) name) (map.get (with_defaults (spec_keys keys) keys) name) }
{}

/// Once the defaults are made, a name of `default:` has the one that the key of `spec:` with its path makes, and else
/// what it had.
pub fn a_default_stands_in_place_of_what_was_there()
    ensures { (keys : KeyMap) (name : Name)
        → map.get (with_defaults (spec_keys keys) keys) name
        ≡ option_or (default_at (spec_keys keys) name) (map.get keys name) }
{}

/// Where no pattern may be refused, a set has one list of violations at most.
pub fn without_refusals_a_set_has_one_list_of_violations()
    ensures { (is_chosen : Name → Bool) (keys : KeyMap) (a b : List Violation) → AreViolations ⊥ is_chosen keys a
        → AreViolations ⊥ is_chosen keys b → a ≡ b }
{}

/// A text that is no pattern breaks rule 6 freely, and a pattern only where the count of refusals rose
/// (`MayBeRefused`). Read so, it is absurd that a set has no list of violations, and it has one alone where the count
/// didn't rise. The lists that a call tells are among these, and all of them where the count rose.
pub fn by_the_grammar_a_set_has_its_lists_of_violations()
    ensures some { (before now : ℕ) (is_chosen : Name → Bool) (keys : KeyMap)
        → ((violations : List Violation) → AreViolationsBy (MayBeRefused (HasRisen before now)) is_chosen keys violations → ⊥)
        → ⊥ }
    ensures one { (before now : ℕ) (is_chosen : Name → Bool) (keys : KeyMap) (a b : List Violation)
        → (HasRisen before now → ⊥)
        → AreViolationsBy (MayBeRefused (HasRisen before now)) is_chosen keys a
        → AreViolationsBy (MayBeRefused (HasRisen before now)) is_chosen keys b
        → a ≡ b }
    ensures told { (before now : ℕ) (is_chosen : Name → Bool) (keys : KeyMap) (violations : List Violation)
        → AreViolations (HasRisen before now) is_chosen keys violations
        → AreViolationsBy (MayBeRefused (HasRisen before now)) is_chosen keys violations }
    ensures all { (before now : ℕ) (is_chosen : Name → Bool) (keys : KeyMap) (violations : List Violation)
        → HasRisen before now
        → AreViolationsBy (MayBeRefused (HasRisen before now)) is_chosen keys violations
        → AreViolations (HasRisen before now) is_chosen keys violations }
{}

/// A text of at most 1,024 bytes that is no pattern breaks rule 6, whatever the matcher does with patterns.
pub fn a_text_that_is_no_pattern_breaks_its_rule()
    ensures { (before now : ℕ) (value : List ℕ) (meta : Meta) (pattern : List ℕ) (answer : Option Broken)
        → map.get meta (codes "check/validation") ≡ Some pattern
        → length pattern ≤ longest_pattern
        → IsNoPattern pattern
        → TellsPattern (HasRisen before now) value meta answer
        → answer ≡ Some (breach 6 pattern) }
{}

/// The first violation stands first in a list of all violations, where its key and those behind it have a list.
pub fn the_first_violation_begins_a_list()
    ensures { (before now : ℕ) (is_chosen : Name → Bool) (keys : KeyMap) (violation : Violation)
        (first : BeginWith (HasRisen before now) (checked_keys is_chosen keys) violation) (others : List Violation)
        → AreOfKeys (HasRisen before now) (first.key ∷ first.behind) others
        → (more : List Violation) × AreViolations (HasRisen before now) is_chosen keys (violation ∷ more) }
{}

/// A list of all violations begins with the first violation.
pub fn a_list_begins_with_the_first_violation()
    ensures { (before now : ℕ) (is_chosen : Name → Bool) (keys : KeyMap) (violation : Violation) (more : List Violation)
        → AreViolations (HasRisen before now) is_chosen keys (violation ∷ more)
        → IsFirstViolation (HasRisen before now) is_chosen keys (Some violation) }
{}

/// Only the first violation's own pattern has to be refused for it, and none where it isn't rule 6 with a pattern of at
/// most 1,024 bytes: patterns that come behind it have no part in it.
pub fn the_first_violation_needs_no_refusal_behind_it()
    ensures { (before now : ℕ) (is_chosen : Name → Bool) (keys : KeyMap) (violation : Violation)
        → IsFirstViolation (HasRisen before now) is_chosen keys (Some violation)
        → IsFirstViolation ((violation.rule ≡ 6) × (length violation.given ≤ longest_pattern) × HasRisen before now) is_chosen keys (Some violation) }
{}

/// Where no pattern may be refused, a set has one first violation at most, and none where it has no violations.
pub fn without_refusals_a_set_has_one_first_violation()
    ensures { (is_chosen : Name → Bool) (keys : KeyMap) (a b : Option Violation) → IsFirstViolation ⊥ is_chosen keys a
        → IsFirstViolation ⊥ is_chosen keys b → a ≡ b }
{}

/// To find no violations nothing has to be refused.
pub fn to_find_no_violations_needs_no_refusals()
    ensures { (before now : ℕ) (is_chosen : Name → Bool) (keys : KeyMap)
        → AreViolations (HasRisen before now) is_chosen keys [] → AreViolations ⊥ is_chosen keys [] }
{}

/// Rule 6 is the first violation, with a pattern of at most 1,024 bytes, only where the matcher's count of refusals
/// rose.
pub fn a_short_pattern_is_refused_by_the_matcher()
    ensures { (before now : ℕ) (is_chosen : Name → Bool) (keys : KeyMap) (violation : Violation)
        → IsFirstViolation (HasRisen before now) is_chosen keys (Some violation) → violation.rule ≡ 6
        → length violation.given ≤ longest_pattern → HasRisen before now }
{}

/// Where patterns may be refused, it is absurd that a set has neither a first violation nor none.
pub fn a_set_has_a_first_violation_or_none()
    ensures { (before now : ℕ) (is_chosen : Name → Bool) (keys : KeyMap) → HasRisen before now
        → ((answer : Option Violation) → IsFirstViolation (HasRisen before now) is_chosen keys answer → ⊥) → ⊥ }
{}
