//! What holds of scripts and bad lines, whatever the bytes.
ghost use Rattle.std.specs.Prelude.{◌≡◌, ◌⊎◌, ℕ, List, length};
ghost use Rattle.model_lines.specs.Lines.{lines};
ghost use Rattle.std.specs.List.{AllByRecursion};
ghost use Rattle.batch_script.specs.declared.steps.Script as code;
ghost use Rattle.batch_script.specs.declared.steps.Phase as phases;
ghost use Rattle.batch_script.specs.declared.steps.ProcLine as keys;
ghost use Rattle.model_names.specs.declared.namespaces.Namespace.TheVariants.{Proc};
ghost use Rattle.batch_script.specs.Rising.{AreAscending};
ghost use Rattle.batch_script.specs.Scripts.{feeds_and_rest, IsBadAt, Reads};

/// Bytes read as just one script or have just one first bad line, never both.
pub fn bytes_read_as_one_script_or_are_bad_at_one_line()
    ensures one_script { (bytes : List ℕ) (script other : code.Script) → Reads bytes script → Reads bytes other
        → script ≡ other }
    ensures one_line { (bytes : List ℕ) (line other : ℕ) → IsBadAt bytes line → IsBadAt bytes other → line ≡ other }
    ensures always { (bytes : List ℕ)
        → ((script : code.Script) × Reads bytes script) ⊎ ((line : ℕ) × IsBadAt bytes line) }
    ensures not_both { (bytes : List ℕ) (script : code.Script) (line : ℕ) → Reads bytes script → IsBadAt bytes line
        → ⊥ }
{}

/// In each phase of a script that bytes read as the sessions ascend, from 1 to 32.
pub fn sessions_ascend_in_each_phase()
    ensures { (bytes : List ℕ) (script : code.Script) → Reads bytes script
        → AllByRecursion (λ (phase : phases.Phase). AreAscending phase.sessions) script.phases }
{}

/// The keys of handles in a script that bytes read as have names in the namespace `proc`.
pub fn proc_lines_have_keys_in_proc()
    ensures { (bytes : List ℕ) (script : code.Script) → Reads bytes script
        → AllByRecursion (λ (line : keys.ProcLine). line.key.namespace ≡ Proc) script.proc }
{}

/// The number of lines is the number of line feeds, and one more if something follows the last.
pub fn lines_are_counted_by_line_feeds()
    ensures { (bytes : List ℕ) → length (lines bytes) ≡ feeds_and_rest bytes }
{}
