//! The laws of lines. Those of formats speak of any relation between lines, so they stand with each format.
ghost use Rattle.std.specs.Prelude.{◌≡◌, ◌≢◌, List, ℕ};
ghost use Rattle.std.specs.List.{AllByRecursion};
ghost use Rattle.model_lines.specs.Lines.{lines, ended};

/// No line holds a line feed.
pub fn lines_hold_no_line_feed()
    ensures { (bytes : List ℕ) → AllByRecursion (AllByRecursion (λ b. b ≢ 10)) (lines bytes) }
{}

/// Such lines, each with its line feed, are cut into the same lines again.
pub fn lines_read_as_they_were_ended()
    ensures { (all : List (List ℕ)) → AllByRecursion (AllByRecursion (λ b. b ≢ 10)) all → lines (ended all) ≡ all }
{}
