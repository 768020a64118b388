//! Lines of a text.
ghost use Rattle.std.specs.Prelude.{◌≡◌, ◌++◌, ◌∷◌, [], OnOk, string_bytes};
ghost use Rattle.model_lines.specs.Lines.{ended};

use key_meta::Memory;

/// Adds a line to a text.
pub fn push_line(text: &mut String, line: &str) -> Result<(), Memory>
    ensures { OnOk result (string_bytes text.new ≡ string_bytes text.old ++ ended (line.now ∷ [])) }
{
    text.push_str(line)?;
    text.push('\n')
}
