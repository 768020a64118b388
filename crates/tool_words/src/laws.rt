//! Laws of what words ask for.
ghost use Rattle.std.specs.Prelude.{◌≡◌, ℕ, List};
ghost use Rattle.tool_words.specs.Request.{Question, Asks, NamesFiles};
ghost use Rattle.tool_words.specs.Rows.{request};

/// The file of a key is asked for where keys of its namespace are in files.
pub fn a_file_is_asked_for_of_keys_in_files()
    ensures { (words : List (List ℕ)) (question : Question) → request words ≡ Asks question → NamesFiles question }
{}
