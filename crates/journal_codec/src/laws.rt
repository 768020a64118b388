//! Spelling and reading undo each other. Nothing here runs: each function stands for the facts of its contract.
ghost use Rattle.std.specs.Prelude.{◌≡◌, ℕ, ◌<◌, ◌≤◌, true, false, List, length, All, Ok};
ghost use Rattle.std.specs.Bool.{Decides};
ghost use Rattle.std.specs.List.{Contains};
ghost use Rattle.journal_codec.specs.declared.files.FileText.{FileText};
ghost use Rattle.journal_codec.specs.Entry.{IsEntry, spelled};
ghost use Rattle.journal_codec.specs.Forms.{followed as is_followed, uncounted, spelled_on};
ghost use Rattle.journal_codec.specs.Header.{longest_header, IsHeader, spelled_header, read_header};
ghost use Rattle.journal_codec.specs.Listed.{is_listed, are_listed, read_listed};
ghost use Rattle.journal_codec.specs.Reading.{Reads, Fails, read_body};
ghost use Rattle.journal_codec.specs.Places.{IsPlace};

/// What is spelled is read again, in both forms, so an entry has one spelling of each form, and no two entries share
/// it.
pub fn reads_what_is_spelled()
    ensures again { (files : List FileText) → IsEntry files → read_body (uncounted (spelled files)) ≡ Reads files }
    ensures again_on { (files : List FileText) → IsEntry files
        → read_body (uncounted (spelled_on files)) ≡ Reads files }
    ensures ends { (files : List FileText) → IsEntry files → is_followed (spelled files) ≡ false }
    ensures goes_on { (files : List FileText) → IsEntry files → is_followed (spelled_on files) ≡ true }
    ensures apart { (files others : List FileText) → IsEntry files → IsEntry others → spelled files ≡ spelled others
        → files ≡ others }
    ensures apart_on { (files others : List FileText) → IsEntry files → IsEntry others
        → spelled_on files ≡ spelled_on others → files ≡ others }
{}

/// What is read is an entry, and the bytes are its spelling: the one of the form that its count tells.
pub fn spells_what_is_read()
    ensures entry { (body : List ℕ) (files : List FileText) → read_body (uncounted body) ≡ Reads files → IsEntry files }
    ensures spelling { (body : List ℕ) (files : List FileText) → All (λ b. b < 256) body → is_followed body ≡ false
        → read_body (uncounted body) ≡ Reads files → spelled files ≡ body }
    ensures spelling_on { (body : List ℕ) (files : List FileText) → All (λ b. b < 256) body → is_followed body ≡ true
        → read_body (uncounted body) ≡ Reads files → spelled_on files ≡ body }
{}

/// A body with its plain count is refused at the place behind the longest beginning that an entry's body can have, and
/// at no other.
pub fn a_body_fails_behind_its_longest_beginning()
    ensures place { (body : List ℕ) (at : ℕ) → All (λ b. b < 256) body → read_body body ≡ Fails at → IsPlace body at }
    ensures alone { (body : List ℕ) (at : ℕ) → All (λ b. b < 256) body → IsPlace body at → read_body body ≡ Fails at }
{}

/// What is spelled of names is read again, and what is read of a header is a header's names, spelled so.
pub fn headers_read_what_is_spelled()
    ensures again { (names : List (List ℕ)) → IsHeader names → read_header (spelled_header names) ≡ Ok names }
    ensures good { (header : List ℕ) (names : List (List ℕ)) → read_header header ≡ Ok names → IsHeader names }
    ensures spelling { (header : List ℕ) (names : List (List ℕ)) → All (λ b. b < 256) header
        → read_header header ≡ Ok names → spelled_header names ≡ header }
    ensures short { (names : List (List ℕ)) → IsHeader names → length (spelled_header names) ≤ longest_header }
    ensures apart { (names others : List (List ℕ)) → IsHeader names → IsHeader others
        → spelled_header names ≡ spelled_header others → names ≡ others }
{}

/// A body is read by the names of a header just where it says that another gate follows, is read where any names may
/// stand, and has only files of these names.
pub fn listed_bodies_read_alike()
    ensures among { (names : List (List ℕ)) (name : List ℕ) → Decides (is_listed names name) (Contains names name) }
    ensures again { (names : List (List ℕ)) (entry : List FileText) → IsEntry entry → are_listed names entry ≡ true
        → read_listed names (spelled_on entry) ≡ Reads entry }
    ensures entry { (names : List (List ℕ)) (body : List ℕ) (entry : List FileText)
        → read_listed names body ≡ Reads entry → IsEntry entry }
    ensures listed { (names : List (List ℕ)) (body : List ℕ) (entry : List FileText)
        → read_listed names body ≡ Reads entry → are_listed names entry ≡ true }
    ensures goes_on { (names : List (List ℕ)) (body : List ℕ) (entry : List FileText)
        → read_listed names body ≡ Reads entry → is_followed body ≡ true }
    ensures plain { (names : List (List ℕ)) (body : List ℕ) (entry : List FileText)
        → read_listed names body ≡ Reads entry → read_body (uncounted body) ≡ Reads entry }
    ensures alike { (names : List (List ℕ)) (body : List ℕ) (entry : List FileText) → is_followed body ≡ true
        → read_body (uncounted body) ≡ Reads entry → are_listed names entry ≡ true
        → read_listed names body ≡ Reads entry }
{}
