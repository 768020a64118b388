//! A few lines, worked: the definitions at concrete bytes.
ghost use Rattle.std.specs.Prelude.{◌≡◌, [], ◌∷◌, codes};
ghost use Rattle.std.specs.FinMap as map;
ghost use Rattle.model_names.specs.declared.namespaces.Namespace.TheVariants.{Cascading};
ghost use Rattle.model_maps.specs.Entry.{plain_entry};
ghost use Rattle.model_maps.specs.KeyMap.{no_keys};
ghost use Rattle.model_ini.specs.Line.{Skipped, Pair, Unreadable, meaning};
ghost use Rattle.model_ini.specs.Ini.{Reads, IsBadAt, BreaksAt};
ghost use Rattle.model_ini.specs.Text.{line_of, text};

/// Empty lines and comments are skipped, behind blanks and before a carriage return too.
pub fn some_lines_are_skipped()
    ensures empty { meaning [] ≡ Skipped }
    ensures blanks { meaning (codes " \t ") ≡ Skipped }
    ensures carriage_return { meaning (codes "\r") ≡ Skipped }
    ensures hash { meaning (codes "  # a = b") ≡ Skipped }
    ensures semicolon { meaning (codes ";a = b\r") ≡ Skipped }
{}

/// Every other line is cut at its first equals sign that no backslash covers.
pub fn entries_are_cut_at_the_first_equals_sign()
    ensures plain { meaning (codes "c = y") ≡ Pair (codes "c") (codes "y") }
    ensures tight { meaning (codes "a=b=c") ≡ Pair (codes "a") (codes "b=c") }
    ensures covered { meaning (codes "a\\=b = =x") ≡ Pair (codes "a=b") (codes "=x") }
    ensures no_value { meaning (codes "a =") ≡ Pair (codes "a") [] }
    ensures no_name { meaning (codes "= x") ≡ Pair [] (codes "x") }
    ensures mark_in_value { meaning (codes "a = #[;") ≡ Pair (codes "a") (codes "#[;") }
{}

/// Blanks and tabs around both sides are dropped, unless they are written by an escape; so is one carriage return at
/// the end.
pub fn blanks_at_the_ends_are_dropped()
    ensures both { meaning (codes "\t a b \t=\tc d \t\r") ≡ Pair (codes "a b") (codes "c d") }
    ensures escaped { meaning (codes "c = \\sy") ≡ Pair (codes "c") (codes " y") }
    ensures two_returns { meaning (codes "a = b\r\r") ≡ Pair (codes "a") (codes "b\r") }
{}

/// Each escape, on either side.
pub fn escapes_stand_for_their_bytes()
    ensures value { meaning (codes "a = \\\\\\n\\r\\t\\s\\=\\#\\;\\[")
        ≡ Pair (codes "a") (92 ∷ 10 ∷ 13 ∷ 9 ∷ 32 ∷ 61 ∷ 35 ∷ 59 ∷ 91 ∷ []) }
    ensures name { meaning (codes "\\\\\\n\\r\\t\\s\\=\\#\\;\\[ = a")
        ≡ Pair (92 ∷ 10 ∷ 13 ∷ 9 ∷ 32 ∷ 61 ∷ 35 ∷ 59 ∷ 91 ∷ []) (codes "a") }
    ensures mark { meaning (codes "\\#a = b") ≡ Pair (codes "#a") (codes "b") }
{}

/// Two backslashes are an escape of their own, so the byte behind them stands as it is.
pub fn backslashes_pair_from_the_left()
    ensures equals { meaning (codes "a\\\\= b") ≡ Pair (codes "a\\") (codes "b") }
    ensures covered { meaning (codes "a\\\\\\== b") ≡ Pair (codes "a\\=") (codes "b") }
{}

/// A section, a line without an equals sign and a backslash that begins no escape have no reading.
pub fn lines_without_reading()
    ensures section { meaning (codes "[main]") ≡ Unreadable }
    ensures section_behind_blanks { meaning (codes " [a = b") ≡ Unreadable }
    ensures no_equals { meaning (codes "main") ≡ Unreadable }
    ensures equals_covered { meaning (codes "a\\=b") ≡ Unreadable }
    ensures no_escape { meaning (codes "a = \\x") ≡ Unreadable }
    ensures no_escape_in_name { meaning (codes "\\a = x") ≡ Unreadable }
    ensures last { meaning (codes "a = x\\") ≡ Unreadable }
    ensures blank { meaning (codes "a = x\\ ") ≡ Unreadable }
{}

/// A key's line has its name and value with their escapes: blanks at the ends alone, equals signs and first marks in
/// the name alone.
pub fn keys_have_their_lines()
    ensures equals { line_of (codes "a=b") (codes "=x") ≡ codes "a\\=b = =x" }
    ensures blank { line_of (codes "c") (codes " y") ≡ codes "c = \\sy" }
    ensures backslash { line_of (codes "d") (codes "p\\q") ≡ codes "d = p\\\\q" }
    ensures blanks { line_of (codes " a b ") (codes " c d ") ≡ codes "\\sa b\\s = \\sc d\\s" }
    ensures one_blank { line_of (codes " ") (codes " ") ≡ codes "\\s = \\s" }
    ensures controls { line_of (codes "a\n\r\t") (codes "\n\r\t") ≡ codes "a\\n\\r\\t = \\n\\r\\t" }
    ensures hash { line_of (codes "#a#") (codes "#a") ≡ codes "\\#a# = #a" }
    ensures semicolon { line_of (codes ";a") (codes ";a") ≡ codes "\\;a = ;a" }
    ensures bracket { line_of (codes "[a]") (codes "[a]") ≡ codes "\\[a] = [a]" }
    ensures empty { line_of (codes "a") [] ≡ codes "a = " }
{}

/// The text of no keys, and of three keys in name order, whichever came first.
pub fn maps_have_their_texts()
    ensures no_keys { text no_keys ≡ [] }
    ensures three_keys { text (map.insert (map.insert (map.insert no_keys (record { namespace = Cascading; parts = codes "d" ∷ [] }) (plain_entry (codes "p\\q"))) (record { namespace = Cascading; parts = codes "c" ∷ [] }) (plain_entry (codes " y"))) (record { namespace = Cascading; parts = codes "a=b" ∷ [] }) (plain_entry (codes "=x"))) ≡ codes "a\\=b = =x\nc = \\sy\nd = p\\\\q\n" }
{}

/// A file with a comment, an empty line, a carriage return and no line feed at its end.
pub fn small_files_read()
    ensures no_keys { Reads (codes "# a = 1\n\n") no_keys }
    ensures one_key { Reads (codes "# b = 2\n\n /a= 1\r") (map.insert no_keys (record { namespace = Cascading; parts = codes "a" ∷ [] }) (plain_entry (codes "1"))) }
{}

/// A file is bad at its first line without a reading: a section, a line without an equals sign behind lines that are
/// skipped, the mountpoint's own name, a name twice in two spellings, and bytes that aren't UTF-8, in a comment too.
pub fn files_are_bad_at_their_first_bad_line()
    ensures section { IsBadAt (codes "[main]") 1 }
    ensures no_equals { IsBadAt (codes "# a\n\nb\nc") 3 }
    ensures mountpoint { IsBadAt (codes "= x\n") 1 }
    ensures name_twice { IsBadAt (codes "a = 1\n./a = 1\n") 2 }
    ensures not_utf8 { IsBadAt (35 ∷ 255 ∷ 10 ∷ []) 1 }
{}

/// A map breaks at the first key in name order with metadata, whichever came first, and at the mountpoint's own key.
pub fn maps_break_at_their_first_breaking_key()
    ensures metadata { BreaksAt (map.insert (map.insert (map.insert no_keys (record { namespace = Cascading; parts = codes "d" ∷ [] }) (record { value = []; meta = map.insert map.empty (codes "m") [] })) (record { namespace = Cascading; parts = codes "c" ∷ [] }) (record { value = codes " y"; meta = map.insert map.empty (codes "m") (codes "x") })) (record { namespace = Cascading; parts = codes "a" ∷ [] }) (plain_entry (codes "1"))) (record { namespace = Cascading; parts = codes "c" ∷ [] }) }
    ensures mountpoint { BreaksAt (map.insert no_keys (record { namespace = Cascading; parts = [] }) (plain_entry (codes "x"))) (record { namespace = Cascading; parts = [] }) }
{}
