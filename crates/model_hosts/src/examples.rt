//! A few lines, worked: the definitions at concrete bytes.
ghost use Rattle.std.specs.Prelude.{◌≡◌, [], ◌∷◌, ◌++◌, Some, None, codes};
ghost use Rattle.std.specs.FinMap as map;
ghost use Rattle.model_maps.specs.Entry.{plain_entry};
ghost use Rattle.model_maps.specs.KeyMap.{no_keys};
ghost use Rattle.model_hosts.specs.Line.{Skipped, Comment, Gives, Unreadable, meaning};
ghost use Rattle.model_hosts.specs.Comments.{comment_name, comments};
ghost use Rattle.model_hosts.specs.Keys.{family, host_name, alias_name, IsStorable, BreaksAt};
ghost use Rattle.model_hosts.specs.Hosts.{with_own, host_entry, Reads, IsBadAt};
ghost use Rattle.model_hosts.specs.Text.{grouped, host_line, text};

/// A line without words and without `#` is skipped; one with a `#` alone waits, with what stands behind the `#` as it
/// is.
pub fn some_lines_are_skipped_or_wait()
    ensures empty { meaning [] ≡ Skipped }
    ensures blanks { meaning (codes " \t\r") ≡ Skipped }
    ensures carriage_return { meaning (codes "\r") ≡ Skipped }
    ensures comment { meaning (codes "# The loopback") ≡ Comment (codes " The loopback") }
    ensures behind_blanks { meaning (codes " \t#a # b \r") ≡ Comment (codes "a # b ") }
    ensures nothing { meaning (codes "#") ≡ Comment [] }
{}

/// The first word is the address, the second the host, and the others are aliases, each as it stands; behind the first
/// `#` is the entry's own comment.
pub fn entries_have_their_words()
    ensures tab { meaning (codes "127.0.0.1\tlocalhost") ≡ Gives (codes "127.0.0.1") (codes "localhost") [] None }
    ensures blanks { meaning (codes " ::1     ip6-localhost ip6-loopback \r")
        ≡ Gives (codes "::1") (codes "ip6-localhost") (codes "ip6-loopback" ∷ []) None }
    ensures own { meaning (codes "127.0.1.1\tbox.example\tbox   # this machine")
        ≡ Gives (codes "127.0.1.1") (codes "box.example") (codes "box" ∷ []) (Some (codes " this machine")) }
    ensures hash_within { meaning (codes "1 a#b c") ≡ Gives (codes "1") (codes "a") [] (Some (codes "b c")) }
    ensures no_escapes { meaning (codes "1 a\\/b % ..")
        ≡ Gives (codes "1") (codes "a\\/b") (codes "%" ∷ codes ".." ∷ []) None }
{}

/// One word alone, and a carriage return anywhere but once at the end, have no reading.
pub fn lines_without_reading()
    ensures one_word { meaning (codes "localhost") ≡ Unreadable }
    ensures one_word_and_comment { meaning (codes "localhost # a b") ≡ Unreadable }
    ensures return_within { meaning (codes "1 a\rb") ≡ Unreadable }
    ensures return_in_comment { meaning (codes "# a\rb") ≡ Unreadable }
    ensures two_returns { meaning (codes "1 a\r\r") ≡ Unreadable }
{}

/// An address with a `:` is of the family `ipv6`, and any other of `ipv4`.
pub fn a_family_goes_by_its_colon()
    ensures six { family (codes "::1") ≡ codes "ipv6" }
    ensures four { family (codes "127.0.0.1") ≡ codes "ipv4" }
    ensures any { family (codes "a") ≡ codes "ipv4" }
{}

/// The entry's own comment stands behind those that waited.
pub fn own_comments_come_last()
    ensures own { with_own (codes "a" ∷ codes "b" ∷ []) (Some (codes "c")) ≡ codes "a" ∷ codes "b" ∷ codes "c" ∷ [] }
    ensures none { with_own (codes "a" ∷ []) None ≡ codes "a" ∷ [] }
{}

/// Comments are the items `comment/#0`, `comment/#1` and on; an index of two digits has an underscore.
pub fn comments_are_numbered_items()
    ensures first { comment_name 0 ≡ codes "comment/#0" }
    ensures eleventh { comment_name 10 ≡ codes "comment/#_10" }
    ensures two { comments (codes "a" ∷ codes "b" ∷ [])
        ≡ map.insert (map.insert map.empty (codes "comment/#1") (codes "b")) (codes "comment/#0") (codes "a") }
{}

/// Each host is followed by its aliases, which stand on its line behind it.
pub fn groups_have_their_lines()
    ensures groups { grouped ((host_name (codes "ipv4") (codes "a"), plain_entry (codes "1")) ∷ (alias_name (codes "ipv4") (codes "a") (codes "b"), plain_entry []) ∷ (alias_name (codes "ipv4") (codes "a") (codes "c"), plain_entry []) ∷ (host_name (codes "ipv6") (codes "d"), plain_entry (codes "::2")) ∷ [])
        ≡ ([], record { host = codes "a"; entry = plain_entry (codes "1"); aliases = codes "b" ∷ codes "c" ∷ [] } ∷ record { host = codes "d"; entry = plain_entry (codes "::2"); aliases = [] } ∷ []) }
    ensures line { host_line (codes "::1") (codes "ip6-localhost") (codes "ip6-loopback" ∷ codes "x" ∷ [])
        ≡ codes "::1\tip6-localhost ip6-loopback x" }
    ensures no_alias { host_line (codes "127.0.0.1") (codes "localhost") [] ≡ codes "127.0.0.1\tlocalhost" }
{}

/// The text of no keys, and of three hosts in two families, of which two have a comment and two an alias: in name
/// order, whichever came first.
pub fn maps_have_their_texts()
    ensures no_keys { text no_keys ≡ [] }
    ensures hosts { text (map.insert (map.insert (map.insert (map.insert (map.insert no_keys (host_name (codes "ipv4") (codes "localhost")) (host_entry (codes "127.0.0.1") (codes " The loopback" ∷ []))) (host_name (codes "ipv4") (codes "box.example")) (host_entry (codes "127.0.1.1") (codes " this machine" ∷ []))) (alias_name (codes "ipv4") (codes "box.example") (codes "box")) (plain_entry [])) (host_name (codes "ipv6") (codes "ip6-localhost")) (host_entry (codes "::1") [])) (alias_name (codes "ipv6") (codes "ip6-localhost") (codes "ip6-loopback")) (plain_entry []))
        ≡ codes "# this machine\n127.0.1.1\tbox.example box\n# The loopback\n127.0.0.1\tlocalhost\n::1\tip6-localhost ip6-loopback\n" }
{}

/// An entry takes the comment that waited and then its own, and an alias that stands twice is one key. A comment behind
/// the last entry is dropped.
pub fn small_files_read()
    ensures comment { Reads (codes "# c\n\n# d\n") no_keys }
    ensures entry { Reads (codes "# c\n1\ta b b # d\r\n#e") (map.insert (map.insert no_keys (host_name (codes "ipv4") (codes "a")) (host_entry (codes "1") (codes " c" ∷ codes " d" ∷ []))) (alias_name (codes "ipv4") (codes "a") (codes "b")) (plain_entry [])) }
{}

/// A file is bad at its first line without a reading: one word, a host that stood before in its family, a NUL in a
/// word, a carriage return alone behind a blank, and a comment that isn't UTF-8, at the end too.
pub fn files_are_bad_at_their_first_bad_line()
    ensures one_word { IsBadAt (codes "# c\nlocalhost\n") 2 }
    ensures host_twice { IsBadAt (codes "1 a\n\n2 a b\n") 3 }
    ensures nul_in_host { IsBadAt (codes "1 a" ++ 0 ∷ []) 1 }
    ensures nul_in_address { IsBadAt (49 ∷ 0 ∷ codes " a") 1 }
    ensures return_within { IsBadAt (codes "\r \n") 1 }
    ensures not_utf8 { IsBadAt (35 ∷ 255 ∷ []) 1 }
{}

/// A host and its alias can be stored, and the alias alone can't: the format doesn't go by keys.
pub fn hosts_do_not_go_by_keys()
    ensures both { IsStorable (map.insert (map.insert no_keys (host_name (codes "ipv4") (codes "a")) (host_entry (codes "1") (codes " c" ∷ codes " d" ∷ []))) (alias_name (codes "ipv4") (codes "a") (codes "b")) (plain_entry [])) }
    ensures alone { IsStorable (map.insert no_keys (alias_name (codes "ipv4") (codes "a") (codes "b")) (plain_entry []))
        → ⊥ }
{}

/// A map breaks at an alias without its host, and at a host whose family isn't that of its address.
pub fn maps_break_at_their_first_breaking_key()
    ensures no_host { BreaksAt (map.insert no_keys (alias_name (codes "ipv4") (codes "a") (codes "b")) (plain_entry [])) (alias_name (codes "ipv4") (codes "a") (codes "b")) }
    ensures other_family { BreaksAt (map.insert no_keys (host_name (codes "ipv6") (codes "a")) (plain_entry (codes "1"))) (host_name (codes "ipv6") (codes "a")) }
{}
