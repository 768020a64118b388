//! A few dumps, worked: the definitions at concrete bytes.
ghost use Rattle.std.specs.Prelude.{◌≡◌, [], ◌∷◌, codes};
ghost use Rattle.std.specs.FinMap as map;
ghost use Rattle.model_names.specs.declared.namespaces.Namespace.TheVariants.{Cascading};
ghost use Rattle.model_maps.specs.Entry.{plain_entry, with_meta};
ghost use Rattle.model_maps.specs.KeyMap.{no_keys};
ghost use Rattle.model_dump.specs.Adds.{Adds};
ghost use Rattle.model_dump.specs.Dump.{Reads, Stops, line_at};
ghost use Rattle.model_dump.specs.Text.{text};

/// No bytes and no records read as no keys, and the ending's line feed may be missing. Metadata of the first key is
/// copied to the second.
pub fn small_dumps_read()
    ensures no_bytes { Reads Adds [] no_keys }
    ensures no_line_feed { Reads Adds (codes "kdbOpen 2\n$end") no_keys }
    ensures no_records { Reads Adds (codes "kdbOpen 2\n$end\n") no_keys }
    ensures metadata { Reads Adds (codes "kdbOpen 2\n$key string 1 1\na\n1\n$meta 4 6\ntype\nstring\n$key string 1 1\nb\n2\n$copymeta 1 4\na\ntype\n$end\n") (map.insert (map.insert no_keys (record { namespace = Cascading; parts = codes "a" ∷ [] }) (with_meta (plain_entry (codes "1")) (codes "type") (codes "string"))) (record { namespace = Cascading; parts = codes "b" ∷ [] }) (with_meta (plain_entry (codes "2")) (codes "type") (codes "string"))) }
{}

/// Reading stops at a record whose sizes don't fit its texts, or at a first line that isn't the header.
pub fn faults_stop_at_their_lines()
    ensures size { Stops Adds (codes "kdbOpen 2\n$key string 1 2\na\n1\n$end\n") 10 }
    ensures size_line { line_at (codes "kdbOpen 2\n$key string 1 2\na\n1\n$end\n") 10 ≡ 2 }
    ensures cut { Stops Adds (codes "kdbOpen 2\n$key string 1 5\na\nab\n") 10 }
    ensures cut_line { line_at (codes "kdbOpen 2\n$key string 1 5\na\nab\n") 10 ≡ 2 }
    ensures header { Stops Adds (codes "x") 0 }
    ensures header_line { line_at (codes "x") 0 ≡ 1 }
{}

/// The text of no keys, of the key `/sw/a`, and of the keys `/` and `/b`, of which one has metadata: keys and metadata
/// stand in order, whichever came first.
pub fn small_maps_have_their_texts()
    ensures no_keys { text no_keys ≡ codes "kdbOpen 2\n$end\n" }
    ensures one_key { text (map.insert no_keys (record { namespace = Cascading; parts = codes "sw" ∷ codes "a" ∷ [] }) (plain_entry (codes "1")))
        ≡ codes "kdbOpen 2\n$key string 4 1\nsw/a\n1\n$end\n" }
    ensures metadata { text (map.insert (map.insert no_keys (record { namespace = Cascading; parts = codes "b" ∷ [] }) (with_meta (with_meta (plain_entry (codes "2")) (codes "type") (codes "string")) (codes "order") (codes "#0"))) (record { namespace = Cascading; parts = [] }) (plain_entry []))
        ≡ codes "kdbOpen 2\n$key string 0 0\n\n\n$key string 1 1\nb\n2\n$meta 5 2\norder\n#0\n$meta 4 6\ntype\nstring\n$end\n" }
{}

/// Reading stops at a second key of one name, at metadata before the first key and under a name that is taken, and at
/// copied metadata of the present key and of a missing one.
pub fn records_without_reading_stop()
    ensures key_twice { Stops Adds (codes "kdbOpen 2\n$key string 1 1\na\n1\n$key string 1 1\na\n2\n$end\n") 30 }
    ensures no_key_yet { Stops Adds (codes "kdbOpen 2\n$meta 1 1\nm\nx\n$end\n") 10 }
    ensures meta_twice { Stops Adds (codes "kdbOpen 2\n$key string 1 1\na\n1\n$meta 1 1\nm\nx\n$meta 1 1\nm\ny\n$end\n") 44 }
    ensures copied_from_itself { Stops Adds (codes "kdbOpen 2\n$key string 1 1\na\n1\n$copymeta 1 1\na\nm\n$end\n") 30 }
    ensures copied_from_nowhere { Stops Adds (codes "kdbOpen 2\n$key string 1 1\na\n1\n$copymeta 1 1\nb\nm\n$end\n") 30 }
{}
