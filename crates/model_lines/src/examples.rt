//! A few lines, worked: the definitions at concrete bytes.
ghost use Rattle.std.specs.Prelude.{◌≡◌, [], ◌∷◌, codes};
ghost use Rattle.model_lines.specs.Lines.{lines, ended, without_return};

/// A file is cut at each line feed, an empty line is a line, and the last line needs no line feed.
pub fn files_are_cut_at_line_feeds()
    ensures empty { lines [] ≡ [] }
    ensures one_feed { lines (codes "\n") ≡ [] ∷ [] }
    ensures last { lines (codes "a\n") ≡ codes "a" ∷ [] }
    ensures no_feed { lines (codes "a\n\nb") ≡ codes "a" ∷ [] ∷ codes "b" ∷ [] }
    ensures ended { ended (codes "a" ∷ [] ∷ codes "b" ∷ []) ≡ codes "a\n\nb\n" }
{}

/// One carriage return at a line's end is dropped, and no other.
pub fn a_carriage_return_at_the_end_is_dropped()
    ensures alone { without_return (codes "\r") ≡ [] }
    ensures one { without_return (codes "a\r") ≡ codes "a" }
    ensures two { without_return (codes "a\r\r") ≡ codes "a\r" }
    ensures inside { without_return (codes "\ra\rb") ≡ codes "\ra\rb" }
    ensures none { without_return [] ≡ [] }
{}
