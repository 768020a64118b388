//! Names with holes: `_` stands for any part, `#` for any item of an array.
ghost use Rattle.std.specs.Bool.{Decides};
ghost use Rattle.model_names.specs.Glob.{FitsPart, HasGlob, IsHole, MatchesGlob};

use crate::arrays::is_array_part;
use crate::part_list::PartList;

/// Whether parts match those of a pattern, one by one.
pub fn match_parts(parts: &PartList, patterns: &PartList) -> bool
    ensures { Decides result (MatchesGlob parts.now patterns.now) }
{
    let mut rest = patterns.iter();
    for part in parts.iter() {
        match rest.next() {
            Some(pattern) => {
                if !fits_part(part, pattern) {
                    return false;
                }
            }
            None => return false,
        }
    }
    rest.next().is_none()
}

/// Whether some part stands for others.
pub fn have_hole(parts: &PartList) -> bool
    ensures { Decides result (HasGlob parts.now) }
{
    for part in parts.iter() {
        if is_hole(part) {
            return true;
        }
    }
    false
}

fn fits_part(part: &str, pattern: &str) -> bool
    ensures { Decides result (FitsPart part.now pattern.now) }
{
    if part == pattern {
        return true;
    }
    match pattern {
        "_" => true,
        "#" => is_array_part(part),
        _ => false,
    }
}

fn is_hole(part: &str) -> bool
    ensures { Decides result (IsHole part.now) }
{
    part == "_" || part == "#"
}
