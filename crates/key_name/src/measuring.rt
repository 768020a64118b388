//! How many bytes canonical spellings have, without spelling them.
ghost use Rattle.std.specs.Prelude.{◌≡◌, ◌+◌, ◌<◌, ◌≤◌, ◌^◌, length, map, string_bytes};
ghost use Rattle.std.specs.List.{flat_map};
ghost use Rattle.model_names.specs.Spelling.{escaped, spelled, path_of_parts};

/// How many bytes the path of some parts has.
pub fn path_len(parts: &[String]) -> usize
    requires { length (path_of_parts (map (λ part. string_bytes part) parts.now)) < 2 ^ 64 }
    ensures { result ≡ length (path_of_parts (map (λ part. string_bytes part) parts.now)) }
{
    if parts.is_empty() {
        return 1;
    }
    let mut bytes = 0;
    for part in parts {
        bytes += 1 + spelled_len(part);
    }
    bytes
}

/// How many bytes a spelled part has.
pub fn spelled_len(part: &str) -> usize
    ensures { result ≡ length (spelled part.now) }
{
    match part {
        "" => 1,
        "%" | "." | ".." => part.len() + 1,
        _ => part.len() + escapes(part),
    }
}

/// How many bytes of a part stand behind a backslash where it is spelled.
pub fn escapes(part: &str) -> usize
    ensures count { result + length part.now ≡ length (flat_map escaped part.now) }
    ensures few { result ≤ length part.now }
{
    let mut count = 0;
    for b in part.as_bytes() {
        if *b == b'\\' || *b == b'/' {
            count += 1;
        }
    }
    count
}
