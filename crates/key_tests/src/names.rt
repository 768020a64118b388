//! Names by their calls without a text. Spellings, refusals, orders and joined names are cases of `kdb_cases`.

use key_meta::Memory;
use key_name::KeyName;
use std::alloc::{AllocError, Global};
use std::test::Fail;

/// The name that a text spells. A text that spells none counts as want of memory, which no test expects.
pub fn name(alloc: Global, text: &str) -> Result<KeyName, Memory> {
    match KeyName::parse(alloc, text) {
        Ok(name) => Ok(name),
        Err(_) => Err(AllocError),
    }
}

/// The text of the name that a relative text is.
fn spelled(alloc: Global, text: &str) -> Result<String, Memory> {
    match KeyName::parse_relative(alloc, text) {
        Ok(name) => name.text(),
        Err(_) => Err(AllocError),
    }
}

#[test]
fn reads_relative_texts(rt: HostRuntime) -> Result<(), Fail> {
    let rows = [
        ("sw/app", "/sw/app"),
        ("", "/"),
        ("/a//b/.", "/a/b"),
        ("#10/%", "/#_10/%"),
        ("a\\/b/..", "/"),
    ];
    for (text, wanted) in rows {
        assert_eq!(rt; spelled(rt.alloc(), text)?.as_str(), wanted, "of {text}");
    }
    Ok(())
}

/// Whether a name matches a pattern, and whether the pattern has a hole.
fn matches(alloc: Global, text: &str, pattern: &str) -> Result<(bool, bool), Memory> {
    let one = name(alloc, text)?;
    let pattern = name(alloc, pattern)?;
    Ok((one.matches_glob(&pattern), pattern.has_glob()))
}

#[test]
fn matches_patterns_part_by_part(rt: HostRuntime) -> Result<(), Fail> {
    let rows = [
        ("user:/a/#_10/x", "/a/#/_", (true, true)),
        ("user:/a/b", "user:/a/b", (true, false)),
        ("user:/a/b", "user:/a/_", (true, true)),
        ("user:/a/b", "user:/a", (false, false)),
        ("user:/a", "user:/a/_", (false, true)),
        ("user:/a/x", "user:/a/#", (false, true)),
        ("user:/_", "user:/a", (false, false)),
        ("user:/#0", "/#", (true, true)),
        ("user:/#0/x", "/#0/_b", (false, false)),
        ("user:/", "user:/", (true, false)),
    ];
    for (text, pattern, wanted) in rows {
        assert_eq!(rt;
            matches(rt.alloc(), text, pattern)?,
            wanted,
            "{text} and {pattern}"
        );
    }
    Ok(())
}
