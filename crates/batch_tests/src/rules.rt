//! Calls of the check rules and of looking up that the tool makes in another form.

use key_meta::{Memory, Meta, Text};
use key_name::KeyName;
use key_set::{Entry, KeySet};
use plugin_chain::specified;
use regex_check::{RegexPatterns, check_pattern};
use spec_cascade::lookup;
use std::alloc::Global;
use std::test::Fail;
use type_check::check_enum;

type Items<'a> = &'a [(&'a str, &'a str)];

/// Gives a name its text, if it can be one of metadata.
fn put(meta: &mut Meta, name: &str, text: &str) -> Result<Option<Text>, Memory> {
    if name.len() > 0 && name.len() <= 4096 {
        meta.set(name, text)
    } else {
        Ok(None)
    }
}

/// Metadata with these items.
fn meta_of(alloc: Global, items: Items<'_>) -> Result<Meta, Memory> {
    let mut meta = Meta::new(alloc);
    for (name, text) in items {
        put(&mut meta, name, text)?;
    }
    Ok(meta)
}

/// The rule that a value breaks by an enumeration of one text, 0 where it breaks none.
fn rule_of_one(alloc: Global, text: &str, value: &str) -> Result<u8, Memory> {
    let meta = meta_of(alloc, &[("check/enum", "#0"), ("check/enum/#0", text)])?;
    match check_enum(alloc, value, &meta)? {
        Some(broken) => Ok(broken.rule),
        None => Ok(0),
    }
}

/// The rule that a value breaks by a pattern, 0 where it breaks none.
fn rule_of_pattern(alloc: Global, pattern: &str, value: &str) -> Result<u8, Memory> {
    let meta = meta_of(alloc, &[("check/validation", pattern)])?;
    match check_pattern(alloc, &mut RegexPatterns::new(), value, &meta)? {
        Some(broken) => Ok(broken.rule),
        None => Ok(0),
    }
}

#[test]
fn tells_which_rule_a_value_breaks(rt: HostRuntime) -> Result<(), Fail> {
    let by_text = (
        rule_of_one(rt.alloc(), "on", "on")?,
        rule_of_one(rt.alloc(), "on", "off")?,
    );
    assert_eq!(rt; by_text, (0, 5));
    let by_pattern = (
        rule_of_pattern(rt.alloc(), "^a+$", "aa")?,
        rule_of_pattern(rt.alloc(), "^a+$", "ab")?,
        rule_of_pattern(rt.alloc(), "(", "a")?,
    );
    assert_eq!(rt; by_pattern, (0, 7, 6));
    Ok(())
}

/// A set in which a specification gives a path a default.
fn with_a_default(alloc: Global) -> Result<KeySet, Fail> {
    let mut keys = KeySet::new(alloc);
    let entry = Entry {
        value: Text::new(alloc, "")?,
        meta: meta_of(alloc, &[("default", "80")])?,
    };
    keys.append(KeyName::parse(alloc, "spec:/sw/port")?, entry)?;
    Ok(keys)
}

/// The value that is found for a path in the specified set, if there is one.
fn found(alloc: Global, path: &str) -> Result<Option<Text>, Fail> {
    let keys = specified(&with_a_default(alloc)?)?;
    let found = lookup(&keys, &KeyName::parse(alloc, path)?)?;
    Ok(found.map(|found| found.value))
}

#[test]
fn finds_a_default_in_the_specified_set(rt: HostRuntime) -> Result<(), Fail> {
    let value = found(rt.alloc(), "/sw/port")?;
    assert_eq!(rt; value.as_ref().map(|text| text.as_str()), Some("80"));
    assert!(rt; found(rt.alloc(), "/sw/none")?.is_none());
    Ok(())
}
