//! Metadata by examples.

use key_meta::{Memory, Meta, Text};
use std::alloc::Global;
use std::test::Fail;

type Items<'a> = &'a [(&'a str, &'a str)];

/// Gives a name its text, if it can be one of metadata.
fn put(meta: &mut Meta, name: &str, text: &str) -> Result<Option<Text>, Memory> {
    if name.len() > 0 && name.len() <= 4096 {
        meta.set(name, text)
    } else {
        Ok(None)
    }
}

pub(crate) fn meta_of(alloc: Global, items: Items<'_>) -> Result<Meta, Memory> {
    let mut meta = Meta::new(alloc);
    for (name, text) in items {
        put(&mut meta, name, text)?;
    }
    Ok(meta)
}

/// The items, one after another.
fn placed(alloc: Global, items: Items<'_>) -> Result<String, Memory> {
    let meta = meta_of(alloc, items)?;
    let mut all = String::new(alloc);
    for (name, text) in meta.iter() {
        all.push_str(&format!(in alloc; "{name}={text} ")?)?;
    }
    Ok(all)
}

/// Names go by their bytes. The last two stand the other way round where texts go by their UTF-16 units.
#[test]
fn stands_in_the_order_of_its_names(rt: HostRuntime) -> Result<(), Fail> {
    let items = [
        ("b", "2"),
        ("\u{1d11e}", "7"),
        ("a/b", "5"),
        ("array", "0"),
        ("\u{ff61}", "6"),
        ("a-b", "4"),
        ("B", "1"),
        ("b", "3"),
    ];
    let wanted = "B=1 a-b=4 a/b=5 array=0 b=3 \u{ff61}=6 \u{1d11e}=7 ";
    assert_eq!(rt; placed(rt.alloc(), &items)?.as_str(), wanted);
    Ok(())
}

/// The texts of the array `check`, each with a blank behind it.
fn array_of(alloc: Global, items: Items<'_>) -> Result<String, Memory> {
    let meta = meta_of(alloc, items)?;
    told(alloc, meta.array("check")?.into_vec())
}

fn told(alloc: Global, texts: Vec<Text>) -> Result<String, Memory> {
    let mut all = String::new(alloc);
    for text in texts {
        all.push_str(text.as_str())?;
        all.push(' ')?;
    }
    Ok(all)
}

#[test]
fn an_array_ends_at_its_first_hole(rt: HostRuntime) -> Result<(), Fail> {
    let rows: [(Items<'_>, &str); 5] = [
        (&[], ""),
        (
            &[("check/#0", "a"), ("check/#1", "b"), ("check/#3", "d")],
            "a b ",
        ),
        (&[("check/#1", "b")], ""),
        (
            &[
                ("check/#0", "a"),
                ("check/#0/x", "no"),
                ("checked/#1", "no"),
            ],
            "a ",
        ),
        (&[("check/#_0", "no"), ("check#0", "no"), ("/#0", "no")], ""),
    ];
    for (items, want) in rows {
        assert_eq!(rt; array_of(rt.alloc(), items)?.as_str(), want);
    }
    Ok(())
}

/// The underscores of an item below 10,000.
fn underscores(index: u64) -> &'static str {
    match index {
        0..=9 => "",
        10..=99 => "_",
        100..=999 => "__",
        _ => "___",
    }
}

fn put_item(alloc: Global, meta: &mut Meta, index: u64) -> Result<Option<Text>, Memory> {
    let name = format!(in alloc; "a/#{}{index}", underscores(index))?;
    put(meta, &name, "x")
}

/// So many items of an array.
fn array_with(alloc: Global, count: u64) -> Result<Meta, Memory> {
    let mut meta = Meta::new(alloc);
    for index in 0..count {
        put_item(alloc, &mut meta, index)?;
    }
    Ok(meta)
}

/// How many items an array has that was given so many, and one under no canonical name.
fn items_of_array(alloc: Global, count: u64) -> Result<usize, Memory> {
    let mut meta = array_with(alloc, count)?;
    put(&mut meta, "a/#11", "no canonical name")?;
    Ok(meta.array("a")?.as_slice().len())
}

#[test]
fn an_array_goes_on_past_nine_and_past_a_hundred(rt: HostRuntime) -> Result<(), Fail> {
    for (count, items) in [(10, 10), (11, 11), (100, 100), (101, 101), (1_001, 1_001)] {
        assert_eq!(rt; items_of_array(rt.alloc(), count)?, items);
    }
    Ok(())
}
