//! Writes a map as its text.
ghost use Rattle.std.specs.Prelude.{◌≡◌, ◌<◌, ◌∷◌, [], ◌++◌, length, OnOk, IfOk, MatchResult, map as over};
ghost use Rattle.std.specs.Bool.{Decides};
ghost use Rattle.std.specs.List.{flat_map, list_any};
ghost use Rattle.model_names.specs.Spelling.{relative_text, spelling};
ghost use Rattle.model_ini.specs.Signs.{spelled_sign};
ghost use Rattle.model_ini.specs.Ini.{IsIniKey, IsStorable, BreaksAt};
ghost use Rattle.model_ini.specs.Text.{value_sign, name_sign, cover_blank, cover_mark, at_last, line_of, text};
ghost use Rattle.key_set.specs.EntryView.{entry_of};
ghost use Rattle.storage_api.specs.Formats.{RefusesToWrite};
ghost use Rattle.ini_storage.specs.Plain.{may_be_covered};
ghost use Rattle.ini_storage.specs.SideView.{sign_at, signs_at, first_at};

use key_meta::Memory;
use key_name::KeyName;
use key_set::{Entry, KeySet};
use model_ini::Sign;
use std::alloc::Global;
use storage_api::WriteRefusal;

/// The side of a line that a text stands on.
#[derive(Clone, Copy)]
enum Side {
    Name,
    Value,
}

/// The text of a map; `NotStorable` where a key is the mountpoint's own or has metadata, with the first such key.
pub fn write(alloc: Global, keys: &KeySet) -> Result<Vec<u8>, WriteRefusal>
    ensures { MatchResult result (λ bytes. (bytes.items ≡ text keys.now) × IsStorable keys.now) (RefusesToWrite (BreaksAt keys.now)) }
{
    test(keys)?;
    Ok(text_of(alloc, keys)?)
}

/// Whether every key can be stored.
fn test(keys: &KeySet) -> Result<(), WriteRefusal>
    ensures { MatchResult result (λ _. IsStorable keys.now) (RefusesToWrite (BreaksAt keys.now)) }
{
    for (name, entry) in keys.iter() {
        if !is_ini_key(name, entry) {
            return Err(WriteRefusal::NotStorable { key: name.copy()? });
        }
    }
    Ok(())
}

/// Whether a line can hold a key.
fn is_ini_key(name: &KeyName, entry: &Entry) -> bool
    ensures { Decides result (IsIniKey name.now (entry_of entry.now)) }
{
    name.len() > 0 && entry.meta.is_empty()
}

fn text_of(alloc: Global, keys: &KeySet) -> Result<Vec<u8>, Memory>
    ensures { IfOk result (λ bytes. bytes.items ≡ text keys.now) }
{
    let mut bytes = Vec::new(alloc);
    push_keys(&mut bytes, keys)?;
    Ok(bytes)
}

/// Appends the lines of all keys in name order.
fn push_keys(bytes: &mut Vec<u8>, keys: &KeySet) -> Result<(), Memory>
    ensures { OnOk result (bytes.new.items ≡ bytes.old.items ++ text keys.now) }
{
    for (name, entry) in keys.iter() {
        push_key(bytes, name, entry)?;
    }
    Ok(())
}

/// Appends the line of a key.
fn push_key(bytes: &mut Vec<u8>, name: &KeyName, entry: &Entry) -> Result<(), Memory>
    ensures { OnOk result (bytes.new.items ≡ bytes.old.items ++ (line_of (relative_text name.now) entry.now.value ++ 10 ∷ [])) }
{
    let text = name.text()?;
    push_text(bytes, Side::Name, behind_first_slash(name, &text))?;
    bytes.extend_from_slice(b" = ")?;
    push_text(bytes, Side::Value, entry.value.as_str().as_bytes())?;
    bytes.push(b'\n')?;
    Ok(())
}

/// What stands behind the first slash of a name's spelling.
fn behind_first_slash<'a>(name: &KeyName, spelled: &'a str) -> &'a [u8]
    requires { spelled.now ≡ spelling name.now }
    ensures { result.now ≡ relative_text name.now }
{
    let word = spelled.len() - name.path_bytes();
    &spelled.as_bytes()[word + 1..]
}

/// Appends a text with its escapes.
fn push_text(bytes: &mut Vec<u8>, side: Side, text: &[u8]) -> Result<(), Memory>
    ensures { OnOk result (bytes.new.items ≡ bytes.old.items ++ flat_map spelled_sign (signs_at side text.now)) }
{
    // most texts stand as they are
    if !has_covered(text) {
        bytes.extend_from_slice(text)?;
        return Ok(());
    }
    let [first, rest @ ..] = text else {
        return Ok(());
    };
    if rest.is_empty() {
        return push_spelled(bytes, first_sign(side, at_end(sign_of(side, *first))));
    }
    push_long(bytes, side, *first, rest)
}

/// Whether a byte stands in a text that may have to be covered.
fn has_covered(text: &[u8]) -> bool
    ensures { result ≡ list_any may_be_covered text.now }
{
    text.iter().any(|byte| may_be_covered(*byte))
}

/// Whether a byte is covered at some place of a line.
fn may_be_covered(byte: u8) -> bool
    ensures { result ≡ may_be_covered byte }
{
    match byte {
        b'\\' | b'\n' | b'\r' | b'\t' | b'=' | b' ' | b'#' | b';' | b'[' => true,
        _ => false,
    }
}

/// Appends a text of two bytes or more.
fn push_long(bytes: &mut Vec<u8>, side: Side, first: u8, rest: &[u8]) -> Result<(), Memory>
    requires { 0 < length rest.now }
    ensures { OnOk result (bytes.new.items ≡ bytes.old.items ++ flat_map spelled_sign (signs_at side (first ∷ rest.now))) }
{
    push_spelled(bytes, first_sign(side, sign_of(side, first)))?;
    push_rest(bytes, side, rest)?;
    Ok(())
}

/// Appends what stands behind the first byte of a text.
fn push_rest(bytes: &mut Vec<u8>, side: Side, rest: &[u8]) -> Result<(), Memory>
    ensures { OnOk result (bytes.new.items ≡ bytes.old.items ++ flat_map spelled_sign (at_last cover_blank (over (sign_at side) rest.now))) }
{
    let mut left = rest;
    while let [byte, more @ ..] = left {
        let sign = sign_of(side, *byte);
        if more.is_empty() {
            push_spelled(bytes, at_end(sign))?;
        } else {
            push_spelled(bytes, sign)?;
        }
        left = more;
    }
    Ok(())
}

/// How a byte is written.
fn sign_of(side: Side, byte: u8) -> Sign
    ensures { result ≡ sign_at side byte }
{
    match side {
        Side::Name => sign_of_name(byte),
        Side::Value => sign_of_value(byte),
    }
}

/// How a byte of a value is written.
fn sign_of_value(byte: u8) -> Sign
    ensures { result ≡ value_sign byte }
{
    match byte {
        b'\\' => Sign::Covered(b'\\'),
        b'\n' => Sign::Covered(b'n'),
        b'\r' => Sign::Covered(b'r'),
        b'\t' => Sign::Covered(b't'),
        _ => Sign::Plain(byte),
    }
}

/// How a byte of a name is written.
fn sign_of_name(byte: u8) -> Sign
    ensures { result ≡ name_sign byte }
{
    if byte == b'=' {
        Sign::Covered(b'=')
    } else {
        sign_of_value(byte)
    }
}

/// A sign at the front of a text.
fn first_sign(side: Side, sign: Sign) -> Sign
    ensures { result ≡ first_at side sign }
{
    match side {
        Side::Name => at_front(at_end(sign)),
        Side::Value => at_end(sign),
    }
}

/// A sign at an end, where a blank is covered.
fn at_end(sign: Sign) -> Sign
    ensures { result ≡ cover_blank sign }
{
    match sign {
        Sign::Plain(b' ') => Sign::Covered(b's'),
        _ => sign,
    }
}

/// A sign at a name's front, where a mark is covered.
fn at_front(sign: Sign) -> Sign
    ensures { result ≡ cover_mark sign }
{
    match sign {
        Sign::Plain(byte) => match byte {
            b'#' | b';' | b'[' => Sign::Covered(byte),
            _ => sign,
        },
        Sign::Covered(_) => sign,
    }
}

/// Appends a sign.
fn push_spelled(bytes: &mut Vec<u8>, sign: Sign) -> Result<(), Memory>
    ensures { OnOk result (bytes.new.items ≡ bytes.old.items ++ spelled_sign sign) }
{
    match sign {
        Sign::Plain(byte) => bytes.push(byte)?,
        Sign::Covered(byte) => {
            bytes.push(b'\\')?;
            bytes.push(byte)?;
        }
    }
    Ok(())
}
