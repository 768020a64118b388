//! A record at the front of some bytes: a line that tells its kind and two sizes, and then its two texts.
ghost use Rattle.std.specs.Prelude.{◌≡◌, [], ◌∷◌, ◌++◌, MatchOption, OnOk};
ghost use Rattle.std.specs.Fmt.{decimal};
ghost use Rattle.model_dump.specs.Record.{words_of, spelled_record};
ghost use Rattle.model_names.specs.Spelling.{relative_text};
ghost use Rattle.dump_storage.specs.Pieces.{BeginsWithNoWords, BeginsWithSizes, BeginsWithNoSizes, BeginsWith, BeginsWithNoRecord};
ghost use Rattle.dump_storage.specs.RecordView.{kind_of, record_of};
ghost use Rattle.dump_storage.specs.declared.records.Kind.TheVariants as kinds;

use crate::pieces::{behind, size_before, text_before};
use itoa::Buffer;
use key_meta::Memory;
use key_name::KeyName;

/// What a record is for.
#[derive(Clone, Copy)]
pub enum Kind {
    /// A key's name and its value.
    Key,
    /// A metadata name and its text, for the key before it.
    Meta,
    /// An earlier key's name, and the name of its metadata that the key before the record gets too.
    CopyMeta,
}

/// The two texts of a record.
#[derive(Clone, Copy)]
pub struct Record<'a> {
    pub kind: Kind,
    pub first: &'a [u8],
    pub second: &'a [u8],
}

/// A record, and what stands behind it.
pub fn record_before(bytes: &[u8]) -> Option<(Record<'_>, &[u8])>
    ensures { MatchOption result
        (BeginsWithNoRecord bytes.now)
        (λ found. BeginsWith bytes.now (record_of found.0.kind found.0.first.now found.0.second.now) found.1.now) }
{
    let (kind, first_size, second_size, texts) = sizes_before(bytes)?;
    let (first, rest) = text_before(texts, first_size)?;
    let (second, rest) = text_before(rest, second_size)?;
    let record = Record {
        kind,
        first,
        second,
    };
    Some((record, rest))
}

/// The kind of a record and the sizes of its texts.
fn sizes_before(bytes: &[u8]) -> Option<(Kind, usize, usize, &[u8])>
    ensures { MatchOption result
        (BeginsWithNoSizes bytes.now)
        (λ found. BeginsWithSizes bytes.now (kind_of found.0) found.1 found.2 found.3.now) }
{
    let (kind, sizes) = kind_before(bytes)?;
    let (first_size, rest) = size_before(sizes, b' ')?;
    let (second_size, rest) = size_before(rest, b'\n')?;
    Some((kind, first_size, second_size, rest))
}

/// The kind that a record's first words tell.
fn kind_before(bytes: &[u8]) -> Option<(Kind, &[u8])>
    ensures { MatchOption result
        (BeginsWithNoWords bytes.now)
        (λ found. bytes.now ≡ words_of (kind_of found.0) ++ found.1.now) }
{
    if let Some(rest) = behind(bytes, words(Kind::Key)) {
        return Some((Kind::Key, rest));
    }
    if let Some(rest) = behind(bytes, words(Kind::Meta)) {
        return Some((Kind::Meta, rest));
    }
    let rest = behind(bytes, words(Kind::CopyMeta))?;
    Some((Kind::CopyMeta, rest))
}

/// The words that a record of this kind begins with.
fn words(kind: Kind) -> &'static [u8]
    ensures { result.now ≡ words_of (kind_of kind) }
{
    match kind {
        Kind::Key => b"$key string ",
        Kind::Meta => b"$meta ",
        Kind::CopyMeta => b"$copymeta ",
    }
}

/// Appends a record.
pub fn push_record(bytes: &mut Vec<u8>, added: Record<'_>) -> Result<(), Memory>
    ensures { OnOk result (bytes.new.items ≡ bytes.old.items ++ spelled_record (record_of added.entry.kind added.entry.first.now added.entry.second.now)) }
{
    bytes.extend_from_slice(words(added.kind))?;
    push_size(bytes, added.first.len(), b' ')?;
    push_size(bytes, added.second.len(), b'\n')?;
    push_text(bytes, added.first)?;
    push_text(bytes, added.second)
}

/// Appends the record of a key without its metadata. The name is spelled in its place.
pub fn push_key_record(bytes: &mut Vec<u8>, name: &KeyName, value: &[u8]) -> Result<(), Memory>
    ensures { OnOk result (bytes.new.items ≡ bytes.old.items ++ spelled_record (record_of kinds.Key (relative_text name.now) value.now)) }
{
    bytes.extend_from_slice(words(Kind::Key))?;
    push_size(bytes, name.path_bytes() - 1, b' ')?;
    push_size(bytes, value.len(), b'\n')?;
    name.push_relative(bytes)?;
    bytes.push(b'\n')?;
    push_text(bytes, value)
}

/// Appends the size of a text, and a byte behind it.
fn push_size(bytes: &mut Vec<u8>, size: usize, last: u8) -> Result<(), Memory>
    ensures { OnOk result (bytes.new.items ≡ bytes.old.items ++ (decimal size ++ last ∷ [])) }
{
    bytes.extend_from_slice(Buffer::new().format(size).as_bytes())?;
    bytes.push(last)?;
    Ok(())
}

/// Appends a text and a line feed behind it.
fn push_text(bytes: &mut Vec<u8>, text: &[u8]) -> Result<(), Memory>
    ensures { OnOk result (bytes.new.items ≡ bytes.old.items ++ (text.now ++ 10 ∷ [])) }
{
    bytes.extend_from_slice(text)?;
    bytes.push(b'\n')?;
    Ok(())
}
