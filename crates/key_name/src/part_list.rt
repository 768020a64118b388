//! The parts of a name in one text. Each stands behind a NUL, so the order of the lists is that of the bytes.
ghost use Rattle.std.specs.Prelude.{◌≡◌, ℕ, List, ◌++◌, ◌∷◌, [], ◌==◌, IfNone, IfOk, IfSome, OnErr, OnOk, Some, None, if◌then◌else◌, drop, length, map, nat_eq, refl, slice_get, string_bytes, true, false};
ghost use mathlib.Core.List.{IsPrefix};
ghost use Rattle.std.specs.Cmp.{partial_equiv_from_equiv, partial_order_from_agreeing_total};
ghost use Rattle.std.specs.Cmp.Lexicographic.{lists_equiv, lists_ties, lists_total, nat_list_cmp_total, nat_list_eq_equiv, pointwise, slice_cmp, texts_ties};
ghost use Rattle.std.specs.Iterator.{YieldsFirstBy, item_count};
ghost use Rattle.std.specs.List.{AllByRecursion, starts_with};
ghost use Rattle.std.specs.Option.{option_map, option_map_or};
ghost use Rattle.std.specs.Ordering.{nat_cmp};
ghost use Rattle.key_name.specs.PartList.{HasNoNul, begins_part, behind_nuls, behind_slashes, between_nuls, between_slashes, nul_for_slash, slash_for_nul};

use crate::Memory;
use crate::cutting::cut_at;
use std::alloc::Global;
use std::cmp::Ordering;
use std::marker::Model;

/// A list of parts, each of them a text without NUL.
#[derive(Drop)]
pub struct PartList {
    text: String,
}

impl Model for PartList {
    ghost use Rattle.std.specs.Prelude.{List, ℕ};
    ghost use Rattle.std.specs.Coded.{coded_list, coded_ℕ};

    ghost Value = { List (List ℕ) };

    ghost coded = { coded_list (coded_list coded_ℕ) };

    ghost use Rattle.key_name.specs.PartList.{parts_of, HasPartsAlone};

    ghost view = { parts_of };

    ghost invariant = { HasPartsAlone };
}

impl PartList {
    pub fn new(alloc: Global) -> PartList
        ensures { result ≡ [] }
    {
        PartList {
            text: String::new(alloc),
        }
    }

    /// No part yet, and room for some bytes: each part takes one more than it has.
    pub fn with_room(alloc: Global, bytes: usize) -> Result<PartList, Memory>
        ensures { IfOk result (λ parts. parts ≡ []) }
    {
        Ok(PartList {
            text: String::with_capacity(alloc, bytes)?,
        })
    }

    /// Some texts as parts.
    pub fn from_texts(alloc: Global, texts: &[String]) -> Result<PartList, Memory>
        requires { AllByRecursion HasNoNul (map (λ text. string_bytes text) texts.now) }
        ensures { IfOk result (λ parts. parts ≡ map (λ text. string_bytes text) texts.now) }
    {
        let mut parts = PartList::new(alloc);
        for text in texts {
            parts.push(text)?;
        }
        Ok(parts)
    }

    /// What stands between the slashes of a path without NUL.
    pub fn between_slashes(alloc: Global, path: &str) -> Result<PartList, Memory>
        requires { HasNoNul path.now }
        ensures { IfOk result (λ parts. parts ≡ between_slashes path.now) }
    {
        let bytes = behind_nuls(alloc, path.as_bytes())?;
        Ok(PartList {
            // it stays a text, since a slash and a NUL are letters of one byte each
            text: unsafe { String::from_utf8_unchecked(bytes) },
        })
    }

    /// A part behind the others. Where memory is wanted, nothing is said of the list.
    pub fn push(&mut self, part: &str) -> Result<(), Memory>
        requires { HasNoNul part.now }
        ensures { OnOk result (self.new ≡ self.old ++ part.now ∷ []) }
    {
        self.text.push('\0')?;
        self.text.push_str(part)
    }

    /// The parts of another list behind these. Where memory is wanted, the list is as it was.
    pub fn append(&mut self, back: &PartList) -> Result<(), Memory>
        ensures ok { OnOk result (self.new ≡ self.old ++ back.now) }
        ensures same { OnErr result (self.new ≡ self.old) }
    {
        self.text.push_str(&back.text)
    }

    /// The parts of two lists, one list behind the other.
    pub fn joined(&self, back: &PartList) -> Result<PartList, Memory>
        ensures { IfOk result (λ parts. parts ≡ self.now ++ back.now) }
    {
        let bytes = self.text.len().saturating_add(back.text.len());
        let mut parts = PartList::with_room(self.allocator(), bytes)?;
        parts.append(self)?;
        parts.append(back)?;
        Ok(parts)
    }

    /// The same parts again, and one more behind them.
    pub fn with_part(&self, part: &str) -> Result<PartList, Memory>
        requires { HasNoNul part.now }
        ensures { IfOk result (λ parts. parts ≡ self.now ++ part.now ∷ []) }
    {
        let bytes = self.text.len().saturating_add(part.len()).saturating_add(1);
        let mut parts = PartList::with_room(self.allocator(), bytes)?;
        parts.append(self)?;
        parts.push(part)?;
        Ok(parts)
    }

    /// How many bytes the parts have, with one more for each.
    pub fn bytes(&self) -> usize
        ensures { result ≡ length (behind_nuls self.now) }
    {
        self.text.len()
    }

    /// Appends the parts to some bytes, with a slash between each two.
    pub fn push_between_slashes(&self, bytes: &mut Vec<u8>) -> Result<(), Memory>
        ensures ok { OnOk result (bytes.new.items ≡ bytes.old.items ++ drop 1 (behind_slashes self.now)) }
        ensures front { OnErr result (IsPrefix bytes.old.items bytes.new.items) }
    {
        match self.text.as_bytes() {
            [] => Ok(()),
            [_, rest @ ..] => push_with_slashes(bytes, rest),
        }
    }

    pub fn copy(&self) -> Result<PartList, Memory>
        ensures { IfOk result (λ parts. parts ≡ self.now) }
    {
        Ok(PartList {
            text: self.text.clone()?,
        })
    }

    pub fn allocator(&self) -> Global {
        *self.text.allocator()
    }

    pub fn is_empty(&self) -> bool
        ensures { result ≡ (length self.now == 0) }
    {
        self.text.as_str().is_empty()
    }

    pub fn len(&self) -> usize
        ensures { result ≡ length self.now }
    {
        let mut nuls = 0;
        for b in self.text.as_bytes() {
            if *b == 0 {
                nuls += 1;
            }
        }
        nuls
    }

    /// Whether the parts of another list are the first of these.
    pub fn starts_with(&self, front: &PartList) -> bool
        ensures { result ≡ starts_with (pointwise nat_eq) self.now front.now }
    {
        self.rest_behind(front).is_some()
    }

    /// The parts behind those of another list, where these are the first.
    pub fn behind(&self, front: &PartList) -> Result<Option<PartList>, Memory>
        ensures { IfOk result (λ found. found ≡ (if starts_with (pointwise nat_eq) self.now front.now then Some (drop (length front.now) self.now) else None)) }
    {
        match self.rest_behind(front) {
            Some(rest) => Ok(Some(PartList {
                text: String::from_str(self.allocator(), rest)?,
            })),
            None => Ok(None),
        }
    }

    /// What stands in the text behind the parts of another list, where these are the first.
    fn rest_behind(&self, front: &PartList) -> Option<&str>
        ensures some { IfSome result (λ rest. (starts_with (pointwise nat_eq) self.now front.now ≡ true) × (rest.now ≡ behind_nuls (drop (length front.now) self.now)) × AllByRecursion HasNoNul (drop (length front.now) self.now)) }
        ensures none { IfNone result (starts_with (pointwise nat_eq) self.now front.now ≡ false) }
    {
        behind_front(&self.text, &front.text)
    }

    /// A part by its place.
    pub fn get(&self, i: usize) -> Option<&str>
        ensures { option_map (λ part. part.now) result ≡ slice_get self.now i }
    {
        let mut parts = self.iter();
        for _past in 0..i {
            parts.next()?;
        }
        parts.next()
    }

    pub fn iter(&self) -> PartIter
        ensures { result ≡ self.now }
    {
        PartIter {
            rest: self.text.strip_prefix('\0'),
        }
    }
}

impl PartialEq for PartList {
    ghost eq = { pointwise (pointwise nat_eq) };

    ghost laws = { partial_equiv_from_equiv (lists_equiv nat_list_eq_equiv) };

    fn eq(&self, other: &PartList) -> bool {
        self.text == other.text
    }
}

impl Eq for PartList {
    ghost laws = { lists_equiv nat_list_eq_equiv };
}

impl PartialOrd for PartList {
    ghost partial_cmp = { λ a b. Some (slice_cmp (slice_cmp nat_cmp) a b) };

    ghost laws = { partial_order_from_agreeing_total (slice_cmp (slice_cmp nat_cmp)) (lists_total nat_list_cmp_total) (λ _ _. refl) (lists_ties (slice_cmp nat_cmp) texts_ties) };

    fn partial_cmp(&self, other: &PartList) -> Option<Ordering> {
        Some(self.cmp(other))
    }
}

impl Ord for PartList {
    ghost cmp = { slice_cmp (slice_cmp nat_cmp) };

    ghost total = { lists_total nat_list_cmp_total };

    ghost matches_partial_cmp = { λ _ _. refl };

    ghost matches_eq = { lists_ties (slice_cmp nat_cmp) texts_ties };

    fn cmp(&self, other: &PartList) -> Ordering {
        self.text.as_str().cmp(other.text.as_str())
    }
}

/// The parts of a list that are still to come.
#[derive(Drop)]
pub struct PartIter<'a> {
    rest: Option<&'a str>,
}

impl<'a> Model for PartIter<'a> {
    ghost use Rattle.std.specs.Prelude.{List, ℕ, []};
    ghost use Rattle.std.specs.Coded.{coded_list, coded_ℕ};
    ghost use Rattle.std.specs.Option.{option_map_or};
    ghost use Rattle.key_name.specs.PartList.{between_nuls};

    ghost Value = { List (List ℕ) };

    ghost coded = { coded_list (coded_list coded_ℕ) };

    ghost view = { λ parts. option_map_or (λ rest. between_nuls rest.now) parts.rest [] };
}

impl<'a> Iterator for PartIter<'a> {
    type Item = &'a str;

    ghost next_gives = { YieldsFirstBy (λ part. part.now) (λ s. s) };

    ghost remaining = { item_count (λ s. s) };

    fn next(&mut self) -> Option<&'a str> {
        let (part, rest) = cut_at(self.rest?, '\0');
        self.rest = rest;
        Some(part)
    }
}

/// What stands in a text behind its front, where a part begins or the text ends there.
fn behind_front<'a>(text: &'a str, front: &str) -> Option<&'a str>
    ensures some { IfSome result (λ rest. (text.now ≡ front.now ++ rest.now) × (begins_part rest.now ≡ true)) }
    ensures none { IfNone result ((rest : List ℕ) → text.now ≡ front.now ++ rest → begins_part rest ≡ false) }
{
    match text.strip_prefix(front) {
        Some(rest) => part_or_end(rest),
        None => None,
    }
}

/// A text, where it is empty or begins with a NUL.
fn part_or_end(text: &str) -> Option<&str>
    ensures some { IfSome result (λ same. (same.now ≡ text.now) × (begins_part text.now ≡ true)) }
    ensures none { IfNone result (begins_part text.now ≡ false) }
{
    if begins_part(text) { Some(text) } else { None }
}

/// Whether a text is empty or begins with a NUL.
fn begins_part(text: &str) -> bool
    ensures { result ≡ begins_part text.now }
{
    match text.as_bytes().first() {
        Some(b) => *b == 0,
        None => true,
    }
}

/// Appends some bytes to others, with a slash for each NUL.
fn push_with_slashes(bytes: &mut Vec<u8>, text: &[u8]) -> Result<(), Memory>
    ensures ok { OnOk result (bytes.new.items ≡ bytes.old.items ++ map slash_for_nul text.now) }
    ensures front { OnErr result (IsPrefix bytes.old.items bytes.new.items) }
{
    for b in text {
        bytes.push(slash_for_nul(*b))?;
    }
    Ok(())
}

/// A path behind a NUL, with one for each of its slashes.
fn behind_nuls(alloc: Global, path: &[u8]) -> Result<Vec<u8>, Memory>
    ensures { IfOk result (λ bytes. bytes.items ≡ 0 ∷ map nul_for_slash path.now) }
{
    let mut bytes = Vec::with_capacity(alloc, path.len().saturating_add(1))?;
    bytes.push(0)?;
    bytes.extend_from_slice(path)?;
    put_nuls_for_slashes(&mut bytes);
    Ok(bytes)
}

/// Puts a NUL for each slash.
fn put_nuls_for_slashes(bytes: &mut [u8])
    ensures { bytes.new ≡ map nul_for_slash bytes.old }
{
    for b in bytes.iter_mut() {
        *b = nul_for_slash(*b);
    }
}

/// A byte of a path as a list of parts has it.
fn nul_for_slash(byte: u8) -> u8
    ensures { result ≡ nul_for_slash byte }
{
    if byte == b'/' { 0 } else { byte }
}

/// A byte of a list of parts as a path has it.
fn slash_for_nul(byte: u8) -> u8
    ensures { result ≡ slash_for_nul byte }
{
    if byte == 0 { b'/' } else { byte }
}
