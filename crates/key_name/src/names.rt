//! A key's name, seen by contracts as its namespace and its parts.
ghost use Rattle.std.specs.Prelude.{◌≡◌, ◌<◌, ◌≤◌, ◌+◌, ◌-◌, ◌^◌, ◌∷◌, ◌++◌, IfSome, Some, [], drop, length, None, IfErr, IfOk, OnErr, OnOk, slice_get, nat_eq, string_bytes, refl, true};
ghost use mathlib.Core.List.{IsPrefix};
ghost use Rattle.std.specs.Bool.{Decides};
ghost use Rattle.std.specs.Cmp.{partial_equiv_from_equiv, partial_order_from_agreeing_total};
ghost use Rattle.std.specs.Option.{option_map};
ghost use Rattle.std.specs.Ordering.{nat_cmp};
ghost use Rattle.model_names.specs.declared.namespaces.Namespace.TheVariants.{Cascading};
ghost use Rattle.model_names.specs.Below.{IsBelow, IsBelowOrSame, is_at_or_below};
ghost use Rattle.model_names.specs.Glob.{HasGlob, MatchesGlob};
ghost use Rattle.model_names.specs.Name.{rank};
ghost use Rattle.model_names.specs.Order.{name_cmp, name_eq};
ghost use Rattle.model_names.specs.Refuses.{refusal_of};
ghost use Rattle.model_names.specs.Spells.{Spells, longest_path};
ghost use Rattle.model_names.specs.Spelling.{path, path_of_parts, spelling};
ghost use Rattle.model_names.specs.WellFormed.{IsName};
ghost use Rattle.model_names.proofs.OrderLemmas.{name_cmp_total};
ghost use Rattle.key_name.specs.Children.{child_of, child_refusal};
ghost use Rattle.key_name.specs.Comparing.{name_eq_equiv, name_ties};
ghost use Rattle.key_name.specs.Joining.{joined, way_to, IsTooLong};
ghost use Rattle.key_name.specs.Raws.{text_behind};
ghost use Rattle.key_name.specs.Refused.{IsRefusal, IsChildRefusal};
ghost use Rattle.general_words.specs.Saturated.{saturated};

use crate::arrays::is_misspelled;
use crate::glob::{have_hole, match_parts};
use crate::measuring::{path_len, spelled_len};
use crate::parsing::{cut_namespace, parts_of};
use crate::part_list::PartList;
use crate::plain::plain_parts;
use crate::refusing::first_nul;
use crate::spelling::{push_path, word};
use crate::{Memory, NameFault};
use model_names::Namespace;
use std::alloc::Global;
use std::cmp::Ordering;
use std::marker::Model;

/// The most bytes that the path of a name may have.
const LONGEST_PATH: usize = 4096;

/// A namespace and a list of parts, such as some text spells.
#[derive(Drop)]
pub struct KeyName {
    namespace: Namespace,
    // the length of its path
    path_bytes: u16,
    parts: PartList,
}

impl Model for KeyName {
    ghost use Rattle.model_names.specs.Name.{Name};

    ghost Value = { Name };

    ghost use Rattle.key_name.specs.KeyName.{name_of, MeansName};

    ghost view = { name_of };

    ghost invariant = { MeansName };
}

impl KeyName {
    /// The name that a text spells, or the first refusal of the text.
    pub fn parse(alloc: Global, text: &str) -> Result<KeyName, NameFault>
        ensures spelled { IfOk result (λ name. Spells text.now name) }
        ensures accepted { OnOk result (refusal_of text.now ≡ None) }
        ensures refused { IfErr result (λ fault. IsRefusal text.now fault) }
    {
        let (namespace, path) = cut_namespace(text)?;
        name_behind(alloc, namespace, path)
    }

    /// The name that a text spells with a slash before it, or the first refusal of that text.
    pub fn parse_relative(alloc: Global, text: &str) -> Result<KeyName, NameFault>
        ensures spelled { IfOk result (λ name. Spells (47 ∷ text.now) name) }
        ensures accepted { OnOk result (refusal_of (47 ∷ text.now) ≡ None) }
        ensures refused { IfErr result (λ fault. IsRefusal (47 ∷ text.now) fault) }
    {
        // with its slash it would be longer than a text may be
        if text.len() == isize::MAX as usize {
            return Err(NameFault::Memory);
        }
        name_behind(alloc, Namespace::Cascading, text)
    }

    /// The canonical spelling, which spells this name.
    pub fn text(&self) -> Result<String, Memory>
        ensures canonical { IfOk result (λ text. string_bytes text ≡ spelling self.now) }
        ensures spells { IfOk result (λ text. Spells (string_bytes text) self.now) }
    {
        let mut text = String::with_capacity(self.parts.allocator(), self.text_bytes())?;
        text.push_str(word(self.namespace))?;
        push_path(&mut text, &self.parts)?;
        Ok(text)
    }

    /// Appends what stands behind the first slash of its path to some bytes. Behind want of memory a front of it may
    /// stand there.
    pub fn push_relative(&self, bytes: &mut Vec<u8>) -> Result<(), Memory>
        ensures ok { OnOk result (bytes.new.items ≡ bytes.old.items ++ drop 1 (path self.now)) }
        ensures front { OnErr result (IsPrefix bytes.old.items bytes.new.items) }
    {
        // no part of it is escaped where its path has no more bytes than its parts
        if self.parts.bytes() == self.path_bytes() {
            return self.parts.push_between_slashes(bytes);
        }
        self.push_escaped(bytes)
    }

    /// The same for any name.
    fn push_escaped(&self, bytes: &mut Vec<u8>) -> Result<(), Memory>
        ensures ok { OnOk result (bytes.new.items ≡ bytes.old.items ++ drop 1 (path self.now)) }
        ensures front { OnErr result (IsPrefix bytes.old.items bytes.new.items) }
    {
        let mut text = String::with_capacity(self.parts.allocator(), self.path_bytes())?;
        push_path(&mut text, &self.parts)?;
        bytes.extend_from_slice(&text.as_bytes()[1..])?;
        Ok(())
    }

    /// The same name again, in memory of its own.
    pub fn copy(&self) -> Result<KeyName, Memory>
        ensures { IfOk result (λ name. name ≡ self.now) }
    {
        self.with_namespace(self.namespace)
    }

    /// The same parts in another namespace.
    pub fn with_namespace(&self, namespace: Namespace) -> Result<KeyName, Memory>
        ensures { IfOk result (λ name. name ≡ record { namespace = namespace; parts = self.now.parts }) }
    {
        Ok(KeyName {
            namespace,
            path_bytes: self.path_bytes,
            parts: self.parts.copy()?,
        })
    }

    /// This name with the parts of a relative one, which is a cascading name, behind its own.
    pub fn join(&self, relative: &KeyName) -> Result<KeyName, NameFault>
        requires cascading { relative.now.namespace ≡ Cascading }
        ensures ok { IfOk result (λ name. name ≡ joined self.now relative.now) }
        ensures limit { OnOk result (length (path (joined self.now relative.now)) ≤ longest_path) }
        ensures err { IfErr result (λ fault. IsTooLong (joined self.now relative.now) fault) }
    {
        let bytes = self.joined_bytes(relative);
        if bytes > LONGEST_PATH {
            return Err(NameFault::TooLong { bytes });
        }
        Ok(KeyName {
            namespace: self.namespace,
            path_bytes: bytes as u16,
            parts: self.parts.joined(&relative.parts)?,
        })
    }

    /// A name with the parts of this one, which is a cascading name, behind its own. Where it is a root, the parts are
    /// not copied.
    pub fn joined_onto(self, point: &KeyName) -> Result<KeyName, NameFault>
        requires cascading { self.namespace ≡ Cascading }
        ensures ok { IfOk result (λ name. name ≡ joined point.now self) }
        ensures limit { OnOk result (length (path (joined point.now self)) ≤ longest_path) }
        ensures err { IfErr result (λ fault. IsTooLong (joined point.now self) fault) }
    {
        if point.parts.is_empty() {
            return Ok(KeyName {
                namespace: point.namespace,
                path_bytes: self.path_bytes,
                parts: self.parts,
            });
        }
        point.join(&self)
    }

    /// This name with a part behind its own. The part is taken as it is, without escapes.
    ///
    /// `BadArray` comes, at place 0, where the part looks like an array's and isn't canonical; then `Nul`, with the
    /// place of the first one in the part; then `TooLong`, with the bytes of the path that would result, at most
    /// `usize::MAX`.
    pub fn child(&self, part: &str) -> Result<KeyName, NameFault>
        ensures ok { IfOk result (λ name. name ≡ child_of self.now part.now) }
        ensures accepted { OnOk result (child_refusal self.now part.now ≡ None) }
        ensures refused { IfErr result (λ fault. IsChildRefusal self.now part.now fault) }
        ensures name { IfOk result IsName }
    {
        if is_misspelled(part) {
            return Err(NameFault::BadArray { at: 0 });
        }
        if let Some(at) = first_nul(part) {
            return Err(NameFault::Nul { at });
        }
        let bytes = self.child_bytes(part);
        if bytes > LONGEST_PATH {
            return Err(NameFault::TooLong { bytes });
        }
        Ok(KeyName {
            namespace: self.namespace,
            path_bytes: bytes as u16,
            parts: self.parts.with_part(part)?,
        })
    }

    /// The cascading name that leads here from another. There is none where this name is neither that one nor below it.
    pub fn relative_to(&self, above: &KeyName) -> Result<Option<KeyName>, Memory>
        ensures way { IfOk result (λ found. found ≡ way_to above.now self.now) }
        ensures back { IfOk result (λ found. IfSome found (λ way. joined above.now way ≡ self.now)) }
        ensures names { IfOk result (λ found. IfSome found (λ way. IsName way × IsName self.now)) }
    {
        if !same_namespace(self.namespace, above.namespace) {
            return Ok(None);
        }
        match self.parts.behind(&above.parts)? {
            Some(parts) => Ok(Some(KeyName {
                namespace: Namespace::Cascading,
                path_bytes: self.bytes_behind(above),
                parts,
            })),
            None => Ok(None),
        }
    }

    /// Whether it stands below another name, in one namespace.
    pub fn is_below(&self, above: &KeyName) -> bool
        ensures { Decides result (IsBelow self.now above.now) }
    {
        // a name below another has the longer path
        self.path_bytes > above.path_bytes && self.is_below_or_same(above)
    }

    /// Whether it is another name, or stands below it.
    pub fn is_below_or_same(&self, above: &KeyName) -> bool
        ensures test { result ≡ is_at_or_below above.now self.now }
        ensures relation { Decides result (IsBelowOrSame self.now above.now) }
    {
        same_namespace(self.namespace, above.namespace) && self.parts.starts_with(&above.parts)
    }

    /// The name of a namespace's root, which has no parts.
    pub fn root(alloc: Global, namespace: Namespace) -> KeyName
        ensures { result ≡ record { namespace = namespace; parts = [] } }
    {
        KeyName {
            namespace,
            path_bytes: 1,
            parts: PartList::new(alloc),
        }
    }

    pub fn namespace(&self) -> Namespace
        ensures { result ≡ self.now.namespace }
    {
        self.namespace
    }

    /// How many parts it has.
    pub fn len(&self) -> usize
        ensures parts { result ≡ length self.now.parts }
        ensures well_formed { IsName self.now }
    {
        self.parts.len()
    }

    /// How many bytes its path has, from its first slash on.
    pub fn path_bytes(&self) -> usize
        ensures bytes { result ≡ length (path self.now) }
        ensures limit { result ≤ longest_path }
    {
        self.path_bytes as usize
    }

    /// How many bytes its canonical spelling has.
    pub fn text_bytes(&self) -> usize
        ensures { result ≡ length (spelling self.now) }
    {
        word(self.namespace).len() + self.path_bytes()
    }

    /// A part by its place, unescaped.
    pub fn part(&self, i: usize) -> Option<&str>
        ensures { option_map (λ part. part.now) result ≡ slice_get self.now.parts i }
    {
        self.parts.get(i)
    }

    /// The last part, unescaped. A root has none.
    pub fn base_name(&self) -> Option<&str>
        ensures { option_map (λ part. part.now) result ≡ slice_get self.now.parts (length self.now.parts - 1) }
    {
        self.parts.get(self.parts.len().saturating_sub(1))
    }

    /// Whether it matches a pattern part by part, whatever the namespaces.
    pub fn matches_glob(&self, pattern: &KeyName) -> bool
        ensures { Decides result (MatchesGlob self.now.parts pattern.now.parts) }
    {
        match_parts(&self.parts, &pattern.parts)
    }

    /// Whether some part stands for others.
    pub fn has_glob(&self) -> bool
        ensures { Decides result (HasGlob self.now.parts) }
    {
        have_hole(&self.parts)
    }

    /// How many bytes the path has with the parts of another behind its own.
    fn joined_bytes(&self, relative: &KeyName) -> usize
        ensures { result ≡ length (path (joined self.now relative.now)) }
    {
        if self.parts.is_empty() {
            return relative.path_bytes();
        }
        if relative.parts.is_empty() {
            return self.path_bytes();
        }
        self.path_bytes() + relative.path_bytes()
    }

    /// How many bytes the path has with a part behind its own. A length beyond the type's end is given as its last
    /// value.
    fn child_bytes(&self, part: &str) -> usize
        ensures { result ≡ saturated (length (path (child_of self.now part.now))) }
    {
        let own = spelled_len(part).saturating_add(1);
        if self.parts.is_empty() {
            return own;
        }
        self.path_bytes().saturating_add(own)
    }

    /// How many bytes the path of the parts has that stand behind those of a name at or above this one.
    fn bytes_behind(&self, above: &KeyName) -> u16
        requires { is_at_or_below above.now self.now ≡ true }
        ensures { result ≡ length (path_of_parts (drop (length above.now.parts) self.now.parts)) }
    {
        if above.parts.is_empty() {
            return self.path_bytes;
        }
        if self.path_bytes == above.path_bytes {
            return 1;
        }
        self.path_bytes - above.path_bytes
    }
}

impl PartialEq for KeyName {
    ghost eq = { name_eq };

    ghost laws = { partial_equiv_from_equiv name_eq_equiv };

    fn eq(&self, other: &KeyName) -> bool {
        self.namespace == other.namespace && self.parts == other.parts
    }
}

impl Eq for KeyName {
    ghost laws = { name_eq_equiv };
}

impl PartialOrd for KeyName {
    ghost partial_cmp = { λ a b. Some (name_cmp a b) };

    ghost laws = { partial_order_from_agreeing_total name_cmp name_cmp_total (λ _ _. refl) name_ties };

    fn partial_cmp(&self, other: &KeyName) -> Option<Ordering> {
        Some(self.cmp(other))
    }
}

impl Ord for KeyName {
    ghost cmp = { name_cmp };

    ghost total = { name_cmp_total };

    ghost matches_partial_cmp = { λ _ _. refl };

    ghost matches_eq = { name_ties };

    fn cmp(&self, other: &KeyName) -> Ordering {
        match namespace_cmp(self.namespace, other.namespace) {
            Ordering::Equal => self.parts.cmp(&other.parts),
            decided => decided,
        }
    }
}

fn namespace_cmp(left: Namespace, right: Namespace) -> Ordering
    ensures { result ≡ nat_cmp (rank left) (rank right) }
{
    left.cmp(&right)
}

fn same_namespace(left: Namespace, right: Namespace) -> bool
    ensures { result ≡ nat_eq (rank left) (rank right) }
{
    left == right
}

/// The name of a path behind a namespace's word, or the first refusal of the whole text.
fn name_behind(alloc: Global, namespace: Namespace, path: &str) -> Result<KeyName, NameFault>
    requires { length path.now + 1 < 2 ^ 63 }
    ensures spelled { IfOk result (λ name. Spells (text_behind namespace path.now) name) }
    ensures accepted { OnOk result (refusal_of (text_behind namespace path.now) ≡ None) }
    ensures refused { IfErr result (λ fault. IsRefusal (text_behind namespace path.now) fault) }
{
    match plain_name(alloc, namespace, path)? {
        Some(name) => Ok(name),
        None => read_name(alloc, namespace, path),
    }
}

/// The name of a plain path of no more bytes than a path may have.
fn plain_name(alloc: Global, namespace: Namespace, path: &str) -> Result<Option<KeyName>, Memory>
    ensures { IfOk result (λ found. IfSome found (λ name. Spells (text_behind namespace path.now) name)) }
{
    if path.len() >= LONGEST_PATH {
        return Ok(None);
    }
    match plain_parts(alloc, path)? {
        Some(parts) => Ok(Some(KeyName {
            namespace,
            path_bytes: path.len() as u16 + 1,
            parts,
        })),
        None => Ok(None),
    }
}

/// The name of any path, by its raw parts.
fn read_name(alloc: Global, namespace: Namespace, path: &str) -> Result<KeyName, NameFault>
    requires { length path.now + 1 < 2 ^ 63 }
    ensures spelled { IfOk result (λ name. Spells (text_behind namespace path.now) name) }
    ensures accepted { OnOk result (refusal_of (text_behind namespace path.now) ≡ None) }
    ensures refused { IfErr result (λ fault. IsRefusal (text_behind namespace path.now) fault) }
{
    let parts = parts_of(alloc, namespace, path)?;
    let bytes = path_len(&parts);
    if bytes > LONGEST_PATH {
        return Err(NameFault::TooLong { bytes });
    }
    Ok(KeyName {
        namespace,
        path_bytes: bytes as u16,
        parts: PartList::from_texts(alloc, &parts)?,
    })
}
