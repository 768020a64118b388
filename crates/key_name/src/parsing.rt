//! From a text to a namespace and the parts that its path leads to.
ghost use Rattle.std.specs.Prelude.{◌≡◌, ◌++◌, ◌∷◌, [], ◌==◌, IfErr, IfOk, OnOk, Some, None, map, string_bytes};
ghost use Rattle.std.specs.List.{position};
ghost use Rattle.model_names.specs.RawParts.{raw_parts};
ghost use Rattle.model_names.specs.Refuses.{namespace_of_word};
ghost use Rattle.model_names.specs.Spelling.{word_of};
ghost use Rattle.model_names.specs.Spells.{walked};
ghost use Rattle.key_name.specs.Raws.{text_behind};
ghost use Rattle.key_name.specs.Refused.{IsRefusal};

use crate::NameFault;
use crate::cutting::cut;
use crate::refusing::{first_bad_array, first_bad_escape, first_nul};
use crate::spelling::word;
use crate::walking::walk;
use model_names::Namespace;
use std::alloc::Global;

/// The namespace of a text, and what stands behind its first slash.
pub fn cut_namespace(text: &str) -> Result<(Namespace, &str), NameFault>
    ensures cut { IfOk result (λ cut. text.now ≡ word_of cut.0 ++ 47 ∷ cut.1.now) }
    ensures refused { IfErr result (λ fault. IsRefusal text.now fault) }
{
    if let Some(path) = text.strip_prefix('/') {
        return Ok((Namespace::Cascading, path));
    }
    let Some((word, behind)) = text.split_once(':') else {
        return Err(NameFault::NoNamespace);
    };
    let Some(namespace) = namespace_of(word) else {
        return Err(NameFault::UnknownNamespace);
    };
    match behind.strip_prefix('/') {
        Some(path) => Ok((namespace, path)),
        None => Err(NameFault::NoSlash),
    }
}

/// The parts that the path behind a namespace's word leads to. The first fault of the whole text is told, where it is
/// not the length of its path.
pub fn parts_of(alloc: Global, namespace: Namespace, path: &str) -> Result<Vec<String>, NameFault>
    ensures leads { IfOk result (λ parts. walked [] (raw_parts path.now) ≡ Some (map (λ part. string_bytes part) parts.items)) }
    ensures no_nul { OnOk result (position (λ b. b == 0) (text_behind namespace path.now) ≡ None) }
    ensures refused { IfErr result (λ fault. IsRefusal (text_behind namespace path.now) fault) }
{
    let lead = word(namespace).len() + 1;
    let raws = cut(alloc, lead + path.len(), path)?;
    if let Some(at) = first_bad_escape(&raws) {
        return Err(NameFault::BadEscape { at });
    }
    if let Some(at) = first_bad_array(&raws) {
        return Err(NameFault::BadArray { at });
    }
    if let Some(at) = first_nul(path) {
        return Err(NameFault::Nul { at: lead + at });
    }
    Ok(walk(alloc, &raws)?)
}

/// The namespace that a word names.
fn namespace_of(word: &str) -> Option<Namespace>
    ensures { result ≡ namespace_of_word word.now }
{
    match word {
        "spec" => Some(Namespace::Spec),
        "proc" => Some(Namespace::Proc),
        "dir" => Some(Namespace::Dir),
        "user" => Some(Namespace::User),
        "system" => Some(Namespace::System),
        "default" => Some(Namespace::Default),
        _ => None,
    }
}
