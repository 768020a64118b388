//! The names that a cascading name stands for.
ghost use Rattle.std.specs.Prelude.{◌≡◌, ◌++◌, [], ◌∷◌, IfOk, OnOk, Some, ◌==◌};
ghost use Rattle.std.specs.List.{flat_map};
ghost use Rattle.std.specs.Option.{option_to_list};
ghost use Rattle.model_names.specs.declared.namespaces.Namespace.TheVariants.{Cascading};
ghost use Rattle.model_names.specs.Name.{rank};
ghost use Rattle.spec_cascade.specs.Candidates.{candidates, names_for, names_of, paths_by, paths_in, searched, usual};

use key_meta::{Memory, Meta, Text};
use key_name::{KeyName, NameFault, Namespace};
use std::alloc::{AllocError, Global};

/// All names that a path stands for, in the order in which they are searched, by what its specification metadata says.
pub fn candidates(alloc: Global, path: &KeyName, said: &Meta) -> Result<Vec<KeyName>, Memory>
    ensures { IfOk result (λ names. names.items ≡ candidates path.now.parts said.now) }
{
    let overrides = said.array("override")?;
    let words = said.array("namespace")?;
    let fallbacks = said.array("fallback")?;
    let mut names = Vec::new(alloc);
    push_texts(alloc, &mut names, overrides.as_slice())?;
    push_words(&mut names, path, words.as_slice())?;
    push_texts(alloc, &mut names, fallbacks.as_slice())?;
    push_in(&mut names, path, Namespace::Default)?;
    Ok(names)
}

/// Adds the names that some texts stand for.
fn push_texts(alloc: Global, names: &mut Vec<KeyName>, texts: &[Text]) -> Result<(), Memory>
    ensures { OnOk result (names.new.items ≡ names.old.items ++ flat_map names_of texts.now) }
{
    for text in texts {
        push_text(alloc, names, text.as_str())?;
    }
    Ok(())
}

/// Adds the names that a text stands for.
fn push_text(alloc: Global, names: &mut Vec<KeyName>, text: &str) -> Result<(), Memory>
    ensures { OnOk result (names.new.items ≡ names.old.items ++ names_of text.now) }
{
    match KeyName::parse(alloc, text) {
        Ok(name) => push_name(names, name),
        Err(fault) => match fault {
            NameFault::Memory => Err(AllocError),
            _ => Ok(()),
        },
    }
}

/// Adds a name, or for a cascading one its path in the usual namespaces.
fn push_name(names: &mut Vec<KeyName>, name: KeyName) -> Result<(), Memory>
    ensures { OnOk result (names.new.items ≡ names.old.items ++ names_for (Some name)) }
{
    if is_cascading(name.namespace()) {
        return push_usual(names, &name);
    }
    names.push(name)?;
    Ok(())
}

/// Whether a namespace is the cascading one.
pub fn is_cascading(namespace: Namespace) -> bool
    ensures { result ≡ (rank namespace == rank Cascading) }
{
    match namespace {
        Namespace::Cascading => true,
        _ => false,
    }
}

/// Adds a path in the namespaces that words ask for.
fn push_words(names: &mut Vec<KeyName>, path: &KeyName, words: &[Text]) -> Result<(), Memory>
    ensures { OnOk result (names.new.items ≡ names.old.items ++ paths_by path.now.parts words.now) }
{
    if words.is_empty() {
        return push_usual(names, path);
    }
    push_each(names, path, words)
}

/// Adds a path in the namespaces that some words ask for, if there are some.
fn push_each(names: &mut Vec<KeyName>, path: &KeyName, words: &[Text]) -> Result<(), Memory>
    ensures { OnOk result (names.new.items ≡ names.old.items ++ flat_map (λ word. paths_in path.now.parts (option_to_list (searched word))) words.now) }
{
    for word in words {
        push_word(names, path, word.as_str())?;
    }
    Ok(())
}

/// Adds a path in the namespace that a word asks for.
fn push_word(names: &mut Vec<KeyName>, path: &KeyName, word: &str) -> Result<(), Memory>
    ensures { OnOk result (names.new.items ≡ names.old.items ++ paths_in path.now.parts (option_to_list (searched word.now))) }
{
    match searched(word) {
        Some(namespace) => push_in(names, path, namespace),
        None => Ok(()),
    }
}

/// The namespace that a word asks for.
fn searched(word: &str) -> Option<Namespace>
    ensures { result ≡ searched word.now }
{
    if word == "proc" {
        Some(Namespace::Proc)
    } else if word == "dir" {
        Some(Namespace::Dir)
    } else if word == "user" {
        Some(Namespace::User)
    } else if word == "system" {
        Some(Namespace::System)
    } else if word == "default" {
        Some(Namespace::Default)
    } else {
        None
    }
}

/// Adds a path in the usual namespaces.
fn push_usual(names: &mut Vec<KeyName>, path: &KeyName) -> Result<(), Memory>
    ensures { OnOk result (names.new.items ≡ names.old.items ++ paths_in path.now.parts usual) }
{
    push_in(names, path, Namespace::Proc)?;
    push_in(names, path, Namespace::Dir)?;
    push_in(names, path, Namespace::User)?;
    push_in(names, path, Namespace::System)?;
    Ok(())
}

/// Adds a path in a namespace.
fn push_in(names: &mut Vec<KeyName>, path: &KeyName, namespace: Namespace) -> Result<(), Memory>
    ensures { OnOk result (names.new.items ≡ names.old.items ++ paths_in path.now.parts (namespace ∷ [])) }
{
    names.push(path.with_namespace(namespace)?)?;
    Ok(())
}
