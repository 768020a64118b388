//! Sets of keys: their mount table, their parts by mounts, and their text.

use crate::notation::{shown, text_of};
use crate::tables::{added, removed, table_of};
use dump_storage::write;
use key_meta::{Memory, Meta, Text};
use key_name::{KeyName, NameFault, owner};
use key_set::{Entry, KeySet};
use set_split::{Parts, are_points, involved, split, unite};
use std::alloc::{AllocError, Global};

/// Keys, and the points by which they are split.
#[derive(Drop)]
pub struct Keys {
    alloc: Global,
    keys: KeySet,
    points: Vec<KeyName>,
}

impl Keys {
    pub fn new(alloc: Global) -> Keys {
        Keys {
            alloc,
            keys: KeySet::new(alloc),
            points: Vec::new(alloc),
        }
    }

    /// What comes of a line, if it is one of sets.
    pub fn answer_to(&mut self, word: &str, rest: &str) -> Result<Option<String>, Memory> {
        match word {
            "keys" => {
                self.keys = KeySet::new(self.alloc);
                Ok(Some(self.put_all(rest)?))
            }
            "key" => Ok(Some(self.put_all(rest)?)),
            "count" => Ok(Some(format!(in self.alloc; "  {}\n", self.keys.len())?)),
            "table" => Ok(Some(table_of(self.alloc, &self.keys)?)),
            "mount" => Ok(Some(added(self.alloc, &mut self.keys, rest)?)),
            "umount" => Ok(Some(removed(self.alloc, &mut self.keys, rest)?)),
            "points" => Ok(Some(self.set_points(rest)?)),
            _ => self.look(word, rest),
        }
    }

    fn look(&self, word: &str, rest: &str) -> Result<Option<String>, Memory> {
        match word {
            "written" => Ok(Some(written_of(self.alloc, &self.keys)?)),
            "names" => Ok(Some(names_of(self.alloc, &self.keys)?)),
            "owner" | "involved" | "split" => match name_of(self.alloc, rest)? {
                Some(name) => Ok(Some(self.by_points(word, &name)?)),
                None => Ok(None),
            },
            _ => Ok(None),
        }
    }

    /// Puts keys that stand one a line, each a name and a value.
    fn put_all(&mut self, text: &str) -> Result<String, Memory> {
        let text = text_of(self.alloc, text)?.unwrap_or(String::new(self.alloc));
        for line in text.as_str().lines() {
            let (name, value) = line.split_once(' ').unwrap_or((line, ""));
            if !self.put(name, value)? {
                return String::from_str(self.alloc, "  no name\n");
            }
        }
        Ok(String::new(self.alloc))
    }

    /// Puts a key, if its name is one.
    fn put(&mut self, name: &str, value: &str) -> Result<bool, Memory> {
        let Some(name) = name_of(self.alloc, name)? else {
            return Ok(false);
        };
        let entry = Entry {
            value: Text::new(self.alloc, value)?,
            meta: Meta::new(self.alloc),
        };
        let _ = self.keys.append(name, entry)?;
        Ok(true)
    }

    fn set_points(&mut self, text: &str) -> Result<String, Memory> {
        self.points = Vec::new(self.alloc);
        for word in text.split(' ') {
            if let Some(name) = name_of(self.alloc, word)? {
                self.points.push(name)?;
            }
        }
        let answer = are_points(&self.points);
        format!(in self.alloc; "  {answer}\n")
    }

    fn by_points(&self, word: &str, name: &KeyName) -> Result<String, Memory> {
        if !are_points(&self.points) {
            return String::from_str(self.alloc, "  no points\n");
        }
        match word {
            "owner" => {
                let owned = owner(&self.points, name);
                format!(in self.alloc; "  {owned:?}\n")
            }
            "involved" => {
                let mounts = involved(self.alloc, &self.points, name)?;
                format!(in self.alloc; "  {:?}\n", mounts.as_slice())
            }
            _ => self.split_by(name),
        }
    }

    fn split_by(&self, parent: &KeyName) -> Result<String, Memory> {
        let alloc = self.alloc;
        if !are_points(&self.points) || owner(&self.points, parent).is_none() {
            return String::from_str(alloc, "  no owner\n");
        }
        let made = split(alloc, &self.points, parent, &self.keys)?;
        let mut answer = told(alloc, &made)?;
        let united = unite(alloc, made)?;
        answer.push_str(&names_of(alloc, &united)?)?;
        Ok(answer)
    }
}

/// How many keys are set aside, and the names of each part behind its mount.
fn told(alloc: Global, made: &Parts) -> Result<String, Memory> {
    let mut answer = format!(in alloc; "  {} aside\n", made.aside)?;
    for part in made.parts.as_slice() {
        let names = names_of(alloc, &part.keys)?;
        answer.push_str(&format!(in alloc; "  {}{names}", part.mount)?)?;
    }
    Ok(answer)
}

/// The dump of keys.
pub fn written_of(alloc: Global, keys: &KeySet) -> Result<String, Memory> {
    let Ok(text) = write(alloc, keys) else {
        return Err(AllocError);
    };
    let text = shown(alloc, &text)?;
    format!(in alloc; "  {text}\n")
}

fn names_of(alloc: Global, keys: &KeySet) -> Result<String, Memory> {
    let mut names = String::new(alloc);
    names.push(' ')?;
    for (name, _) in keys.iter() {
        names.push(' ')?;
        names.push_str(&name.text()?)?;
    }
    names.push('\n')?;
    Ok(names)
}

/// The name of a text, if it has one.
pub fn name_of(alloc: Global, text: &str) -> Result<Option<KeyName>, Memory> {
    match KeyName::parse(alloc, text) {
        Ok(name) => Ok(Some(name)),
        Err(NameFault::Memory) => Err(AllocError),
        Err(_) => Ok(None),
    }
}
