//! The last pattern, kept for the next value: one often stands for many keys, and to compile it is what costs.
ghost use Rattle.std.specs.Prelude.{IfOk, IfSome};
ghost use Rattle.regex.specs.Strings.{regex_source};
ghost use Rattle.regex_check.specs.Answers.{Answers};
ghost use Rattle.regex_check.specs.Compiled.{IsCompiled, IsCompiledOf};

use crate::patterns::Search;
use key_meta::Memory;
use regex::{Error, Regex};
use std::alloc::{AllocError, Global};
use std::marker::Model;

/// The last pattern that was compiled, and the last text that was refused. It stays where a walk over keys holds it:
/// what is compiled may not go to another thread, and a store may.
#[derive(Drop)]
pub struct LastPattern {
    compiled: Option<Regex>,
    refused: Option<String>,
}

impl Model for LastPattern {
    ghost use Rattle.std.specs.Prelude.{IfSome};
    ghost use Rattle.regex_check.specs.Compiled.{IsCompiled};

    ghost Value = { Unit {0} };

    ghost view = { λ _. tt };

    ghost invariant = { λ last. IfSome last.compiled IsCompiled };
}

impl LastPattern {
    /// None so far.
    pub fn none() -> LastPattern {
        LastPattern {
            compiled: None,
            refused: None,
        }
    }

    /// What a text was compiled to, where it is the last.
    fn compiled(&self, pattern: &str) -> Option<&Regex>
        ensures { IfSome result (λ regex. IsCompiledOf pattern.now regex.now) }
    {
        let regex = self.compiled.as_ref()?;
        if regex.as_str() == pattern {
            Some(regex)
        } else {
            None
        }
    }

    /// Whether a text is the last that was refused.
    fn is_refused(&self, pattern: &str) -> bool {
        match &self.refused {
            Some(refused) => refused.as_str() == pattern,
            None => false,
        }
    }
}

/// Searches for a pattern in a value, and keeps what it was compiled to, or that it was refused.
pub fn search_with(
    alloc: Global,
    last: &mut LastPattern,
    pattern: &str,
    value: &str,
) -> Result<Search, Memory>
    ensures { IfOk result (Answers pattern.now value.now) }
{
    if last.is_refused(pattern) {
        return Ok(Search::Refused);
    }
    if let Some(regex) = last.compiled(pattern) {
        return search_by(alloc, regex, value);
    }
    let Some(regex) = compile(alloc, pattern)? else {
        last.refused = Some(String::from_str(alloc, pattern)?);
        return Ok(Search::Refused);
    };
    let search = search_by(alloc, &regex, value)?;
    last.compiled = Some(regex);
    Ok(search)
}

/// Compiles a pattern, unless it is refused for another cause than memory.
fn compile(alloc: Global, pattern: &str) -> Result<Option<Regex>, Memory>
    ensures { IfOk result (λ compiled. IfSome compiled (IsCompiledOf pattern.now)) }
{
    match Regex::new(alloc, pattern) {
        Ok(regex) => Ok(Some(regex)),
        Err(Error::OutOfMemory) => Err(AllocError),
        Err(_) => Ok(None),
    }
}

/// Whether a compiled pattern matches somewhere in a value.
fn search_by(alloc: Global, regex: &Regex, value: &str) -> Result<Search, Memory>
    requires { IsCompiled regex.now }
    ensures { IfOk result (Answers (regex_source regex.now) value.now) }
{
    let mut matcher = regex.matcher(alloc)?;
    if matcher.is_match(value) {
        Ok(Search::Found)
    } else {
        Ok(Search::Missing)
    }
}
