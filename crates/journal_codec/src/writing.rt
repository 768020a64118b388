//! Writes the body of an entry behind its length, and the gate behind it.
ghost use Rattle.std.specs.Prelude.{◌≡◌, ◌≤◌, ◌++◌, ◌∷◌, [], length, OnOk, IfOk};
ghost use Rattle.journal_codec.specs.Entry.{IsEntry, IsEntryFile, spelled_file, longest_file};
ghost use Rattle.journal_codec.specs.Forms.{spelled_on, behind_gate};
ghost use Rattle.journal_codec.specs.Header.{sized_name};

use crate::FileText;
use crate::forms::OVER;
use kdb_outside::{FileName, Memory};
use std::alloc::Global;

/// A closed gate.
pub(crate) const CLOSED: u8 = 0;

/// The length of the entry's body in four bytes, the low one first, the body, whose count says that another gate
/// follows, and that gate, closed.
pub fn encode(alloc: Global, files: &[FileText]) -> Result<Vec<u8>, Memory>
    requires { IsEntry files.now }
    ensures { IfOk result (λ bytes. bytes.items ≡ behind_gate files.now ++ 0 ∷ []) }
{
    let size = body_size(files);
    let mut out = Vec::with_capacity(alloc, 5 + size as usize)?;
    out.extend_from_slice(&size.to_le_bytes())?;
    out.push(OVER + files.len() as u8)?;
    for file in files {
        put_file(&mut out, file)?;
    }
    out.push(CLOSED)?;
    Ok(out)
}

/// A name behind its length.
pub(crate) fn put_name(out: &mut Vec<u8>, file: &FileName) -> Result<(), Memory>
    ensures { OnOk result (out.new.items ≡ out.old.items ++ sized_name file.now) }
{
    let name = file.text();
    out.push(name.len() as u8)?;
    out.extend_from_slice(name.as_bytes())?;
    Ok(())
}

fn put_file(out: &mut Vec<u8>, file: &FileText) -> Result<(), Memory>
    requires { IsEntryFile file.now }
    ensures { OnOk result (out.new.items ≡ out.old.items ++ spelled_file file.now) }
{
    let content = file.bytes.as_slice();
    put_name(out, &file.file)?;
    out.extend_from_slice(&(content.len() as u32).to_le_bytes())?;
    out.extend_from_slice(content)?;
    Ok(())
}

/// How many bytes the body has.
fn body_size(files: &[FileText]) -> u32
    requires { IsEntry files.now }
    ensures { result ≡ length (spelled_on files.now) }
{
    let mut size = 1;
    for file in files {
        size += file_size(file);
    }
    size
}

fn file_size(file: &FileText) -> u32
    requires { IsEntryFile file.now }
    ensures exact { result ≡ length (spelled_file file.now) }
    ensures short { result ≤ longest_file }
{
    let name = file.file.text().len() as u32;
    let content = file.bytes.as_slice().len() as u32;
    5 + name + content
}
