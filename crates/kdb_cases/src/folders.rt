//! What stands in the folder that the program runs in, beside the disks over it.

use crate::notation::{bytes_of, shown};
use key_meta::Memory;
use std::fs::Permissions;
use std::io::ErrorKind;
use std::os::unix::fs::{PermissionsExt, symlink};
use std::{fs, io};

/// What comes of a line, if it is one of folders.
pub fn answer_to(rt: HostRuntime, word: &str, rest: &str) -> Result<Option<String>, Memory> {
    let (path, text) = rest.split_once(' ').unwrap_or((rest, ""));
    match word {
        "put" => Ok(Some(put(rt, path, text)?)),
        "rights" => Ok(Some(rights(rt, path, text)?)),
        "at" => Ok(Some(at(rt, path)?)),
        "folder" | "link" | "remove" => Ok(Some(made(rt, change(rt, word, path, text))?)),
        _ => Ok(None),
    }
}

fn put(rt: HostRuntime, path: &str, text: &str) -> Result<String, Memory> {
    let bytes = bytes_of(rt.alloc(), text)?;
    made(rt, fs::write(&rt, path, &bytes))
}

fn change(rt: HostRuntime, word: &str, path: &str, target: &str) -> io::Result<()> {
    match word {
        "folder" => fs::create_dir(&rt, path),
        "link" => symlink(&rt, target, path),
        _ => fs::remove_file(&rt, path),
    }
}

fn made(rt: HostRuntime, outcome: io::Result<()>) -> Result<String, Memory> {
    match outcome {
        Ok(()) => Ok(String::new(rt.alloc())),
        Err(_) => String::from_str(rt.alloc(), "  failed\n"),
    }
}

/// Gives rights to what is at a path, by their octal digits, or tells which it has.
fn rights(rt: HostRuntime, path: &str, digits: &str) -> Result<String, Memory> {
    if let Ok(mode) = u32::from_str_radix(digits, 8) {
        return made(
            rt,
            fs::set_permissions(&rt, path, Permissions::from_mode(mode)),
        );
    }
    match fs::metadata(&rt, path) {
        Ok(found) => {
            let mode = found.permissions().mode() & 0o777;
            format!(in rt.alloc(); "  {mode:o}\n")
        }
        Err(_) => String::from_str(rt.alloc(), "  nothing\n"),
    }
}

/// The bytes of a file, or that there is nothing, or no file.
fn at(rt: HostRuntime, path: &str) -> Result<String, Memory> {
    let alloc = rt.alloc();
    match fs::read(&rt, path) {
        Ok(bytes) => {
            let bytes = shown(alloc, &bytes)?;
            format!(in alloc; "  {bytes}\n")
        }
        Err(error) if error.kind() == ErrorKind::NotFound => {
            String::from_str(alloc, "  nothing\n")
        }
        Err(_) => String::from_str(alloc, "  no file\n"),
    }
}
