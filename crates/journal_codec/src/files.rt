//! What an entry says of one file.
use kdb_outside::FileName;
use key_meta::List;

/// A file's name and its whole content.
#[derive(Drop)]
pub struct FileText {
    pub file: FileName,
    pub bytes: List<u8>,
}
