//! How many bytes an entry takes.
ghost use Rattle.std.specs.Prelude.{◌≡◌, ◌≤◌, length};
ghost use Rattle.journal_codec.specs.Entry.{IsEntry, IsEntryFile, spelled_file, longest_file};
ghost use Rattle.journal_codec.specs.Forms.{spelled_on};

use journal_codec::FileText;

/// How many bytes the body of an entry has, with either form of the count.
pub fn body_size(files: &[FileText]) -> u64
    requires { IsEntry files.now }
    ensures exact { result ≡ length (spelled_on files.now) }
    ensures short { result ≤ 67200000 }
{
    let mut size = 1;
    for file in files {
        size += file_size(file);
    }
    size
}

fn file_size(file: &FileText) -> u64
    requires { IsEntryFile file.now }
    ensures exact { result ≡ length (spelled_file file.now) }
    ensures short { result ≤ longest_file }
{
    let name = file.file.text().len() as u64;
    let content = file.bytes.as_slice().len() as u64;
    5 + name + content
}
