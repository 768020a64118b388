//! Laws of what files mean, over any formats.
ghost use Rattle.std.specs.Prelude.{◌≡◌, ℕ, List, Result, map as over};
ghost use Rattle.mounted_files.specs.Opening.{IsMade, IsMadeByKeys, IsOpened, Opens};
ghost use Rattle.mounted_files.specs.declared.files.MountedFile.{MountedFile};
ghost use Rattle.mounted_files.specs.declared.refusals.OpenRefusal.{OpenRefusal};

use storage_api::Formats;

/// Files mean one thing, or are refused for one cause.
pub fn files_have_one_opening<F: Formats>(_formats: &F)
    ensures some { (bytes_of : List ℕ → List ℕ)
        → (opened : Result (List MountedFile) OpenRefusal) × Opens F.reads F.is_bad_at bytes_of opened × IsMade opened }
    ensures one { (bytes_of : List ℕ → List ℕ) (opened other : Result (List MountedFile) OpenRefusal) →
        Opens F.reads F.is_bad_at bytes_of opened → Opens F.reads F.is_bad_at bytes_of other → IsMade opened → IsMade other → opened ≡ other }
{}

/// The mounts of opened files are those of a table.
pub fn opened_files_have_a_table<F: Formats>(_formats: &F)
    ensures { (bytes_of : List ℕ → List ℕ) (files : List MountedFile) → IsOpened F.reads F.is_bad_at bytes_of files
        → IsMadeByKeys (over (λ file. file.mount) files) }
{}
