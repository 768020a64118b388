//! What an opening makes sure of.
ghost use Rattle.std.specs.Prelude.{ℕ, List, map as over};
ghost use Rattle.model_maps.specs.KeyMap.{KeyMap};
ghost use Rattle.model_store.specs.Sound.{IsSound};
ghost use Rattle.model_store.specs.Store.{formats_of, store_of};
ghost use Rattle.mounted_files.specs.Opening.{IsMadeByKeys};
ghost use Rattle.mounted_files.specs.Short.{HaveShortTexts};
ghost use Rattle.mounted_files.specs.Writable.{AllCanBeWritten};
ghost use Rattle.mounted_files.specs.declared.files.MountedFile.{MountedFile};

use storage_api::Formats;

/// Files that can be written again, with short texts and with the mounts of a table, make a sound store.
pub fn opened_files_make_a_sound_store<F: Formats>(_formats: &F)
    ensures { (files : List MountedFile) (procs : ℕ → KeyMap) → AllCanBeWritten F.is_storable files
        → HaveShortTexts files → IsMadeByKeys (over (λ file. file.mount) files)
        → IsSound (formats_of F.Formats) (store_of files procs) }
{}
