//! The keys in `proc` that a session's handle is opened with.
ghost use Rattle.std.specs.Prelude.{◌≡◌, All, IfOk, OnOk, if◌then◌else◌, nat_eq};
ghost use Rattle.std.specs.FinMap as map;
ghost use Rattle.batch_script.specs.declared.steps.ProcLine.{ProcLine};
ghost use Rattle.model_batch.specs.Scripts.{keys_by};
ghost use Rattle.model_maps.specs.Entry.{plain_entry};
ghost use Rattle.model_maps.specs.KeyMap.{no_keys};
ghost use Rattle.model_names.specs.declared.namespaces.Namespace.TheVariants.{Proc};
ghost use Rattle.store_verdict.specs.ProcKeys.{AreProc};

use batch_script::ProcLine;
use key_meta::{Memory, Meta};
use key_set::{Entry, KeySet};
use std::alloc::Global;

/// The keys that lines give a session; of one name the last is given.
pub fn keys_by(alloc: Global, session: u32, lines: &[ProcLine]) -> Result<KeySet, Memory>
    requires { All (λ (line : ProcLine). line.key.namespace ≡ Proc) lines.now }
    ensures keys { IfOk result (λ keys. keys ≡ keys_by session lines.now no_keys) }
    ensures proc { IfOk result (λ keys. AreProc keys) }
{
    let mut keys = KeySet::new(alloc);
    for line in lines {
        give_key(alloc, session, line, &mut keys)?;
    }
    Ok(keys)
}

/// The key of a line goes to the keys of the session that the line names.
fn give_key(alloc: Global, session: u32, line: &ProcLine, keys: &mut KeySet) -> Result<(), Memory>
    ensures { OnOk result (keys.new ≡ (if nat_eq line.now.session session then map.insert keys.old line.now.key (plain_entry line.now.value) else keys.old)) }
{
    if line.session == session {
        let entry = Entry {
            value: line.value.copy()?,
            meta: Meta::new(alloc),
        };
        let _ = keys.append(line.key.copy()?, entry)?;
    }
    Ok(())
}
