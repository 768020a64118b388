//! Which scripts can be played. Nothing here runs: the function stands for its contract.
ghost use Rattle.std.specs.Prelude.{ℕ, List};
ghost use Rattle.batch_script.specs.Scripts.{Reads};
ghost use Rattle.batch_script.specs.declared.steps.Script.{Script};
ghost use Rattle.batch_run.specs.Played.{IsPlayable};

use batch_script::{proc_lines_have_keys_in_proc, sessions_ascend_in_each_phase};

/// A script that bytes read as can be played.
pub fn what_bytes_read_as_can_be_played()
    ensures { (bytes : List ℕ) (script : Script) → Reads bytes script → IsPlayable script }
{
    sessions_ascend_in_each_phase();
    proc_lines_have_keys_in_proc();
}
