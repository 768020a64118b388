//! What a command makes of the keys that it got.
ghost use Rattle.std.specs.Prelude.{◌≡◌, ℕ, List, [], Result, IfOk};
ghost use Rattle.model_maps.specs.KeyMap.{KeyMap};
ghost use Rattle.mount_table.specs.Answers.{IsFault};
ghost use Rattle.mount_table.specs.declared.faults.TableFault.{TableFault as Fault};
ghost use Rattle.tool_commands.specs.StepView.{seen_step};
ghost use Rattle.tool_commands.specs.Step.{Sets, TellsEnd};
ghost use Rattle.tool_commands.specs.Commands.Mounting.{mounted};

use crate::reports::{Report, warn};
use crate::status::REFUSED;
use key_meta::Memory;
use key_set::KeySet;
use mount_table::TableFault;
use std::alloc::Global;
use store_lines::bad_table;

/// It tells something, or it sets keys in the place of those that it got and then puts something on out.
#[derive(Drop)]
pub enum Step {
    Tells(Report),
    Sets { keys: KeySet, out: String },
}

/// Sets keys, and nothing is printed.
pub fn set_silently(alloc: Global, keys: KeySet) -> Step
    ensures sets { seen_step result ≡ Sets keys [] }
    ensures status { (own : List ℕ) → TellsEnd own (seen_step result) }
{
    Step::Sets {
        keys,
        out: String::new(alloc),
    }
}

/// The mount table's keys can't be changed so.
pub fn refuse_table(alloc: Global, fault: TableFault) -> Result<Step, Memory>
    ensures table { IfOk result (λ step. (wanted : Result KeyMap Fault) → IsFault wanted fault → seen_step step ≡ mounted wanted) }
    ensures status { (own : List ℕ) → IfOk result (λ step. TellsEnd own (seen_step step)) }
{
    let text = bad_table(alloc, &fault)?;
    Ok(Step::Tells(warn(alloc, REFUSED, text.as_str())?))
}
