//! Where a session stands: its steps in a phase.
ghost use Rattle.std.specs.Prelude.{◌≡◌};
ghost use Rattle.model_batch.specs.Scripts.{steps_in};

use batch_script::{Step, Steps};

/// The steps of a session among those of a phase; it may have none there.
pub fn steps_among<'a>(session: u32, phase: &'a [Steps]) -> &'a [Step]
    ensures { result.now ≡ steps_in phase.now session }
{
    for it in phase {
        if it.session == session {
            return it.steps.as_slice();
        }
    }
    &[]
}
