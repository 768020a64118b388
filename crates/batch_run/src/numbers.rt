//! The sessions of a script.
ghost use Rattle.std.specs.Prelude.{◌≡◌, nat_eq, IfOk};
ghost use Rattle.std.specs.List.{list_any};
ghost use Rattle.batch_script.specs.declared.steps.Phase.{Phase};
ghost use Rattle.batch_script.specs.declared.steps.ProcLine.{ProcLine};
ghost use Rattle.batch_script.specs.declared.steps.Steps.{Steps};
ghost use Rattle.model_batch.specs.Scripts.{has_session, sessions_of};

use batch_script::{Phase, ProcLine, Script};
use key_meta::Memory;
use std::alloc::Global;

/// The numbers of all sessions that have a step or a key in `proc`, ascending. A script's handles go with them.
pub fn sessions_of(alloc: Global, script: &Script) -> Result<Vec<u32>, Memory>
    ensures { IfOk result (λ numbers. numbers.items ≡ sessions_of script.now) }
{
    (1..33)
        .filter(|number| has_session(script, *number))
        .collect(alloc)
}

fn has_session(script: &Script, number: u32) -> bool
    ensures { result ≡ has_session script.now number }
{
    has_key(script.proc.as_slice(), number) || has_step(script.phases.as_slice(), number)
}

/// A session has a key in `proc`.
fn has_key(lines: &[ProcLine], number: u32) -> bool
    ensures { result ≡ list_any (λ (line : ProcLine). nat_eq line.session number) lines.now }
{
    lines.iter().any(|line| line.session == number)
}

/// A session has a step.
fn has_step(phases: &[Phase], number: u32) -> bool
    ensures { result
        ≡ list_any (λ (phase : Phase). list_any (λ (steps : Steps). nat_eq steps.session number) phase.sessions) phases.now }
{
    phases.iter().any(|phase| is_named(phase, number))
}

/// A phase names a session.
fn is_named(phase: &Phase, number: u32) -> bool
    ensures { result ≡ list_any (λ (steps : Steps). nat_eq steps.session number) phase.now.sessions }
{
    phase
        .sessions
        .as_slice()
        .iter()
        .any(|steps| steps.session == number)
}
