//! Puts an answer on out and err. A fault of either turns the status into that of a fault.
ghost use Rattle.std.specs.Prelude.{◌≤◌, ◌≢◌, [], OnOk, OnErr};
ghost use Rattle.kdb_outside.specs.Faults.{HasRisen};
ghost use Rattle.kdb_outside.specs.SinkChange.{change_of};
ghost use Rattle.tool_single.specs.Outcome.{Delivers, Gains, GainsFront};
ghost use Rattle.tool_single.specs.Delivery.{Tells};
ghost use Rattle.tool_single.specs.Ending.{ending, stopped};

use crate::answers::Stop;
use kdb_outside::{Failed, Sink};
use tool_commands::{FAULT, OUT_OF_MEMORY, Report, Status};

/// Puts a line on err, where there is one, and ends with the status.
fn tell<E: Sink>(status: Status, line: &str, err: &mut E) -> Status
    ensures told { Tells status line.now result (change_of E.Sink err.old err.new) }
    ensures later { E.faults err.old ≤ E.faults err.new }
{
    if line.is_empty() {
        return status;
    }
    match err.put(line.as_bytes()) {
        Ok(()) => status,
        Err(_) => Status::new(FAULT),
    }
}

/// Puts bytes on out, where there are some.
fn put_out<K: Sink>(text: &[u8], out: &mut K) -> Result<(), Failed>
    ensures whole { OnOk result (Gains (K.held out.old) (K.held out.new) text.now) }
    ensures front { GainsFront (K.held out.old) (K.held out.new) text.now }
    ensures some { OnErr result (text.now ≢ []) }
    ensures cause { OnErr result (HasRisen (K.faults out.old) (K.faults out.new)) }
    ensures later { K.faults out.old ≤ K.faults out.new }
{
    if text.is_empty() {
        return Ok(());
    }
    out.put(text)
}

/// Puts the bytes of an answer on out and its text on err.
fn deliver<K: Sink, E: Sink>(
    status: Status,
    out_text: &[u8],
    err_text: &str,
    out: &mut K,
    err: &mut E,
) -> Status
    ensures delivered { Delivers (record { status = status; out = out_text.now; err = err_text.now }) result (change_of K.Sink out.old out.new) (change_of E.Sink err.old err.new) }
    ensures later_out { K.faults out.old ≤ K.faults out.new }
    ensures later_err { E.faults err.old ≤ E.faults err.new }
{
    match put_out(out_text, out) {
        Ok(()) => tell(status, err_text, err),
        Err(_) => tell(Status::new(FAULT), "kdb: C01100 write-fault\n", err),
    }
}

/// Ends a run with its answer, or with the line that tells why there is none.
pub fn finish<K: Sink, E: Sink>(answer: &Result<Report, Stop>, out: &mut K, err: &mut E) -> Status
    ensures finished { Delivers (ending answer.now) result (change_of K.Sink out.old out.new) (change_of E.Sink err.old err.new) }
    ensures later_out { K.faults out.old ≤ K.faults out.new }
    ensures later_err { E.faults err.old ≤ E.faults err.new }
{
    match answer {
        Ok(report) => deliver(
            report.status,
            report.out.as_slice(),
            report.err.as_str(),
            out,
            err,
        ),
        Err(stop) => give_up(*stop, out, err),
    }
}

/// Ends a run that has no answer. It takes no memory.
fn give_up<K: Sink, E: Sink>(stop: Stop, out: &mut K, err: &mut E) -> Status
    ensures finished { Delivers (stopped stop) result (change_of K.Sink out.old out.new) (change_of E.Sink err.old err.new) }
    ensures later_out { K.faults out.old ≤ K.faults out.new }
    ensures later_err { E.faults err.old ≤ E.faults err.new }
{
    match stop {
        Stop::Memory => deliver(
            Status::new(OUT_OF_MEMORY),
            b"",
            "kdb: C01110 out of memory\n",
            out,
            err,
        ),
        Stop::DiskFault => deliver(
            Status::new(FAULT),
            b"",
            "kdb: C01100 disk-fault\n",
            out,
            err,
        ),
        Stop::ReadFault => deliver(
            Status::new(FAULT),
            b"",
            "kdb: C01100 read-fault\n",
            out,
            err,
        ),
    }
}
