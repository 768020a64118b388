//! The program `kdb`: the tool over the files of the folder `.kdb`, and the real input and output.
#![tactic(auto)]

use std::process::ExitCode;

fn main(rt: HostRuntime) -> ExitCode {
    kdb_process::start(rt, &rt)
}
