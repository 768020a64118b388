//! Reads files of cases of the store, and prints each line of them with what came of it.
#![tactic(auto)]

mod answers;
mod asking;
mod cases;
mod commits;
mod fronts;
mod left;
mod showing;
mod spelling;
mod starts;
mod steps;
mod stores;

use cases::Cases;
use std::{env, fs, io};

fn main(rt: HostRuntime) -> io::Result<()> {
    for path in env::args(&rt)?.skip(1) {
        let text = fs::read_to_string(&rt, path.as_str())?;
        let mut cases = Cases::new(rt.alloc());
        for line in text.lines() {
            let answer = cases.answer_to(line)?;
            println!(rt; "{line}")?;
            print!(rt; "{answer}")?;
        }
    }
    Ok(())
}
