// Puts a file of call and row records, read from standard input, into words: a line a record.
#![tactic(auto)]

mod file;
mod found;

use crate::file::records;
use std::io::Read;

fn run(rt: &HostRuntime) -> anyhow::Result<()> {
    let mut bytes = Vec::new(rt.alloc());
    rt.stdin().read_to_end(&mut bytes)?;
    let all = records(rt.alloc(), bytes.as_slice())?;
    for (place, found) in all.iter().enumerate() {
        match found {
            Ok(record) => println!(rt; "{place}: {record}")?,
            Err(fault) => println!(rt; "{place}: {fault}")?,
        }
    }
    Ok(())
}

fn main(rt: HostRuntime) -> anyhow::Result<()> {
    run(&rt)
}
