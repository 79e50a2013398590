// Prints the verdict on the sheet that standard input holds.
#![tactic(auto)]

use sheet::MOST_BYTES;
use std::io::Read;
use verdict::judge_sheet;

fn run(rt: &HostRuntime) -> anyhow::Result<()> {
    let mut sheet = Vec::new(rt.alloc());
    rt.stdin()
        .take(MOST_BYTES as u64 + 1)
        .read_to_end(&mut sheet)?;
    rt.println(judge_sheet(sheet.as_slice()))?;
    Ok(())
}

fn main(rt: HostRuntime) -> anyhow::Result<()> {
    run(&rt)
}
