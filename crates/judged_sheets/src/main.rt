// Sheets in hexadecimal, one to a line of standard input, with the verdict of each. A dash is an empty sheet.
#![tactic(auto)]

use std::alloc::Global;
use verdict::judge_sheet;

fn spelled(heap: Global, line: &str) -> anyhow::Result<Vec<u8>> {
    if line == "-" {
        return Ok(Vec::new(heap));
    }
    Ok(hex::decode(heap, line)?)
}

fn run(rt: &HostRuntime) -> anyhow::Result<()> {
    for line in rt.lines(rt.alloc()) {
        let bytes = spelled(rt.alloc(), line?.as_str())?;
        rt.println(judge_sheet(bytes.as_slice()))?;
    }
    Ok(())
}

fn main(rt: HostRuntime) -> anyhow::Result<()> {
    run(&rt)
}
