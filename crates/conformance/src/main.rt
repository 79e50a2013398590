// Sheets in hexadecimal, one to a line of standard input, with the verdict of each: OPEN, or how it is refused.
#![tactic(auto)]

use refusal::Refused;
use sheet::open_sheet;
use std::alloc::{AllocError, Global};

// By hand, since the crate hex refuses a line for a sign that spells nothing here.
fn digit(byte: u8) -> Option<u8> {
    match byte {
        b'0'..=b'9' => Some(byte - b'0'),
        b'a'..=b'f' => Some(byte - b'a' + 10),
        _ => None,
    }
}

fn pair(two: &[u8]) -> Option<u8> {
    let [high, low] = two else {
        return None;
    };
    Some(digit(*high)? << 4 | digit(*low)?)
}

// The bytes that a line spells; what is no digit, as the dash of an empty sheet, spells nothing.
fn spelled(heap: Global, line: &[u8]) -> Result<Vec<u8>, AllocError> {
    line.chunks(2).filter_map(pair).collect(heap)
}

fn verdict(rt: &HostRuntime, bytes: &[u8]) -> anyhow::Result<()> {
    match open_sheet(bytes) {
        Ok(_) => println!(rt; "OPEN")?,
        Err(fault) => rt.println(Refused::from(fault))?,
    }
    Ok(())
}

fn run(rt: &HostRuntime) -> anyhow::Result<()> {
    for line in rt.lines(rt.alloc()) {
        let bytes = spelled(rt.alloc(), line?.as_bytes())?;
        verdict(rt, bytes.as_slice())?;
    }
    Ok(())
}

fn main(rt: HostRuntime) -> anyhow::Result<()> {
    run(&rt)
}
