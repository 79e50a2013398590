// Lists the items that somebody cleared for a label may come to depend on, of the agreement in a sheet.
#![tactic(auto)]

mod input;
mod listing;
mod words;

use input::read_bounded;
use listing::{every_view, one_view};
use refusal::Refused;
use verdict::{Opened, open_sheet};
use words::{Question, asked_question};

fn answer(rt: &HostRuntime, asked: Question, opened: &Opened) -> anyhow::Result<()> {
    match asked {
        Question::Every => every_view(rt, opened),
        Question::One { side, label } => one_view(rt, opened, side, label),
    }
}

fn run(rt: &HostRuntime) -> anyhow::Result<()> {
    let asked = asked_question(rt)?;
    let bytes = read_bounded(rt)?;
    match open_sheet(bytes.as_slice()) {
        Ok(opened) => answer(rt, asked, &opened),
        Err(fault) => {
            rt.println(Refused::from(fault))?;
            Ok(())
        }
    }
}

fn main(rt: HostRuntime) -> anyhow::Result<()> {
    run(&rt)
}
