ghost use Rattle.std.specs.Prelude.{◌≡◌, true, [], is_ok};
ghost use Rattle.bits.specs.Bits.{all_bits};
ghost use Rattle.format.specs.Formats.{read};
ghost use Rattle.agreement.specs.Agreements.{joined};
ghost use Rattle.script.specs.Scripts.{script};
ghost use Rattle.machine.specs.Calls.{after, run, script_judged, script_writes};
ghost use Rattle.machine.specs.Places.{all_written};
ghost use Rattle.steps.specs.Folds.{JudgesLines, JudgesNext, LowestOf};

use crate::lines::{do_line, judge_line};
use crate::typing::{Lowest, lowered_by_line, type_label};
use agreement::Joined;
use bits::Reader;
use machine::{LineFault, RunFault, ScriptType, Values};
use order::{Bound, Lattice, bound_of_none};
use script::{Line, ScriptFault, line_count, numbered_line};

// What is known once some lines were judged: the bounds of the labels that they gave, or the first refusal.
type Judged = Result<Lowest, LineFault>;

// The judgement with one line more; after a refusal no line is looked at.
fn judge_next<N: Lattice, F: Lattice>(
    houses: &Joined<'_, N, F>,
    judged: Judged,
    number: u64,
    line: &Line,
) -> Judged
    ensures { JudgesNext (joined N.Order.meaning F.Order.meaning houses.now) judged number line.now result }
{
    let lowest = judged?;
    judge_line(houses, line).map_err(|fault| LineFault {
        line: number,
        fault,
    })?;
    Ok(lowered_by_line(houses, lowest, line))
}

// Before the first line no label was given.
fn none_judged<N: Lattice, F: Lattice>(houses: &Joined<'_, N, F>) -> Lowest
    ensures { LowestOf (joined N.Order.meaning F.Order.meaning houses.now) [] result }
{
    Lowest {
        near: Some(bound_of_none(houses.near, Bound::Meet)),
        far: Some(bound_of_none(houses.far, Bound::Meet)),
    }
}

// Reads all lines of a script, and judges each as it is read.
fn judge_lines<N: Lattice, F: Lattice>(
    houses: &Joined<'_, N, F>,
    bytes: &[u8],
    at: u128,
) -> Result<Judged, ScriptFault>
    ensures { JudgesLines (joined N.Order.meaning F.Order.meaning houses.now) bytes.now at result }
{
    let mut reader = Reader::new(bytes, at);
    let count = line_count(&mut reader)?;
    let mut judged = Ok(none_judged(houses));
    for number in 1..=count {
        let line = numbered_line(&mut reader, number)?;
        judged = judge_next(houses, judged, number, &line);
    }
    Ok(judged)
}

// Reads all lines of a script, and judges them in order: a field that cannot be read is refused before any line.
pub fn judge_script<N: Lattice, F: Lattice>(
    houses: &Joined<'_, N, F>,
    bytes: &[u8],
    at: u128,
) -> Result<ScriptType, RunFault>
    ensures { result ≡ script_judged (joined N.Order.meaning F.Order.meaning houses.now) bytes.now at }
{
    let lowest = judge_lines(houses, bytes, at)??;
    Ok(ScriptType {
        near: type_label(houses.near, lowest.near),
        far: type_label(houses.far, lowest.far),
    })
}

// Does every line of a script that can be read.
fn do_script(values: &mut Values, bytes: &[u8], at: u128)
    requires { is_ok (read script (all_bits bytes.now) at) ≡ true }
    ensures { values.new ≡ all_written values.old (script_writes bytes.now at) }
{
    let mut reader = Reader::new(bytes, at);
    let Ok(count) = line_count(&mut reader) else {
        return;
    };
    for number in 1..=count {
        let Ok(line) = numbered_line(&mut reader, number) else {
            return;
        };
        do_line(values, &line);
    }
}

// Judges a script, then does every line of it, or does nothing.
pub fn run_script<N: Lattice, F: Lattice>(
    houses: &Joined<'_, N, F>,
    values: &mut Values,
    bytes: &[u8],
    at: u128,
) -> Result<ScriptType, RunFault>
    ensures answer { result ≡ script_judged (joined N.Order.meaning F.Order.meaning houses.now) bytes.now at }
    ensures values { values.new ≡ after (joined N.Order.meaning F.Order.meaning houses.now) values.old (run bytes.now at) }
{
    let judged = judge_script(houses, bytes, at)?;
    do_script(values, bytes, at);
    Ok(judged)
}
