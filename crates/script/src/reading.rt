ghost use Rattle.std.specs.Prelude.{◌≡◌, ◌≤◌, IfOk, OnErr, OnOk};
ghost use Rattle.bits.specs.Bits.{all_bits};
ghost use Rattle.format.specs.Formats.{Reads, Takes, field as count_field, inside, read};
ghost use Rattle.script.specs.Scripts.{item_field, assignment as assignment_format, assignments as assignments_format, line as line_format, on_line, Passes, PassesLines, OnlyTheseBits};
ghost use Rattle.script.specs.Kinds.{ReadsKind};

use crate::fault::ScriptFault;
use crate::line::{Assignment, Line};
use crate::operation::Operation;
use bits::Reader;
use fixed::FixedList;
use format::{Element, FieldFault, field, list};
use refusal::Side;

// 7 bits: the number of an item.
fn item(reader: &mut Reader<'_>) -> Result<u64, FieldFault>
    ensures { Reads item_field reader.old result reader.new }
{
    field(reader, 7, 0, 127)
}

// 3 bits operation, 7 bits target, and a constant or one or two operands.
#[tactic(auto, unfolding(crate::specs::Scripts::assignment))]
fn assignment(reader: &mut Reader<'_>) -> Result<Assignment, FieldFault>
    ensures { Reads assignment_format reader.old result reader.new }
{
    let operation = field(reader, 3, 0, 5)?;
    let target = item(reader)?;
    let begun = Assignment {
        operation,
        target,
        ..Assignment::BLANK
    };
    match Operation::try_from(operation) {
        Ok(Operation::Put) => Ok(Assignment {
            constant: field(reader, 64, 0, u64::MAX)?,
            ..begun
        }),
        Ok(Operation::Copy) => Ok(Assignment {
            left: item(reader)?,
            ..begun
        }),
        Ok(Operation::Sum | Operation::Difference | Operation::Smaller | Operation::Larger) => {
            Ok(Assignment {
                left: item(reader)?,
                right: item(reader)?,
                ..begun
            })
        }
        Err(_) => unreachable!(),
    }
}

// An assignment of a compute.
struct AssignmentField;

impl Element for AssignmentField {
    type Value = Assignment;

    ghost reading = { λ _. read assignment_format };

    fn read(&self, reader: &mut Reader<'_>) -> Result<Assignment, FieldFault> {
        let mut ahead = *reader;
        let assignment = assignment(&mut ahead)?;
        *reader = ahead;
        Ok(assignment)
    }
}

// 4 bits count, then the assignments.
#[tactic(auto, unfolding(crate::specs::Scripts::assignments))]
fn assignments(reader: &mut Reader<'_>) -> Result<FixedList<Assignment, 8>, FieldFault>
    ensures { Reads assignments_format reader.old result reader.new }
{
    let count = field(reader, 4, 0, 8)?;
    list(reader, &AssignmentField, count, Assignment::BLANK)
}

// What a line does, and in which house.
#[derive(Clone, Copy)]
enum LineKind {
    Compute(Side),
    Fetch(Side),
    Store(Side),
    Outward,
    Inward,
}

// 3 bits: the kind of a line.
fn kind(reader: &mut Reader<'_>) -> Result<LineKind, FieldFault>
    ensures { ReadsKind reader.old result reader.new }
{
    Ok(match field(reader, 3, 0, 7)? {
        0 => LineKind::Compute(Side::Near),
        1 => LineKind::Compute(Side::Far),
        2 => LineKind::Fetch(Side::Near),
        3 => LineKind::Fetch(Side::Far),
        4 => LineKind::Store(Side::Near),
        5 => LineKind::Store(Side::Far),
        6 => LineKind::Outward,
        7 => LineKind::Inward,
        _ => unreachable!(),
    })
}

// The kind; then the assignments of a compute, or a target and a source.
#[tactic(auto, unfolding(crate::specs::Scripts::line))]
fn line(reader: &mut Reader<'_>) -> Result<Line, FieldFault>
    ensures { Reads line_format reader.old result reader.new }
{
    Ok(match kind(reader)? {
        LineKind::Compute(side) => Line::Compute {
            side,
            assignments: assignments(reader)?,
        },
        LineKind::Fetch(side) => Line::Fetch {
            side,
            target: item(reader)?,
            source: item(reader)?,
        },
        LineKind::Store(side) => Line::Store {
            side,
            target: item(reader)?,
            source: item(reader)?,
        },
        LineKind::Outward => Line::Outward {
            target: item(reader)?,
            source: item(reader)?,
        },
        LineKind::Inward => Line::Inward {
            target: item(reader)?,
            source: item(reader)?,
        },
    })
}

// The next line, whose fault is told its number. A line that cannot be read leaves the reader where it was.
pub fn numbered_line(reader: &mut Reader<'_>, number: u64) -> Result<Line, ScriptFault>
    ensures { Takes (inside (on_line number) line_format) reader.old result reader.new }
{
    read_line(reader).map_err(|fault| ScriptFault {
        line: number,
        fault,
    })
}

// 8 bits: how many lines there are. Where they lack the reader stays where it was.
pub fn line_count(reader: &mut Reader<'_>) -> Result<u64, ScriptFault>
    ensures takes { Takes (inside (on_line 0) (count_field 8 0 255)) reader.old result reader.new }
    ensures limit { IfOk result (λ n. n ≤ 255) }
{
    field(reader, 8, 0, 255).map_err(|fault| ScriptFault { line: 0, fault })
}

// So many lines, one at a time.
fn lines(reader: &mut Reader<'_>, count: u64) -> Result<(), ScriptFault>
    requires { count ≤ 255 }
    ensures { PassesLines count reader.old result reader.new }
{
    for number in 1..=count {
        numbered_line(reader, number)?;
    }
    Ok(())
}

// 8 bits count, then the lines.
fn script(reader: &mut Reader<'_>) -> Result<u64, ScriptFault>
    ensures { Passes reader.old result reader.new }
{
    let count = line_count(reader)?;
    lines(reader, count)?;
    Ok(count)
}

// The next line. A line that cannot be read leaves the reader where it was.
pub fn read_line(reader: &mut Reader<'_>) -> Result<Line, FieldFault>
    ensures { Takes line_format reader.old result reader.new }
{
    let mut ahead = *reader;
    let line = line(&mut ahead)?;
    *reader = ahead;
    Ok(line)
}

// Goes through all lines of a script, and answers how many there are. A script that cannot be read leaves the reader
// where it was.
#[tactic(auto, using(crate::proofs::Passing::only_these_bits))]
pub fn read_script(reader: &mut Reader<'_>) -> Result<u64, ScriptFault>
    ensures passes { Passes reader.old result reader.new }
    ensures stays { OnErr result (reader.new ≡ reader.old) }
    ensures only { OnOk result (OnlyTheseBits (all_bits reader.old.bytes.now) reader.old.at reader.new.at) }
{
    let mut ahead = *reader;
    let count = script(&mut ahead)?;
    *reader = ahead;
    Ok(count)
}
