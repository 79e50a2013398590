ghost use Rattle.std.specs.Prelude.{◌^◌, ◌<◌, ◌≤◌, IfOk};
ghost use Rattle.format.specs.Formats.{field as limited_field, turned as turned_field, Takes};

use crate::fault::FieldFault;
use bits::Reader;

// Reads a field, of which the last 64 bits count, and stands behind it.
// A value outside the limits is refused, and the reader stays as it was.
pub fn field(reader: &mut Reader<'_>, width: u64, least: u64, most: u64) -> Result<u64, FieldFault>
    ensures takes { Takes (limited_field width least most) reader.old result reader.new }
    ensures limits { IfOk result (λ v. (v < 2 ^ width) × (least ≤ v) × (v ≤ most)) }
{
    let mut ahead = *reader;
    let value = ahead.read(width)?;
    if value < least || value > most {
        return Err(FieldFault::NotAllowed {
            at: reader.at(),
            value,
        });
    }
    *reader = ahead;
    Ok(value)
}

// Reads a field whose first bit is worth 1, the next 2, and so on. Of a wider field the last 64 bits count.
pub fn turned(reader: &mut Reader<'_>, width: u64) -> Result<u64, FieldFault>
    ensures takes { Takes (turned_field width) reader.old result reader.new }
    ensures limits { IfOk result (λ v. v < 2 ^ width) }
{
    let value = reader.read(width)?;
    if width == 0 {
        return Ok(0);
    }
    Ok(value.reverse_bits() >> (64 - width.min(64)))
}
