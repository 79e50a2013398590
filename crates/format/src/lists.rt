ghost use Rattle.std.specs.Prelude.{◌≡◌, ℕ, min, Bool, List, IfOk, OnErr};
ghost use Rattle.format.specs.Formats.{Reading, ReadsBy, list_at};
ghost use Rattle.format.specs.declared.fault.FieldFault.{FieldFault};

use crate::fault::FieldFault;
use bits::Reader;
use fixed::FixedList;

// What reads one element of a list. Where it refuses, the reader stays as it was.
pub trait Element {
    type Value: Copy;

    ghost reading: { Self → List Bool → ℕ → Reading FieldFault Self.Value };

    fn read(&self, reader: &mut Reader<'_>) -> Result<Self::Value, FieldFault>
        ensures reads { ReadsBy (reading self.now) reader.old result reader.new }
        ensures stays { OnErr result (reader.new ≡ reader.old) };
}

fn elements<E: Element, const N: usize>(
    reader: &mut Reader<'_>,
    element: &E,
    count: u64,
    blank: E::Value,
) -> Result<FixedList<E::Value, N>, FieldFault>
    ensures reads { ReadsBy (list_at N blank (min count N) (E.reading element.now)) reader.old result reader.new }
    ensures all { IfOk result (λ read. read.count ≡ min count N) }
{
    let count = count.min(N as u64);
    let mut places = [blank; N];
    for place in &mut places[..count as usize] {
        *place = element.read(reader)?;
    }
    Ok(FixedList { count, places })
}

// So many elements, at most N, with blanks behind them. Where one is refused the reader stays as it was.
pub fn list<E: Element, const N: usize>(
    reader: &mut Reader<'_>,
    element: &E,
    count: u64,
    blank: E::Value,
) -> Result<FixedList<E::Value, N>, FieldFault>
    ensures reads { ReadsBy (list_at N blank (min count N) (E.reading element.now)) reader.old result reader.new }
    ensures all { IfOk result (λ read. read.count ≡ min count N) }
    ensures stays { OnErr result (reader.new ≡ reader.old) }
{
    let mut ahead = *reader;
    let list = elements(&mut ahead, element, count, blank)?;
    *reader = ahead;
    Ok(list)
}
