ghost use Rattle.std.specs.Prelude.{◌≡◌};
ghost use Rattle.bits.specs.Bits.{all_bits};
ghost use Rattle.sheet.specs.Reading.{only_padding, ReadsSheet, IsWritten, IsRead, Alone};

use crate::fault::SheetFault;
use crate::parts::Sheet;
use crate::reading::front;
use bits::Reader;
use script::read_script;

// The most bytes that a sheet has.
pub const MOST_BYTES: usize = 19_659;

// Whether fewer than 8 bits stand from a bit on, all zero.
fn only_padding(bytes: &[u8], at: u128) -> bool
    ensures { result ≡ only_padding (all_bits bytes.now) at }
{
    let rest = (bytes.len() as u128 * 8).saturating_sub(at);
    if rest >= 8 {
        return false;
    }
    Reader::new(bytes, at)
        .read(rest as u64)
        .is_ok_and(|value| value == 0)
}

// The parts of a sheet and where its script begins, once all of it was read.
fn whole(bytes: &[u8]) -> Result<Sheet, SheetFault>
    ensures { ReadsSheet bytes.now result }
{
    if bytes.len() > MOST_BYTES {
        return Err(SheetFault::TooLong);
    }
    let mut reader = Reader::new(bytes, 0);
    let parts = front(&mut reader)?;
    let script = reader.at();
    let lines = read_script(&mut reader)?;
    let at = reader.at();
    if !only_padding(bytes, at) {
        return Err(SheetFault::Trailing { at });
    }
    Ok(Sheet {
        parts,
        script,
        lines,
    })
}

// Reads a sheet: without a fault exactly if its bits are those of some parts and lines as the format writes them, with
// fewer than 8 zero bits behind them; and the parts read are those. No other bytes are the writing of the same.
pub fn read_sheet(bytes: &[u8]) -> Result<Sheet, SheetFault>
    ensures value { ReadsSheet bytes.now result }
    ensures written { IsWritten bytes.now result }
    ensures back { IsRead bytes.now result }
    ensures alone { Alone bytes.now }
{
    whole(bytes)
}
