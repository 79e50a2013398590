ghost use Rattle.std.specs.Prelude.{◌≡◌, ◌-◌, ◌*◌, ◌^◌, ◌<◌, ◌≤◌, length, IfOk, Ok, Err, MatchResult, OnErr};
ghost use Rattle.bits.specs.Bits.{all_bits, field_read, number, piece};

// A field that needs more bits than remain, by its first bit.
#[derive(Clone, Copy, Debug)]
pub struct Lacking {
    pub at: u128,
}

// Bytes, and the bit of them that is read next.
#[derive(Clone, Copy)]
pub struct Reader<'a> {
    bytes: &'a [u8],
    at: u128,
}

// The number that bytes spell.
fn spelled(bytes: &[u8]) -> u128
    requires { length bytes.now ≤ 16 }
    ensures { result ≡ number (all_bits bytes.now) }
{
    let mut value = 0;
    for byte in bytes {
        value = value << 8 | u128::from(*byte);
    }
    value
}

// The number that the bits before one spell, as many as the width says.
fn spelled_before(bytes: &[u8], end: u128, width: u64) -> u64
    requires { (width ≤ 64) × ((width ≤ end) × (end ≤ 8 * length bytes.now)) }
    ensures { result ≡ number (piece (all_bits bytes.now) (end - width) width) }
{
    let first = (end - u128::from(width)) / 8;
    let last = end.div_ceil(8);
    let whole = spelled(&bytes[first as usize..last as usize]);
    ((whole >> (last * 8 - end)) % (1 << width)) as u64
}

impl<'a> Reader<'a> {
    // A reader that stands at any bit, also past the end.
    pub fn new(bytes: &'a [u8], at: u128) -> Reader<'a>
        ensures bytes { result.bytes.now ≡ bytes.now }
        ensures at { result.at ≡ at }
    {
        Reader { bytes, at }
    }

    // The bit that is read next.
    pub fn at(&self) -> u128
        ensures { result ≡ self.now.at }
    {
        self.at
    }

    // Reads a field, of which the last 64 bits count, and stands behind it.
    // A field that needs more bits than remain is refused, and the reader stays as it was.
    pub fn read(&mut self, width: u64) -> Result<u64, Lacking>
        ensures field { MatchResult result (λ v. field_read self.old.bytes.now self.old.at width ≡ Ok (v, self.new.at)) (λ e. field_read self.old.bytes.now self.old.at width ≡ Err e) }
        ensures bytes { self.new.bytes ≡ self.old.bytes }
        ensures below { IfOk result (λ v. v < 2 ^ width) }
        ensures stays { OnErr result (self.new ≡ self.old) }
    {
        let bits = u128::from(width);
        if bits > (self.bytes.len() as u128 * 8).saturating_sub(self.at) {
            return Err(Lacking { at: self.at });
        }
        let end = self.at + bits;
        let value = if width == 0 {
            0
        } else {
            spelled_before(self.bytes, end, width.min(64))
        };
        self.at = end;
        Ok(value)
    }
}
