// What a refusal says: its number, the side that it is about, and two numbers, p and q, that name the place.
#![tactic(auto)]

ghost use Rattle.std.specs.Prelude.{◌≡◌, Some};
ghost use Rattle.refusal.specs.Sides.{NamedBy, other, side_number, side_word};

mod checking;
mod refused;

pub use checking::check;
pub use refused::Refused;
use std::fmt;
use std::str::FromStr;

// One of the two houses that an agreement joins.
#[derive(Clone, Copy, PartialEq, Eq, Debug)]
pub enum Side {
    Near = 0,
    Far = 1,
}

impl Side {
    pub fn word(self) -> &'static str
        ensures { result.now ≡ side_word self }
    {
        match self {
            Side::Near => "near",
            Side::Far => "far",
        }
    }

    // The other side.
    pub fn other(self) -> Side
        ensures { result ≡ other self }
    {
        match self {
            Side::Near => Side::Far,
            Side::Far => Side::Near,
        }
    }
}

impl fmt::Display for Side {
    ghost output = { λ v. Some (side_word v) };

    fn fmt<W: fmt::Write>(&self, f: &mut fmt::Formatter<W>) -> fmt::Result {
        f.write_str(self.word())
    }
}

// A word that names neither side.
#[derive(Clone, Copy, PartialEq, Eq, Debug)]
pub struct UnknownSide;

impl FromStr for Side {
    type Err = UnknownSide;

    ghost from_str_gives = { NamedBy };

    fn from_str(word: &str) -> Result<Side, UnknownSide> {
        match word {
            "near" => Ok(Side::Near),
            "far" => Ok(Side::Far),
            _ => Err(UnknownSide),
        }
    }
}

// A refusal as the rules number it. It has no side where it is about neither house, or about one that stands alone.
// The first number is wide, since it may be a bit of bytes of any length.
// An enum in place of the number is no plainer: each number would stand beside its name once more, and the faults are the kinds.
#[derive(Clone, Copy, PartialEq, Eq, Debug)]
pub struct Refusal {
    pub number: u8,
    pub side: Option<Side>,
    pub p: u128,
    pub q: u64,
}

impl Refusal {
    // The side as a number: 0 near, 1 far, 2 neither.
    pub fn side_number(&self) -> u8
        ensures { result ≡ side_number self.now.side }
    {
        self.side.map_or(2, |side| side as u8)
    }
}
