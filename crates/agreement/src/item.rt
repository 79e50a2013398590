ghost use Rattle.std.specs.Prelude.{◌≡◌, Some, codes};
ghost use Rattle.agreement.specs.Roles.{role_number, role_word, Reads};

use std::fmt;

// What an item is for: a working item of its house, or one that takes values from, or gives them to, the other house.
#[derive(Clone, Copy, PartialEq, Eq, Debug)]
pub enum Role {
    Working = 0,
    Import = 1,
    Export = 2,
}

// A number that stands for no role.
#[derive(Clone, Copy, PartialEq, Eq, Debug)]
pub struct UnknownRole(pub u64);

impl TryFrom<u64> for Role {
    type Error = UnknownRole;

    ghost try_from_gives = { Reads };

    fn try_from(number: u64) -> Result<Role, UnknownRole> {
        match number {
            0 => Ok(Role::Working),
            1 => Ok(Role::Import),
            2 => Ok(Role::Export),
            _ => Err(UnknownRole(number)),
        }
    }
}

impl From<Role> for u64 {
    ghost from_gives = { λ role number. number ≡ role_number (Some role) };

    fn from(role: Role) -> u64 {
        role as u64
    }
}

impl Role {
    pub fn word(self) -> &'static str
        ensures { result.now ≡ role_word self }
    {
        match self {
            Role::Working => "working",
            Role::Import => "import",
            Role::Export => "export",
        }
    }
}

impl fmt::Display for Role {
    ghost output = { λ role. Some (role_word role) };

    fn fmt<W: fmt::Write>(&self, f: &mut fmt::Formatter<W>) -> fmt::Result {
        f.write_str(self.word())
    }
}

impl fmt::Display for UnknownRole {
    ghost output = { λ _. Some (codes "unknown") };

    fn fmt<W: fmt::Write>(&self, f: &mut fmt::Formatter<W>) -> fmt::Result {
        f.write_str("unknown")
    }
}

// The number of the role that is needed, 3 where any will do.
pub fn role_number(role: Option<Role>) -> u64
    ensures { result ≡ role_number role }
{
    role.map_or(3, u64::from)
}

// An item as it is handed in: any two numbers, of which the rules say whether they are a role and a label.
#[derive(Clone, Copy)]
pub struct Item {
    pub role: u64,
    pub label: u64,
}
