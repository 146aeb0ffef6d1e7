//! The two roles of a transaction.

ghost use Rattle.std.specs.Prelude.{◌≡◌, Some};
ghost use Rattle.std.specs.Result.{result_ok};
ghost use Rattle.std.specs.Fmt.{padded};
ghost use Rattle.ill_record.specs.Roles.{role_name, role_named};
ghost use Rattle.ill_record.specs.Side.{other};

use ill_values::UnknownName;
use std::fmt;
use std::str::FromStr;

/// The role of a library in a transaction: one of its two sides, as in ISO 10160. It is displayed by its name, as
/// `requester`.
#[derive(Clone, Copy, Debug, PartialEq, Eq, Hash)]
pub enum Role {
    /// The side that asks for an item.
    Requester,
    /// The side that is asked for the item.
    Responder,
}

impl Role {
    /// Returns the role of the other side.
    pub fn other(self) -> Role
        ensures { result ≡ other self }
    {
        match self {
            Role::Requester => Role::Responder,
            Role::Responder => Role::Requester,
        }
    }

    /// Returns the name of the role: `requester` or `responder`.
    pub fn name(self) -> &'static str
        ensures { result.now ≡ role_name self }
    {
        match self {
            Role::Requester => "requester",
            Role::Responder => "responder",
        }
    }

    /// Returns the role with the name `text`, or `None`.
    pub fn read(text: &[u8]) -> Option<Role>
        ensures { result ≡ role_named text.now }
    {
        [Role::Requester, Role::Responder]
            .iter()
            .copied()
            .find(|role| role.name().as_bytes() == text)
    }
}

/// Reads the name of a role, as `Role::read` does.
impl FromStr for Role {
    type Err = UnknownName;

    ghost from_str_gives = { λ text result. result_ok result ≡ role_named text };

    fn from_str(text: &str) -> Result<Role, UnknownName> {
        Role::read(text.as_bytes()).ok_or(UnknownName)
    }
}

/// Displays a role by its name, padded as the format asks.
impl fmt::Display for Role {
    ghost output = { λ role. Some (role_name role) };

    ghost styled_output = { λ role spec. Some (padded spec (role_name role)) };

    fn fmt<W: fmt::Write>(&self, f: &mut fmt::Formatter<W>) -> fmt::Result {
        f.pad(self.name())
    }
}
