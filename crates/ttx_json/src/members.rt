//! The members of an object.

ghost use Rattle.std.specs.Prelude.{◌≡◌};
ghost use Rattle.ttx_json.specs.Members.{member_of};
ghost use Rattle.ttx_json.specs.Objects as json;

/// A name and its value.
#[derive(Clone, Copy)]
pub enum Member<'a> {
    Text { name: &'a str, value: &'a str },
    Number { name: &'a str, value: u64 },
    Truth { name: &'a str, value: bool },
}

/// A member whose value is a text.
pub fn word<'a>(name: &'a str, value: &'a str) -> Member<'a>
    ensures { member_of result ≡ json.word name.now value.now }
{
    Member::Text { name, value }
}

/// A member whose value is a number.
pub fn count<'a>(name: &'a str, value: u64) -> Member<'a>
    ensures { member_of result ≡ json.count name.now value }
{
    Member::Number { name, value }
}

/// A member whose value is true or false.
pub fn flag<'a>(name: &'a str, value: bool) -> Member<'a>
    ensures { member_of result ≡ json.flag name.now value }
{
    Member::Truth { name, value }
}
