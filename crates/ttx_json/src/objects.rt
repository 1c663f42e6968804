//! The line of an object.

ghost use Rattle.std.specs.Prelude.{◌≡◌, ◌++◌, ◌∷◌, [], OnOk, IfOk, string_bytes, map, true};
ghost use Rattle.json.specs.Print.{quoted};
ghost use Rattle.serde_json.specs.Written.{compact_text, members_text};
ghost use Rattle.ttx_json.specs.Members.{member_of};
ghost use Rattle.ttx_json.specs.Objects.{object_line, value_of, members_of};

use crate::members::Member;
use serde_json::Value;
use std::alloc::{AllocError, Global};

// Adds a text in quotation marks, with the escapes of JSON.
fn push_text(alloc: Global, line: &mut String, text: &str) -> Result<(), AllocError>
    ensures { OnOk result (string_bytes line.new ≡ string_bytes line.old ++ quoted text.now) }
{
    let quoted = Value::try_from_str(alloc, text)?.to_string(alloc)?;
    line.push_str(quoted.as_str())
}

// Adds a name and its colon.
fn push_name(alloc: Global, line: &mut String, name: &str) -> Result<(), AllocError>
    ensures { OnOk result (string_bytes line.new ≡ string_bytes line.old ++ (quoted name.now ++ 58 ∷ [])) }
{
    push_text(alloc, line, name)?;
    line.push(':')
}

// Adds a member without the comma before it.
fn push_member(alloc: Global, line: &mut String, member: &Member) -> Result<(), AllocError>
    ensures { OnOk result (string_bytes line.new ≡ string_bytes line.old
        ++ (quoted (member_of member.now).name ++ 58 ∷ compact_text (value_of (member_of member.now).value))) }
{
    match member {
        Member::Text { name, value } => {
            push_name(alloc, line, name)?;
            push_text(alloc, line, value)
        }
        Member::Number { name, value } => {
            push_name(alloc, line, name)?;
            write!(line, "{value}")
        }
        Member::Truth { name, value } => {
            push_name(alloc, line, name)?;
            line.push_str(if *value { "true" } else { "false" })
        }
    }
}

/// Adds the line of an object with these members, in this order. It ends with the byte 0A.
pub fn push_object(alloc: Global, line: &mut String, members: &[Member]) -> Result<(), AllocError>
    ensures { OnOk result (string_bytes line.new ≡ string_bytes line.old ++ object_line (map member_of members.now)) }
{
    line.push('{')?;
    for i in 0..members.len() {
        if i > 0 {
            line.push(',')?;
        }
        push_member(alloc, line, &members[i])?;
    }
    line.push_str("}\n")
}

/// The line of an object with these members, in this order. It ends with the byte 0A.
pub fn object_line(alloc: Global, members: &[Member]) -> Result<String, AllocError>
    ensures { IfOk result (λ line. string_bytes line ≡ object_line (map member_of members.now)) }
{
    let mut line = String::new(alloc);
    push_object(alloc, &mut line, members)?;
    Ok(line)
}
