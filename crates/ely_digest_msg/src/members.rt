//! Lists of members (RFC 7235 section 2.1), read from left to right.

ghost use Rattle.std.specs.Prelude.{◌≡◌, ◌≤◌, ◌<◌, length, IfOk};
ghost use Rattle.ely_digest_msg.specs.Members.{first_time, kept, member_of, list_of};

use crate::fault::{DigestFault, DigestField};
use crate::parts::{after_gap, read_end, read_equals, read_token, read_value};
use crate::quoted::Quoted;
use crate::rest::Rest;
use crate::table::{Table, known};

/// The field of a name, refused where it was given before.
fn first_time(
    table: &Table<'_>,
    field: Option<DigestField>,
) -> Result<Option<DigestField>, DigestFault>
    ensures { result ≡ first_time table.now field }
{
    match field {
        None => Ok(None),
        Some(field) => {
            if table.has(field) {
                Err(DigestFault::Repeat(field))
            } else {
                Ok(Some(field))
            }
        }
    }
}

/// The values with that of a known name; the value of another name is let go.
fn kept<'a>(field: Option<DigestField>, value: Quoted<'a>, table: Table<'a>) -> Table<'a>
    ensures { result ≡ kept field value.entry table.entry }
{
    match field {
        None => table,
        Some(field) => table.with(field, value),
    }
}

/// Reads one member: the values with its own, and what follows it.
fn read_member<'a>(
    size: usize,
    table: Table<'a>,
    text: &'a [u8],
) -> Result<(Table<'a>, Rest<'a>), DigestFault>
    requires { length text.now ≤ size }
    ensures value { result ≡ member_of size table.entry text.now }
    ensures shorter { IfOk result (λ m. length m.1 < length text.now) }
{
    let (name, rest) = read_token(size, text)?;
    let field = first_time(&table, known(name.bytes()))?;
    let equals = read_equals(size, rest.bytes())?;
    let (value, rest) = read_value(size, equals.bytes())?;
    let rest = read_end(size, rest.bytes())?;
    Ok((kept(field, value, table), rest))
}

/// Reads a list of members, from left to right, to the values of the known names or the first fault.
pub(crate) fn read_list<'a>(size: usize, text: &'a [u8]) -> Result<Table<'a>, DigestFault>
    requires { length text.now ≤ size }
    ensures { result ≡ list_of size text.now }
{
    let mut table = Table::new();
    let mut rest = text;
    loop {
        let list = after_gap(rest);
        if list.len() == 0 {
            return Ok(table);
        }
        let (next, left) = read_member(size, table, list)?;
        table = next;
        rest = left.bytes();
    }
}
