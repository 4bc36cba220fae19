//! Names joined with a text before them or behind them.

ghost use Rattle.std.specs.Prelude.{◌≡◌, ◌++◌, Some, None, if◌then◌else◌, IfOk};
ghost use Rattle.ely_roles.specs.Mappers.{is_short, with_prefix, with_suffix};

use ely_base::{Name, NoMemory};
use ely_row::Roles;
use std::alloc::Global;

/// The most bytes of a name.
const MOST_BYTES: usize = 255;

/// The two names as one, if that is no longer than a name may be.
fn as_one(alloc: Global, front: &Name, back: &Name) -> Result<Option<Name>, NoMemory>
    ensures { IfOk result (λ name. name
        ≡ (if is_short (front.now ++ back.now) then Some (front.now ++ back.now) else None)) }
{
    let front = front.bytes();
    let back = back.bytes();
    let len = front.len() + back.len();
    if len > MOST_BYTES {
        return Ok(None);
    }
    let mut list = Vec::with_capacity(alloc, len)?;
    list.extend_from_slice(front)?;
    list.extend_from_slice(back)?;
    Ok(Some(Name::of(list)))
}

/// Each role with the text before it. A role that would be too long is left out.
pub fn with_prefix(alloc: Global, text: &Name, roles: &Roles) -> Result<Roles, NoMemory>
    ensures { IfOk result (λ after. after ≡ with_prefix text.now roles.now) }
{
    let mut names = Vec::new(alloc);
    for role in roles.all() {
        if let Some(name) = as_one(alloc, text, role)? {
            names.push(name)?;
        }
    }
    Ok(Roles::of(names))
}

/// Each role with the text behind it. A role that would be too long is left out.
pub fn with_suffix(alloc: Global, text: &Name, roles: &Roles) -> Result<Roles, NoMemory>
    ensures { IfOk result (λ after. after ≡ with_suffix text.now roles.now) }
{
    let mut names = Vec::new(alloc);
    for role in roles.all() {
        if let Some(name) = as_one(alloc, role, text)? {
            names.push(name)?;
        }
    }
    Ok(Roles::of(names))
}
