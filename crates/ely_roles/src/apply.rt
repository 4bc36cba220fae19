//! What a role mapper makes of a set of roles.

ghost use Rattle.std.specs.Prelude.{◌≡◌, map, unwrap_or, IfOk};
ghost use Rattle.std.specs.Option.{option_map};
ghost use Rattle.ely_roles.specs.Mappers.{in_turn, or_same, mapped_by};

use crate::joining::{with_prefix, with_suffix};
use crate::logical::joined;
use crate::mapped::mapped;
use crate::mapper::RoleMapper;
use ely_base::{NoMemory, copy_names};
use ely_row::Roles;
use sqlite_items::Boxed;
use std::alloc::Global;

/// The roles that were made, and those that were there where none were made.
fn made_or<'a>(made: &'a Option<Roles>, roles: &'a Roles) -> &'a Roles
    ensures { result.now ≡ unwrap_or made.now roles.now }
{
    match made {
        Some(made) => made,
        None => roles,
    }
}

/// What the mapper makes of the roles, and nothing without a mapper, which leaves them as they are.
#[cycle(mappers)]
fn side(
    alloc: Global,
    side: &Option<Boxed<RoleMapper>>,
    roles: &Roles,
) -> Result<Option<Roles>, NoMemory>
    ensures { IfOk result (λ made.
        unwrap_or made roles.now ≡ or_same (option_map mapped_by side.now) roles.now) }
{
    match side {
        None => Ok(None),
        Some(mapper) => Ok(Some(mapped_by(alloc, mapper.get(), roles)?)),
    }
}

/// What the mappers make of the roles, one after the other.
#[cycle(mappers)]
fn in_turn(alloc: Global, mappers: &[RoleMapper], roles: &Roles) -> Result<Roles, NoMemory>
    ensures { IfOk result (λ after. after ≡ in_turn (map mapped_by mappers.now) roles.now) }
{
    let mut made = None;
    for mapper in mappers {
        made = Some(mapped_by(alloc, mapper, made_or(&made, roles))?);
    }
    match made {
        Some(made) => Ok(made),
        None => Ok(roles.copy(alloc)?),
    }
}

/// What the mapper makes of a set of roles.
#[cycle(mappers)]
pub fn mapped_by(alloc: Global, mapper: &RoleMapper, roles: &Roles) -> Result<Roles, NoMemory>
    ensures { IfOk result (λ after. after ≡ mapped_by mapper.now roles.now) }
{
    match mapper {
        RoleMapper::Constant { roles } => Ok(Roles::of(copy_names(alloc, roles.all())?)),
        RoleMapper::AddPrefix { text } => Ok(with_prefix(alloc, text, roles)?),
        RoleMapper::AddSuffix { text } => Ok(with_suffix(alloc, text, roles)?),
        RoleMapper::Aggregate { of } => Ok(in_turn(alloc, of.as_slice(), roles)?),
        RoleMapper::Logical { op, left, right } => {
            let left = side(alloc, left, roles)?;
            let right = side(alloc, right, roles)?;
            Ok(joined(alloc, *op, made_or(&left, roles), made_or(&right, roles))?)
        }
        RoleMapper::Mapped {
            map,
            keep_mapped,
            keep_non_mapped,
        } => Ok(mapped(alloc, map.all(), *keep_mapped, *keep_non_mapped, roles)?),
    }
}
