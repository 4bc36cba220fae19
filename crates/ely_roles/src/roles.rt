//! The roles of an identity.

ghost use Rattle.std.specs.Prelude.{◌≡◌, IfOk};
ghost use Rattle.std.specs.Option.{option_copied};
ghost use Rattle.ely_roles.specs.RolesOf.{values_of, through, roles_of};

use crate::apply::mapped_by;
use crate::mapper::RoleMapper;
use ely_base::{Name, NoMemory, copy_names};
use ely_row::{Roles, Row};
use std::alloc::Global;

/// The values of the attribute as a set.
fn values_of(alloc: Global, attr: &Name, row: &Row) -> Result<Roles, NoMemory>
    ensures { IfOk result (λ roles. roles ≡ values_of attr.now row.now) }
{
    match row.attr(attr) {
        None => Ok(Roles::of(Vec::new(alloc))),
        Some(values) => Ok(Roles::of(copy_names(alloc, values.all())?)),
    }
}

/// What the mapper makes of the roles, and the roles themselves without a mapper.
fn through(alloc: Global, mapper: Option<&RoleMapper>, roles: Roles) -> Result<Roles, NoMemory>
    ensures { IfOk result (λ after. after ≡ through (option_copied mapper.entry) roles) }
{
    match mapper {
        None => Ok(roles),
        Some(mapper) => Ok(mapped_by(alloc, mapper, &roles)?),
    }
}

/// The roles of an identity: the values of its role attribute as a set, through the realm's mapper
/// and then the domain's. An identity without the attribute has no values.
pub fn roles_of(
    alloc: Global,
    attr: &Name,
    realm_mapper: Option<&RoleMapper>,
    domain_mapper: Option<&RoleMapper>,
    row: &Row,
) -> Result<Roles, NoMemory>
    ensures { IfOk result (λ roles. roles
        ≡ roles_of attr.now (option_copied realm_mapper.entry) (option_copied domain_mapper.entry)
        row.now) }
{
    let values = values_of(alloc, attr, row)?;
    let roles = through(alloc, realm_mapper, values)?;
    through(alloc, domain_mapper, roles)
}
