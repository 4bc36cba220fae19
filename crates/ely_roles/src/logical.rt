//! Two sets of roles joined.

ghost use Rattle.std.specs.Prelude.{◌≡◌, ◌++◌, filter, if◌then◌else◌, IfOk, OnOk};
ghost use Rattle.ely_row.specs.Sets.{is_among};
ghost use Rattle.ely_roles.specs.Mappers.{keeps, joined};

use crate::mapper::SetOp;
use ely_base::{Name, NoMemory};
use ely_row::Roles;
use std::alloc::Global;

/// Whether a role is kept, by whether the left and the right have it.
fn keeps(op: SetOp, left: bool, right: bool) -> bool
    ensures { result ≡ keeps op left right }
{
    match op {
        SetOp::And => left && right,
        SetOp::Or => left || right,
        SetOp::Minus => left && !right,
        SetOp::Xor => left != right,
    }
}

/// Adds the roles that the other set has where `shared` is true, and those that it lacks where
/// `alone` is true.
fn push_kept(
    alloc: Global,
    names: &mut Vec<Name>,
    roles: &Roles,
    other: &Roles,
    shared: bool,
    alone: bool,
) -> Result<(), NoMemory>
    ensures { OnOk result (names.new.items
        ≡ names.old.items
        ++ filter (λ role. if is_among other.now role then shared else alone) roles.now) }
{
    for role in roles.all() {
        let kept = if other.has(role) { shared } else { alone };
        if kept {
            names.push(role.copy(alloc)?)?;
        }
    }
    Ok(())
}

/// The roles of either set that the operation keeps.
pub fn joined(alloc: Global, op: SetOp, left: &Roles, right: &Roles) -> Result<Roles, NoMemory>
    ensures { IfOk result (λ roles. roles ≡ joined op left.now right.now) }
{
    let shared = keeps(op, true, true);
    let left_alone = keeps(op, true, false);
    let right_alone = keeps(op, false, true);
    let mut names = Vec::new(alloc);
    push_kept(alloc, &mut names, left, right, shared, left_alone)?;
    push_kept(alloc, &mut names, right, left, false, right_alone)?;
    Ok(Roles::of(names))
}
