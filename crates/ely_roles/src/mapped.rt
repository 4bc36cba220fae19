//! Roles mapped by pairs of a role and its targets.

ghost use Rattle.std.specs.Prelude.{◌≡◌, ◌++◌, IfOk, OnOk};
ghost use Rattle.ely_roles.specs.Mappers.{is_paired, targets, is_kept, given, mapped};

use ely_base::{Items, Name, NoMemory};
use ely_row::Roles;
use std::alloc::Global;

/// Whether the role has a pair.
fn is_paired(pairs: &[(Name, Items<Name>)], role: &Name) -> bool
    ensures { result ≡ is_paired pairs.now role.now }
{
    pairs.iter().any(|pair| pair.0.is(role))
}

/// Whether the role itself is kept.
fn is_kept(
    pairs: &[(Name, Items<Name>)],
    keep_mapped: bool,
    keep_non_mapped: bool,
    role: &Name,
) -> bool
    ensures { result ≡ is_kept pairs.now keep_mapped keep_non_mapped role.now }
{
    if is_paired(pairs, role) {
        keep_mapped
    } else {
        keep_non_mapped
    }
}

/// Adds equal names.
fn push_names(alloc: Global, names: &mut Vec<Name>, more: &[Name]) -> Result<(), NoMemory>
    ensures { OnOk result (names.new.items ≡ names.old.items ++ more.now) }
{
    for name in more {
        names.push(name.copy(alloc)?)?;
    }
    Ok(())
}

/// Adds the targets of all pairs of the role.
fn push_targets(
    alloc: Global,
    names: &mut Vec<Name>,
    pairs: &[(Name, Items<Name>)],
    role: &Name,
) -> Result<(), NoMemory>
    ensures { OnOk result (names.new.items ≡ names.old.items ++ targets pairs.now role.now) }
{
    for pair in pairs {
        if pair.0.is(role) {
            push_names(alloc, names, pair.1.all())?;
        }
    }
    Ok(())
}

/// Adds what is given for one role.
fn push_given(
    alloc: Global,
    names: &mut Vec<Name>,
    pairs: &[(Name, Items<Name>)],
    keep_mapped: bool,
    keep_non_mapped: bool,
    role: &Name,
) -> Result<(), NoMemory>
    ensures { OnOk result (names.new.items
        ≡ names.old.items ++ given pairs.now keep_mapped keep_non_mapped role.now) }
{
    push_targets(alloc, names, pairs, role)?;
    if is_kept(pairs, keep_mapped, keep_non_mapped, role) {
        names.push(role.copy(alloc)?)?;
    }
    Ok(())
}

/// What is given for the roles of a set: the targets of each role by all its pairs, and the roles
/// that are kept.
pub fn mapped(
    alloc: Global,
    pairs: &[(Name, Items<Name>)],
    keep_mapped: bool,
    keep_non_mapped: bool,
    roles: &Roles,
) -> Result<Roles, NoMemory>
    ensures { IfOk result (λ after.
        after ≡ mapped pairs.now keep_mapped keep_non_mapped roles.now) }
{
    let mut names = Vec::new(alloc);
    for role in roles.all() {
        push_given(alloc, &mut names, pairs, keep_mapped, keep_non_mapped, role)?;
    }
    Ok(Roles::of(names))
}
