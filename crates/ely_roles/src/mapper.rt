//! The forms of a role mapper.

ghost use Rattle.std.specs.Prelude.{◌≡◌, IfOk};

use ely_base::{Items, Name, NoMemory, copy_names};
use sqlite_items::{Boxed, Items as Tree};
use std::alloc::Global;

/// How two sets are joined.
#[derive(Clone, Copy, Debug, PartialEq, Eq)]
pub enum SetOp {
    /// The roles of both.
    And,
    /// The roles of either.
    Or,
    /// The roles of the left that the right lacks.
    Minus,
    /// The roles of exactly one.
    Xor,
}

/// What makes a set of roles of a set of roles.
#[derive(Debug, Drop)]
pub enum RoleMapper {
    /// These roles, whatever the set has.
    Constant {
        roles: Items<Name>,
    },
    /// Each role with the text before it.
    AddPrefix {
        text: Name,
    },
    /// Each role with the text behind it.
    AddSuffix {
        text: Name,
    },
    /// One mapper after the other.
    Aggregate {
        of: Tree<RoleMapper>,
    },
    /// What two mappers make of the set, joined. A mapper that isn't there leaves the set as it is.
    Logical {
        op: SetOp,
        left: Option<Boxed<RoleMapper>>,
        right: Option<Boxed<RoleMapper>>,
    },
    /// The targets of each role by pairs of a role and its targets, and the roles that are kept
    /// themselves: those with a pair, those without, both or neither.
    Mapped {
        map: Items<(Name, Items<Name>)>,
        keep_mapped: bool,
        keep_non_mapped: bool,
    },
}

/// Equal pairs, in the same order.
fn copy_pairs(
    alloc: Global,
    pairs: &[(Name, Items<Name>)],
) -> Result<Items<(Name, Items<Name>)>, NoMemory>
    ensures { IfOk result (λ copy. copy ≡ pairs.now) }
{
    let mut copy = Vec::new(alloc);
    for pair in pairs {
        let targets = Items::of(copy_names(alloc, pair.1.all())?);
        copy.push((pair.0.copy(alloc)?, targets))?;
    }
    Ok(Items::of(copy))
}

/// An equal mapper, if there is one.
#[cycle(copies)]
fn copy_side(
    alloc: Global,
    side: &Option<Boxed<RoleMapper>>,
) -> Result<Option<Boxed<RoleMapper>>, NoMemory>
    ensures { IfOk result (λ copy. copy ≡ side.now) }
{
    match side {
        None => Ok(None),
        Some(mapper) => {
            let copy = mapper.get().copy(alloc)?;
            Ok(Some(Boxed::new(alloc, copy)?))
        }
    }
}

/// Equal mappers, in the same order.
#[cycle(copies)]
fn copy_all(alloc: Global, mappers: &[RoleMapper]) -> Result<Tree<RoleMapper>, NoMemory>
    ensures { IfOk result (λ copy. copy ≡ mappers.now) }
{
    let mut copy = Tree::new(alloc);
    for mapper in mappers {
        copy.push(mapper.copy(alloc)?)?;
    }
    Ok(copy)
}

impl RoleMapper {
    /// An equal mapper.
    #[cycle(copies)]
    pub fn copy(&self, alloc: Global) -> Result<RoleMapper, NoMemory>
        ensures { IfOk result (λ copy. copy ≡ self.now) }
    {
        match self {
            RoleMapper::Constant { roles } => Ok(RoleMapper::Constant {
                roles: Items::of(copy_names(alloc, roles.all())?),
            }),
            RoleMapper::AddPrefix { text } => Ok(RoleMapper::AddPrefix {
                text: text.copy(alloc)?,
            }),
            RoleMapper::AddSuffix { text } => Ok(RoleMapper::AddSuffix {
                text: text.copy(alloc)?,
            }),
            RoleMapper::Aggregate { of } => Ok(RoleMapper::Aggregate {
                of: copy_all(alloc, of.as_slice())?,
            }),
            RoleMapper::Logical { op, left, right } => Ok(RoleMapper::Logical {
                op: *op,
                left: copy_side(alloc, left)?,
                right: copy_side(alloc, right)?,
            }),
            RoleMapper::Mapped {
                map,
                keep_mapped,
                keep_non_mapped,
            } => Ok(RoleMapper::Mapped {
                map: copy_pairs(alloc, map.all())?,
                keep_mapped: *keep_mapped,
                keep_non_mapped: *keep_non_mapped,
            }),
        }
    }
}
