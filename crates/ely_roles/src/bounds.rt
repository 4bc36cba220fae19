//! How deep role mappers nest, and how many members their lists have.

ghost use Rattle.std.specs.Prelude.{◌≡◌, map};
ghost use Rattle.std.specs.Option.{option_map};
ghost use Rattle.ely_roles.specs.Bounds.{length_fits, targets_fit, pairs_fit, each_fits, side_fits, fits_within, fits};

use crate::mapper::RoleMapper;
use ely_base::{Items, Name};
use sqlite_items::Boxed;

/// How deep mappers nest at most. A mapper that stands in no other has depth 1.
pub const MOST_LEVELS: usize = 8;

/// How many members a list in a mapper has at most.
pub const MOST_MEMBERS: usize = 64;

/// Whether the list has no more members than are allowed.
fn length_fits<T>(members: &[T]) -> bool
    ensures { result ≡ length_fits members.now }
{
    members.len() <= MOST_MEMBERS
}

/// Whether no pair has more targets than are allowed.
fn targets_fit(pairs: &[(Name, Items<Name>)]) -> bool
    ensures { result ≡ targets_fit pairs.now }
{
    pairs.iter().all(|pair| length_fits(pair.1.all()))
}

/// Whether there are no more pairs than are allowed, and none with more targets.
fn pairs_fit(pairs: &[(Name, Items<Name>)]) -> bool
    ensures { result ≡ pairs_fit pairs.now }
{
    length_fits(pairs) && targets_fit(pairs)
}

/// Whether the mapper fits within so many levels, where there is one.
#[cycle(fits_within)]
fn side_fits(side: &Option<Boxed<RoleMapper>>, levels: usize) -> bool
    ensures { result ≡ side_fits (option_map fits_within side.now) levels }
{
    match side {
        None => true,
        Some(mapper) => fits_within(mapper.get(), levels),
    }
}

/// Whether there are no more mappers than are allowed, and each fits within so many levels.
#[cycle(fits_within)]
fn each_fits(mappers: &[RoleMapper], levels: usize) -> bool
    ensures { result ≡ each_fits (map fits_within mappers.now) levels }
{
    if !length_fits(mappers) {
        return false;
    }
    for mapper in mappers {
        if !fits_within(mapper, levels) {
            return false;
        }
    }
    true
}

/// Whether the mapper nests no deeper than so many levels, and no list in it has more members than
/// are allowed.
#[cycle(fits_within)]
fn fits_within(mapper: &RoleMapper, levels: usize) -> bool
    ensures { result ≡ fits_within mapper.now levels }
{
    if levels == 0 {
        return false;
    }
    match mapper {
        RoleMapper::Constant { roles } => length_fits(roles.all()),
        RoleMapper::AddPrefix { .. } | RoleMapper::AddSuffix { .. } => true,
        RoleMapper::Aggregate { of } => each_fits(of.as_slice(), levels - 1),
        RoleMapper::Logical { left, right, .. } => {
            side_fits(left, levels - 1) && side_fits(right, levels - 1)
        }
        RoleMapper::Mapped { map, .. } => pairs_fit(map.all()),
    }
}

impl RoleMapper {
    /// Whether it nests at most 8 deep, and each list in it has 0 to 64 members. It takes no
    /// memory.
    pub fn fits(&self) -> bool
        ensures { result ≡ fits self.now }
    {
        fits_within(self, MOST_LEVELS)
    }
}
