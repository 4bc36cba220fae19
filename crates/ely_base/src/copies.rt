//! Copies of lists of names.

ghost use Rattle.std.specs.Prelude.{◌≡◌, IfOk};

use crate::name::Name;
use crate::refused::NoMemory;
use std::alloc::Global;

/// Equal names, in the same order.
pub fn copy_names(alloc: Global, names: &[Name]) -> Result<Vec<Name>, NoMemory>
    ensures { IfOk result (λ copy. copy.items ≡ names.now) }
{
    let mut copy = Vec::new(alloc);
    for name in names {
        copy.push(name.copy(alloc)?)?;
    }
    Ok(copy)
}

/// Equal pairs of names, in the same order.
pub fn copy_pairs(alloc: Global, pairs: &[(Name, Name)]) -> Result<Vec<(Name, Name)>, NoMemory>
    ensures { IfOk result (λ copy. copy.items ≡ pairs.now) }
{
    let mut copy = Vec::new(alloc);
    for pair in pairs {
        copy.push((pair.0.copy(alloc)?, pair.1.copy(alloc)?))?;
    }
    Ok(copy)
}
