//! The names of the lines that were read so far.

ghost use Rattle.std.specs.Prelude.{◌≡◌, ◌+◌, true, length, None, IfErr, OnOk};
ghost use Rattle.std.specs.BTreeSet.{Updates, contains};
ghost use Rattle.ely_row.specs.Rows.{name_cmp};
ghost use Rattle.ely_propfile.specs.Faults.{name_fault, IsRefusal};

use ely_base::{Name, Refused};
use ely_row::PropFault;
use std::alloc::Global;
use std::collections::BTreeSet;

/// The most names of a text.
const MOST_NAMES: usize = 65536;

/// Adds a name to those so far, unless it is one of them, its value is too large, or they are as many as they may be.
pub fn add(
    alloc: Global,
    seen: &mut BTreeSet<Name>,
    name: &Name,
    is_large: bool,
    number: u32,
) -> Result<(), Refused<PropFault>>
    ensures ok { OnOk result
        (name_fault number (contains name_cmp seen.old name.now) is_large (length seen.old.keys) ≡ None) }
    ensures fault { IfErr result (λ refusal. IsRefusal refusal
        (name_fault number (contains name_cmp seen.old name.now) is_large (length seen.old.keys))) }
    ensures added { OnOk result (Updates name_cmp seen.old seen.new name.now true) }
    ensures count { OnOk result (length seen.new.keys ≡ length seen.old.keys + 1) }
{
    if seen.contains(name) {
        return Err(Refused::Fault(PropFault::Twice(number)));
    }
    if is_large || seen.len() >= MOST_NAMES {
        return Err(Refused::Fault(PropFault::TooMany(number)));
    }
    seen.insert(name.copy(alloc)?)?;
    Ok(())
}
