//! The text of groups: names, each with the groups that it has.

ghost use Rattle.std.specs.Prelude.{◌≡◌, ◌≤◌, ◌++◌, [], ◌∷◌, IsTrue, if◌then◌else◌, length, take, IfOk, OnOk};
ghost use Rattle.std.specs.List.{filter};
ghost use Rattle.std.specs.Option.{option_map};
ghost use Rattle.ely_base.specs.Refused.{Gives};
ghost use Rattle.ely_row.specs.Creds.{mapped};
ghost use Rattle.ely_propfile.specs.Entries.{name_part, pair_of, entry_of};
ghost use Rattle.ely_propfile.specs.Faults.{is_among, are_apart};
ghost use Rattle.ely_propfile.specs.Groups.{groups_in, has_groups, groups_of};
ghost use Rattle.ely_propfile.specs.Kept.{with_group, kept_groups};

use crate::blank::{trimmed, trimmed_start};
use crate::lines::{Lines, next_number};
use crate::pair::{is_skipped, read_key, read_name};
use crate::parts::Parts;
use crate::seen::add;
use ely_base::{Name, NoMemory, Refused};
use ely_row::{PropFault, Values};
use std::alloc::Global;
use std::collections::BTreeSet;

/// The most groups of a name.
const MOST_GROUPS: usize = 64;

/// Whether the text is one of the groups.
fn is_among(groups: &[Name], text: &[u8]) -> bool
    ensures { result ≡ is_among text.now groups.now }
{
    groups.iter().any(|group| text == group.bytes())
}

/// Adds a group that is a name, unless it is among the others, or they are too many already.
fn add_group(
    alloc: Global,
    groups: &mut Vec<Name>,
    group: &[u8],
    number: u32,
) -> Result<(), Refused<PropFault>>
    ensures name { Gives (mapped (λ done. group.now) result) (name_part number group.now) }
    ensures groups { OnOk result (groups.new.items ≡ with_group groups.old.items group.now) }
{
    let name = read_name(alloc, group, number)?;
    if groups.len() <= MOST_GROUPS && !is_among(groups, group) {
        groups.push(name)?;
    }
    Ok(())
}

/// The groups that stand between commas. Of more than 65 the first 65 are kept, which tell that there are too many.
fn read_list(alloc: Global, text: &[u8], number: u32) -> Result<Vec<Name>, Refused<PropFault>>
    ensures { Gives (mapped (λ groups. groups.items) result) (kept_groups number text.now) }
{
    let mut groups = Vec::new(alloc);
    let mut parts = Parts::of(text, b',');
    while let Some(part) = parts.next() {
        let group = trimmed(part.bytes());
        if !group.is_empty() {
            add_group(alloc, &mut groups, group, number)?;
        }
    }
    Ok(groups)
}

/// The name and the groups of a line that isn't skipped.
fn read_pair(
    alloc: Global,
    text: &[u8],
    number: u32,
) -> Result<(Name, Vec<Name>), Refused<PropFault>>
    ensures { Gives (mapped (λ pair. (pair.0, pair.1.items)) result)
        (pair_of kept_groups number text.now) }
{
    let (name, value) = read_key(alloc, text, number)?;
    let groups = read_list(alloc, value.bytes(), number)?;
    Ok((name, groups))
}

/// The name and the groups of a line, unless it is skipped.
fn read_line(
    alloc: Global,
    line: &[u8],
    number: u32,
) -> Result<Option<(Name, Vec<Name>)>, Refused<PropFault>>
    ensures { Gives (mapped (λ pair. option_map (λ p. (p.0, p.1.items)) pair) result)
        (entry_of kept_groups number line.now) }
{
    let body = trimmed_start(line);
    if is_skipped(body) {
        return Ok(None);
    }
    Ok(Some(read_pair(alloc, body, number)?))
}

/// Adds a name with its groups, where it has some.
fn keep(pairs: &mut Vec<(Name, Values)>, name: Name, groups: Vec<Name>) -> Result<(), NoMemory>
    requires { length groups.items ≤ 64 }
    ensures { OnOk result
        (pairs.new.items ≡ pairs.old.items ++ filter has_groups ((name, groups.items) ∷ [])) }
{
    if let Ok(values) = Values::read(groups) {
        pairs.push((name, values))?;
    }
    Ok(())
}

/// The groups of a text, in its order, or the fault of its first faulty line. A line is a name, `=` and groups with commas
/// between them, each taken once; a name without any gives nothing. Empty lines, and comments, which begin with `#` or `!`, are
/// skipped. The faults of a line come in this order: `BadLine` where it has no `=`, its name is none, or a group is no name;
/// `Twice` where the name stood on an earlier line; `TooMany` where it has more than 64 groups or 65,536 names stood before.
pub fn read_groups(alloc: Global, text: &[u8]) -> Result<Vec<(Name, Values)>, Refused<PropFault>>
    ensures exact { Gives (mapped (λ groups. groups.items) result) (groups_of text.now) }
    ensures apart { IfOk result (λ groups. IsTrue (are_apart groups.items)) }
{
    let mut pairs = Vec::new(alloc);
    let mut seen = BTreeSet::new(alloc);
    let mut number = 0;
    let mut lines = Lines::of(text);
    while let Some(line) = lines.next() {
        number = next_number(number);
        if let Some((name, groups)) = read_line(alloc, line.bytes(), number)? {
            add(alloc, &mut seen, &name, groups.len() > MOST_GROUPS, number)?;
            keep(&mut pairs, name, groups)?;
        }
    }
    Ok(pairs)
}
