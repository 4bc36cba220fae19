//! The identity of a name, made of the rows of the realms of its plan.

ghost use Rattle.std.specs.Prelude.{◌≡◌, ◌≤◌, map, take, length, IfOk, OnOk};
ghost use Rattle.ely_row.specs.Rows.{Row};
ghost use Rattle.ely_aggregate.specs.Plans.{over, merged, identity_of};

use crate::plan::RealmPlan;
use ely_base::{Name, NoMemory};
use ely_row::{Row, RowSource, SharedRow, Values};
use std::alloc::Global;
use std::collections::BTreeMap;

/// The most attributes of an identity.
const MOST_ATTRS: usize = 32;

/// Gives the row's attributes their values in it, in place of what stood there.
fn put_attrs(alloc: Global, attrs: &mut BTreeMap<Name, Values>, row: &Row) -> Result<(), NoMemory>
    ensures { OnOk result (attrs.new.entries ≡ over row.now.attrs attrs.old.entries) }
{
    for (attr, values) in row.attrs() {
        attrs.insert(attr.copy(alloc)?, values.copy(alloc)?)?;
    }
    Ok(())
}

/// The attributes of the name in the realms, each with its values in the first realm that has it.
fn merged<T: RowSource>(
    alloc: Global,
    realms: &[Name],
    name: &Name,
    rows: &T,
) -> Result<BTreeMap<Name, Values>, NoMemory>
    ensures { IfOk result (λ attrs. attrs.entries
        ≡ merged (map (λ realm. T.rows rows.now realm name.now) realms.now)) }
{
    let mut attrs = BTreeMap::new(alloc);
    let mut left = realms.len();
    while left > 0 {
        left -= 1;
        let Some(row) = rows.row_now(&realms[left], name) else {
            continue;
        };
        put_attrs(alloc, &mut attrs, row)?;
    }
    Ok(attrs)
}

/// The first attributes, as many as an identity may have.
fn within(attrs: BTreeMap<Name, Values>) -> BTreeMap<Name, Values>
    ensures value { result.entries ≡ take 32 attrs.entries }
    ensures few { length result.entries ≤ 32 }
{
    let mut attrs = attrs;
    while attrs.len() > MOST_ATTRS {
        attrs.pop_last();
    }
    attrs
}

/// The identity of the name by the plan. There is none exactly where the basic or the authentication realm has no row of the
/// name. A basic realm's row is shared; an aggregate has the credentials of its authentication realm's row, and each
/// attribute as the first authorization realm whose row has it, but no more than the first 32 in the order of their names.
pub fn assemble<T: RowSource>(
    alloc: Global,
    plan: &RealmPlan,
    name: &Name,
    rows: &T,
) -> Result<Option<SharedRow>, NoMemory>
    ensures { IfOk result (λ row. row ≡ identity_of (T.rows rows.now) plan.now name.now) }
{
    match plan {
        RealmPlan::Basic(realm) => rows.row_shared(realm, name),
        RealmPlan::Aggregate {
            authentication,
            authorization,
        } => {
            let Some(row) = rows.row_now(authentication, name) else {
                return Ok(None);
            };
            let attrs = within(merged::<T>(alloc, authorization.all(), name, rows)?);
            Ok(Some(SharedRow::new(alloc, row.copy_with(alloc, attrs)?)?))
        }
    }
}
