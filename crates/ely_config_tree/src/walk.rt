//! The walk over the tree, in the order of the tests.

ghost use Rattle.std.specs.Prelude.{◌≡◌, List, IfOk, Some, map, option_map};
ghost use Rattle.serde_json.specs.Find.{get_member};
ghost use Rattle.serde_json.specs.View.{items_view, members_view, view};
ghost use Rattle.ely_config_tree.specs.Faults.{here};
ghost use Rattle.ely_config_tree.specs.Shapes.{form_of};
ghost use Rattle.ely_config_tree.specs.Table.{discriminator_of};
ghost use Rattle.ely_config_tree.specs.Tree.{at_member, fault, items_fault, list_fault, member_fault, members_fault, missing_fault, object_fault, discriminator_fault, tree_fault, word_of};

use crate::fault::TreeFault;
use crate::leaves::{is_between, leaf_fault};
use crate::shape::{Form, ListForm, Shape, form_of};
use crate::step::FaultKind;
use crate::table::{discriminator_of, member_shape, required_of};
use ely_base::NoMemory;
use serde_json::{Map, Value};
use std::alloc::Global;

/// A fault of the value itself, where there is a kind.
fn at_here(alloc: Global, kind: Option<FaultKind>) -> Option<TreeFault>
    ensures { result ≡ option_map here kind }
{
    match kind {
        Some(kind) => Some(TreeFault::here(alloc, kind)),
        None => None,
    }
}

/// A fault of a member's value, seen from the object, where there is a kind.
fn at_member(
    alloc: Global,
    name: &str,
    kind: Option<FaultKind>,
) -> Result<Option<TreeFault>, NoMemory>
    ensures { IfOk result (λ found. found ≡ at_member name.now kind) }
{
    match kind {
        Some(kind) => Ok(Some(TreeFault::here(alloc, kind).under_member(alloc, name)?)),
        None => Ok(None),
    }
}

/// The member of a name.
fn member<'a>(members: &'a Map<String, Value>, name: &str) -> Option<&'a Value>
    ensures { option_map (λ v. view v.now) result
        ≡ get_member name.now (members_view members.now.entries) }
{
    members.get(name)
}

/// The fault of the discriminator, where the shape has one.
fn discriminator_fault(
    alloc: Global,
    shape: Shape,
    members: &Map<String, Value>,
) -> Result<Option<TreeFault>, NoMemory>
    ensures { IfOk result (λ found. found
        ≡ discriminator_fault (discriminator_of shape) (members_view members.now.entries)) }
{
    let Some((name, word)) = discriminator_of(shape) else {
        return Ok(None);
    };
    let kind = match member(members, name) {
        Some(value) => leaf_fault(alloc, word, value)?,
        None => Some(FaultKind::Missing),
    };
    at_member(alloc, name, kind)
}

/// The word of the discriminator, and no bytes where there is none.
fn word_of(shape: Shape, members: &Map<String, Value>) -> &str
    ensures { result.now ≡ word_of (discriminator_of shape) (members_view members.now.entries) }
{
    let Some((name, _)) = discriminator_of(shape) else {
        return "";
    };
    let Some(value) = member(members, name) else {
        return "";
    };
    match value.as_str() {
        Some(word) => word,
        None => "",
    }
}

/// The first name of which there is no member.
fn missing_fault(
    alloc: Global,
    names: &[&str],
    members: &Map<String, Value>,
) -> Result<Option<TreeFault>, NoMemory>
    ensures { IfOk result (λ found. found
        ≡ missing_fault (map (λ name. name.now) names.now) (members_view members.now.entries)) }
{
    for name in names {
        if member(members, name).is_none() {
            return at_member(alloc, name, Some(FaultKind::Missing));
        }
    }
    Ok(None)
}

/// The first fault of a value that should have the shape.
#[cycle(walk)]
fn fault(alloc: Global, shape: Shape, value: &Value) -> Result<Option<TreeFault>, NoMemory>
    ensures { IfOk result (λ found. found ≡ fault shape (view value.now)) }
{
    match form_of(shape) {
        Form::Leaf => Ok(at_here(alloc, leaf_fault(alloc, shape, value)?)),
        Form::List(list) => match value.as_array() {
            Some(items) => list_fault(alloc, list, items.as_slice()),
            None => Ok(Some(TreeFault::here(alloc, FaultKind::Kind))),
        },
        Form::Object => match value.as_object() {
            Some(members) => object_fault(alloc, shape, members),
            None => Ok(Some(TreeFault::here(alloc, FaultKind::Kind))),
        },
    }
}

/// The first fault of an array.
#[cycle(walk)]
#[tactic(auto, using(crate::proofs::Counts::count_view))]
fn list_fault(alloc: Global, list: ListForm, items: &[Value]) -> Result<Option<TreeFault>, NoMemory>
    ensures { IfOk result (λ found. found ≡ list_fault list (items_view items.now)) }
{
    if !is_between(list.least, list.most, items.len()) {
        return Ok(Some(TreeFault::here(alloc, FaultKind::Range)));
    }
    items_fault(alloc, list.first, list.later, items)
}

/// The first fault of the items.
#[cycle(walk)]
fn items_fault(
    alloc: Global,
    first: Shape,
    later: Shape,
    items: &[Value],
) -> Result<Option<TreeFault>, NoMemory>
    ensures { IfOk result (λ found. found ≡ items_fault first later 0 (items_view items.now)) }
{
    let mut shape = first;
    let mut index = 0;
    for item in items {
        if let Some(found) = fault(alloc, shape, item)? {
            return Ok(Some(found.under_index(index)?));
        }
        shape = later;
        index += 1;
    }
    Ok(None)
}

/// The first fault of an object.
#[cycle(walk)]
fn object_fault(
    alloc: Global,
    shape: Shape,
    members: &Map<String, Value>,
) -> Result<Option<TreeFault>, NoMemory>
    requires { form_of shape ≡ Form.Object }
    ensures { IfOk result (λ found. found
        ≡ object_fault shape (members_view members.now.entries)) }
{
    if let Some(found) = discriminator_fault(alloc, shape, members)? {
        return Ok(Some(found));
    }
    let word = word_of(shape, members);
    if let Some(found) = members_fault(alloc, shape, word, members)? {
        return Ok(Some(found));
    }
    missing_fault(alloc, required_of(shape, word), members)
}

/// The first fault of the members, each with all below it.
#[cycle(walk)]
fn members_fault(
    alloc: Global,
    shape: Shape,
    word: &str,
    members: &Map<String, Value>,
) -> Result<Option<TreeFault>, NoMemory>
    requires { form_of shape ≡ Form.Object }
    ensures { IfOk result (λ found. found
        ≡ members_fault shape word.now (members_view members.now.entries)) }
{
    for (key, value) in members {
        if let Some(found) = member_fault(alloc, shape, word, key.as_str(), value)? {
            return Ok(Some(found.under_member(alloc, key.as_str())?));
        }
    }
    Ok(None)
}

/// The first fault of the value of a member.
#[cycle(walk)]
fn member_fault(
    alloc: Global,
    shape: Shape,
    word: &str,
    name: &str,
    value: &Value,
) -> Result<Option<TreeFault>, NoMemory>
    requires { form_of shape ≡ Form.Object }
    ensures { IfOk result (λ found. found
        ≡ member_fault shape word.now name.now (view value.now)) }
{
    match member_shape(shape, word, name) {
        Some(found) => fault(alloc, found, value),
        None => Ok(Some(TreeFault::here(alloc, FaultKind::Unknown))),
    }
}

/// The first fault of a value that should be a configuration, in this order: in an object `rule` or `kind`, where the object
/// needs one; then its members in the order of their names' bytes, each with all below it; then a member that is missing;
/// in an array its length, and then its items. What one member says of another isn't looked at.
pub fn tree_fault(alloc: Global, value: &Value) -> Result<Option<TreeFault>, NoMemory>
    ensures { IfOk result (λ found. found ≡ tree_fault (view value.now)) }
{
    fault(alloc, Shape::Root, value)
}
