//! Members of JSON objects by their names, and items of JSON arrays.

ghost use Rattle.std.specs.Prelude.{◌≡◌, [], List, ℕ, Option, IfOk, option_map};
ghost use Rattle.serde_json.specs.Data.{Data};
ghost use Rattle.serde_json.specs.Find.{as_array, as_str, get_member};
ghost use Rattle.serde_json.specs.View.{items_view, view};
ghost use Rattle.ely_config_json.specs.Parts.{both, each_of, given, list_of, needed, object_of, optional, pair_of, two_of};

use ely_base::{Items, NoMemory};
use serde_json::{Map, Value};
use std::alloc::Global;

/// What a JSON value can be read as.
pub(crate) trait Part: Drop {
    /// What a value is read as, where it has the form.
    ghost of: { Data → Option Self };

    /// Reads a value. There is nothing where it doesn't have the form.
    fn read_value(alloc: Global, value: &Value) -> Result<Option<Self>, NoMemory>
        ensures { IfOk result (λ made. made ≡ of (view value.now)) };
}

/// The member of a name.
pub(crate) fn member<'a>(object: &'a Map<String, Value>, name: &str) -> Option<&'a Value>
    ensures { option_map (λ v. view v.now) result ≡ get_member name.now (object_of object.now) }
{
    object.get(name)
}

/// The text of the member of a name.
pub(crate) fn word<'a>(object: &'a Map<String, Value>, name: &str) -> Option<&'a str>
    ensures { option_map (λ s. s.now) result ≡ needed as_str name.now (object_of object.now) }
{
    member(object, name)?.as_str()
}

/// What the member of a name is read as. There is nothing where it isn't there.
pub(crate) fn needed<P: Part>(
    alloc: Global,
    object: &Map<String, Value>,
    name: &str,
) -> Result<Option<P>, NoMemory>
    ensures { IfOk result (λ made. made ≡ needed P.of name.now (object_of object.now)) }
{
    match member(object, name) {
        Some(value) => P::read_value(alloc, value),
        None => Ok(None),
    }
}

/// What the member of a name is read as, where it is there.
pub(crate) fn optional<P: Part>(
    alloc: Global,
    object: &Map<String, Value>,
    name: &str,
) -> Result<Option<Option<P>>, NoMemory>
    ensures { IfOk result (λ made. made ≡ optional P.of name.now (object_of object.now)) }
{
    let Some(value) = member(object, name) else {
        return Ok(Some(None));
    };
    match P::read_value(alloc, value)? {
        Some(made) => Ok(Some(Some(made))),
        None => Ok(None),
    }
}

/// The list that the member of a name is read as. It is empty where it isn't there.
pub(crate) fn list<P: Part>(
    alloc: Global,
    object: &Map<String, Value>,
    name: &str,
) -> Result<Option<Items<P>>, NoMemory>
    ensures { IfOk result (λ made. made ≡ given (list_of P.of) [] name.now (object_of object.now)) }
{
    match member(object, name) {
        Some(value) => Items::read_value(alloc, value),
        None => Ok(Some(Items::of(Vec::new(alloc)))),
    }
}

/// Both, where neither is missing.
pub(crate) fn both<A: Drop, B: Drop>(first: Option<A>, second: Option<B>) -> Option<(A, B)>
    ensures { result ≡ both first second }
{
    Some((first?, second?))
}

/// What each of the values is read as.
fn each_of<P: Part>(alloc: Global, values: &[Value]) -> Result<Option<Items<P>>, NoMemory>
    ensures { IfOk result (λ made. made ≡ each_of P.of (items_view values.now)) }
{
    let mut parts = Vec::new(alloc);
    for value in values {
        let Some(part) = P::read_value(alloc, value)? else {
            return Ok(None);
        };
        parts.push(part)?;
    }
    Ok(Some(Items::of(parts)))
}

impl<P: Part> Part for Items<P> {
    ghost of = { list_of P.of };

    fn read_value(alloc: Global, value: &Value) -> Result<Option<Items<P>>, NoMemory> {
        let Some(values) = value.as_array() else {
            return Ok(None);
        };
        each_of(alloc, values.as_slice())
    }
}

/// The items of an array of two.
fn two_of(values: &[Value]) -> Option<(&Value, &Value)>
    ensures { option_map (λ two. (view two.0.now, view two.1.now)) result
        ≡ two_of (items_view values.now) }
{
    let (first, others) = values.split_first()?;
    let (second, others) = others.split_first()?;
    match others.split_first() {
        None => Some((first, second)),
        Some(_) => None,
    }
}

impl<A: Part, B: Part> Part for (A, B) {
    ghost of = { pair_of A.of B.of };

    fn read_value(alloc: Global, value: &Value) -> Result<Option<(A, B)>, NoMemory> {
        let Some(values) = value.as_array() else {
            return Ok(None);
        };
        let Some((first, second)) = two_of(values.as_slice()) else {
            return Ok(None);
        };
        let first = A::read_value(alloc, first)?;
        let second = B::read_value(alloc, second)?;
        Ok(both(first, second))
    }
}
