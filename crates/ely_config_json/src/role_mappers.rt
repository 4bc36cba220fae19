//! Role mappers of JSON values.

ghost use Rattle.std.specs.Prelude.{◌≡◌, IfOk, codes, option_and_then, option_map};
ghost use Rattle.serde_json.specs.Find.{as_str};
ghost use Rattle.serde_json.specs.View.{items_view, view};
ghost use Rattle.ely_roles.specs.declared.mapper.RoleMapper.TheVariants.{Aggregate, Constant};
ghost use Rattle.ely_config_json.specs.Names.{name_of, names_of};
ghost use Rattle.ely_config_json.specs.Parts.{by_word, each_of, list_of, needed, object_of, optional};
ghost use Rattle.ely_config_json.specs.RoleMappers.{affixed_in, simple_role_mapper, logical_in, mapped_in, op_of, role_mapper_in, role_mapper_of};

use crate::names::flag;
use crate::parts::{Part, both, member, needed, word};
use ely_base::{Items, Name, NoMemory};
use ely_roles::{MOST_LEVELS, RoleMapper, SetOp};
use serde_json::{Map, Value};
use sqlite_items::{Boxed, Items as Tree};
use std::alloc::Global;

/// The mapper that always gives the same roles.
fn constant(alloc: Global, object: &Map<String, Value>) -> Result<Option<RoleMapper>, NoMemory>
    ensures { IfOk result (λ made. made
        ≡ option_map Constant (needed names_of (codes "roles") (object_of object.now))) }
{
    match needed(alloc, object, "roles")? {
        Some(roles) => Ok(Some(RoleMapper::Constant { roles })),
        None => Ok(None),
    }
}

/// The mapper that joins each role with a text, before it or behind it.
fn affixed(
    alloc: Global,
    object: &Map<String, Value>,
    is_prefix: bool,
) -> Result<Option<RoleMapper>, NoMemory>
    ensures { IfOk result (λ made. made ≡ affixed_in is_prefix (object_of object.now)) }
{
    let Some(text) = needed(alloc, object, "text")? else {
        return Ok(None);
    };
    if is_prefix {
        Ok(Some(RoleMapper::AddPrefix { text }))
    } else {
        Ok(Some(RoleMapper::AddSuffix { text }))
    }
}

/// The mapper by pairs of a role and its targets.
fn mapped(alloc: Global, object: &Map<String, Value>) -> Result<Option<RoleMapper>, NoMemory>
    ensures { IfOk result (λ made. made ≡ mapped_in (object_of object.now)) }
{
    let kept = both(flag(object, "keep-mapped"), flag(object, "keep-non-mapped"));
    let pairs: Option<Items<(Name, Items<Name>)>> = needed(alloc, object, "map")?;
    match both(pairs, kept) {
        Some((map, (keep_mapped, keep_non_mapped))) => Ok(Some(RoleMapper::Mapped {
            map,
            keep_mapped,
            keep_non_mapped,
        })),
        None => Ok(None),
    }
}

/// The mapper of a word that has no mapper in it.
fn simple_role_mapper(
    alloc: Global,
    object: &Map<String, Value>,
    word: &str,
) -> Result<Option<RoleMapper>, NoMemory>
    ensures { IfOk result (λ made. made
        ≡ simple_role_mapper (object_of object.now) word.now) }
{
    if word == "constant" {
        constant(alloc, object)
    } else if word == "add-prefix" {
        affixed(alloc, object, true)
    } else if word == "add-suffix" {
        affixed(alloc, object, false)
    } else if word == "mapped" {
        mapped(alloc, object)
    } else {
        Ok(None)
    }
}

/// How two sets are joined.
fn op_of(word: &str) -> Option<SetOp>
    ensures { result ≡ op_of word.now }
{
    if word == "and" {
        Some(SetOp::And)
    } else if word == "or" {
        Some(SetOp::Or)
    } else if word == "minus" {
        Some(SetOp::Minus)
    } else if word == "xor" {
        Some(SetOp::Xor)
    } else {
        None
    }
}

/// How the member `op` of an object joins two sets.
fn op_in(object: &Map<String, Value>) -> Option<SetOp>
    ensures { result
        ≡ option_and_then op_of (needed as_str (codes "op") (object_of object.now)) }
{
    op_of(word(object, "op")?)
}

/// The mapper of a value that nests at most so many levels deep.
#[cycle(role_mappers)]
fn read_role_mapper(
    alloc: Global,
    value: &Value,
    levels: usize,
) -> Result<Option<RoleMapper>, NoMemory>
    ensures { IfOk result (λ made. made ≡ role_mapper_of levels (view value.now)) }
{
    if levels == 0 {
        return Ok(None);
    }
    match value.as_object() {
        Some(object) => role_mapper_in(alloc, object, levels - 1),
        None => Ok(None),
    }
}

/// The mapper of an object, with mappers in it that nest at most so many levels deep.
#[cycle(role_mappers)]
fn role_mapper_in(
    alloc: Global,
    object: &Map<String, Value>,
    below: usize,
) -> Result<Option<RoleMapper>, NoMemory>
    ensures { IfOk result (λ made. made
        ≡ by_word (role_mapper_in (role_mapper_of below)) (codes "rule")
        (object_of object.now)) }
{
    let Some(word) = word(object, "rule") else {
        return Ok(None);
    };
    if word == "aggregate" {
        aggregate(alloc, object, below)
    } else if word == "logical" {
        logical(alloc, object, below)
    } else {
        simple_role_mapper(alloc, object, word)
    }
}

/// The mapper that applies others in turn.
#[cycle(role_mappers)]
fn aggregate(
    alloc: Global,
    object: &Map<String, Value>,
    below: usize,
) -> Result<Option<RoleMapper>, NoMemory>
    ensures { IfOk result (λ made. made
        ≡ option_map Aggregate (needed (list_of (role_mapper_of below)) (codes "of")
        (object_of object.now))) }
{
    let Some(value) = member(object, "of") else {
        return Ok(None);
    };
    let Some(values) = value.as_array() else {
        return Ok(None);
    };
    match each_role_mapper(alloc, values.as_slice(), below)? {
        Some(of) => Ok(Some(RoleMapper::Aggregate { of })),
        None => Ok(None),
    }
}

/// The mapper of each of the values.
#[cycle(role_mappers)]
fn each_role_mapper(
    alloc: Global,
    values: &[Value],
    below: usize,
) -> Result<Option<Tree<RoleMapper>>, NoMemory>
    ensures { IfOk result (λ made. made ≡ each_of (role_mapper_of below) (items_view values.now)) }
{
    let mut mappers = Tree::new(alloc);
    for value in values {
        let Some(mapper) = read_role_mapper(alloc, value, below)? else {
            return Ok(None);
        };
        mappers.push(mapper)?;
    }
    Ok(Some(mappers))
}

/// The mapper that joins what two mappers make.
#[cycle(role_mappers)]
fn logical(
    alloc: Global,
    object: &Map<String, Value>,
    below: usize,
) -> Result<Option<RoleMapper>, NoMemory>
    ensures { IfOk result (λ made. made
        ≡ logical_in (role_mapper_of below) (object_of object.now)) }
{
    let op = op_in(object);
    let left = side(alloc, object, "left", below)?;
    let right = side(alloc, object, "right", below)?;
    match both(op, both(left, right)) {
        Some((op, (left, right))) => Ok(Some(RoleMapper::Logical { op, left, right })),
        None => Ok(None),
    }
}

/// One of the two mappers, where it is there.
#[cycle(role_mappers)]
fn side(
    alloc: Global,
    object: &Map<String, Value>,
    name: &str,
    below: usize,
) -> Result<Option<Option<Boxed<RoleMapper>>>, NoMemory>
    ensures { IfOk result (λ made. made
        ≡ optional (role_mapper_of below) name.now (object_of object.now)) }
{
    let Some(value) = member(object, name) else {
        return Ok(Some(None));
    };
    match read_role_mapper(alloc, value, below)? {
        Some(mapper) => Ok(Some(Some(Boxed::new(alloc, mapper)?))),
        None => Ok(None),
    }
}

impl Part for RoleMapper {
    ghost of = { role_mapper_of 8 };

    fn read_value(alloc: Global, value: &Value) -> Result<Option<RoleMapper>, NoMemory> {
        read_role_mapper(alloc, value, MOST_LEVELS)
    }
}
