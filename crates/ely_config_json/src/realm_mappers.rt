//! Realm mappers of JSON values.

ghost use Rattle.std.specs.Prelude.{◌≡◌, IfOk, codes, option_map};
ghost use Rattle.serde_json.specs.View.{view};
ghost use Rattle.ely_pipeline.specs.declared.mapper.RealmMapper.TheVariants.{Constant, TakeAfter};
ghost use Rattle.ely_config_json.specs.Names.{name_of};
ghost use Rattle.ely_config_json.specs.Parts.{by_word, needed, object_of};
ghost use Rattle.ely_config_json.specs.RealmMappers.{map_after_in, realm_mapper_in, realm_mapper_of};

use crate::parts::{Part, both, needed, word};
use ely_base::NoMemory;
use ely_pipeline::RealmMapper;
use serde_json::{Map, Value};
use std::alloc::Global;

/// The mapper that always gives one realm.
fn constant(alloc: Global, object: &Map<String, Value>) -> Result<Option<RealmMapper>, NoMemory>
    ensures { IfOk result (λ made. made
        ≡ option_map Constant (needed name_of (codes "realm") (object_of object.now))) }
{
    match needed(alloc, object, "realm")? {
        Some(realm) => Ok(Some(RealmMapper::Constant { realm })),
        None => Ok(None),
    }
}

/// The mapper that takes what stands behind a mark.
fn take_after(alloc: Global, object: &Map<String, Value>) -> Result<Option<RealmMapper>, NoMemory>
    ensures { IfOk result (λ made. made
        ≡ option_map TakeAfter (needed name_of (codes "mark") (object_of object.now))) }
{
    match needed(alloc, object, "mark")? {
        Some(mark) => Ok(Some(RealmMapper::TakeAfter { mark })),
        None => Ok(None),
    }
}

/// The mapper by pairs.
fn map_after(alloc: Global, object: &Map<String, Value>) -> Result<Option<RealmMapper>, NoMemory>
    ensures { IfOk result (λ made. made ≡ map_after_in (object_of object.now)) }
{
    let mark = needed(alloc, object, "mark")?;
    let pairs = needed(alloc, object, "pairs")?;
    match both(mark, pairs) {
        Some((mark, pairs)) => Ok(Some(RealmMapper::MapAfter { mark, pairs })),
        None => Ok(None),
    }
}

/// The mapper of an object.
fn realm_mapper_in(
    alloc: Global,
    object: &Map<String, Value>,
) -> Result<Option<RealmMapper>, NoMemory>
    ensures { IfOk result (λ made. made
        ≡ by_word realm_mapper_in (codes "rule") (object_of object.now)) }
{
    let Some(word) = word(object, "rule") else {
        return Ok(None);
    };
    if word == "constant" {
        constant(alloc, object)
    } else if word == "map-after" {
        map_after(alloc, object)
    } else if word == "take-after" {
        take_after(alloc, object)
    } else {
        Ok(None)
    }
}

impl Part for RealmMapper {
    ghost of = { realm_mapper_of };

    fn read_value(alloc: Global, value: &Value) -> Result<Option<RealmMapper>, NoMemory> {
        match value.as_object() {
            Some(object) => realm_mapper_in(alloc, object),
            None => Ok(None),
        }
    }
}
