//! Names, texts, numbers and flags of JSON values.

ghost use Rattle.std.specs.Prelude.{◌≡◌, IfOk, []};
ghost use Rattle.serde_json.specs.View.{view};
ghost use Rattle.ely_config_json.specs.Parts.{given, object_of};
ghost use Rattle.ely_config_json.specs.Names.{flag_in, name_of, number_of, text_of};

use crate::parts::{Part, member};
use ely_base::{Bytes, Name, NoMemory, Refused};
use serde_json::{Map, Value};
use std::alloc::Global;

impl Part for Name {
    ghost of = { name_of };

    fn read_value(alloc: Global, value: &Value) -> Result<Option<Name>, NoMemory> {
        let Some(text) = value.as_str() else {
            return Ok(None);
        };
        match Name::read(alloc, text.as_bytes()) {
            Ok(name) => Ok(Some(name)),
            Err(Refused::Fault(_)) => Ok(None),
            Err(Refused::NoMemory) => Err(NoMemory),
        }
    }
}

impl Part for Bytes {
    ghost of = { text_of };

    fn read_value(alloc: Global, value: &Value) -> Result<Option<Bytes>, NoMemory> {
        let Some(text) = value.as_str() else {
            return Ok(None);
        };
        Ok(Some(Bytes::copy_of(alloc, text.as_bytes())?))
    }
}

/// A whole number below 2^32.
fn number_of(value: &Value) -> Option<u32>
    ensures { result ≡ number_of (view value.now) }
{
    u32::try_from(value.as_u64()?).ok()
}

/// The flag of a name. It is false where it isn't there.
pub(crate) fn flag(object: &Map<String, Value>, name: &str) -> Option<bool>
    ensures { result ≡ flag_in name.now (object_of object.now) }
{
    match member(object, name) {
        Some(value) => value.as_bool(),
        None => Some(false),
    }
}

/// The text of a name. It is empty where it isn't there.
pub(crate) fn text(
    alloc: Global,
    object: &Map<String, Value>,
    name: &str,
) -> Result<Option<Bytes>, NoMemory>
    ensures { IfOk result (λ made. made ≡ given text_of [] name.now (object_of object.now)) }
{
    match member(object, name) {
        Some(value) => Bytes::read_value(alloc, value),
        None => Ok(Some(Bytes::of(Vec::new(alloc)))),
    }
}

/// The number of a name. It is the default where it isn't there.
pub(crate) fn number_or(object: &Map<String, Value>, name: &str, default: u32) -> Option<u32>
    ensures { result ≡ given number_of default name.now (object_of object.now) }
{
    match member(object, name) {
        Some(value) => number_of(value),
        None => Some(default),
    }
}
