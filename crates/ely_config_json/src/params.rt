//! What derives keys of clear passwords, as JSON objects say it.

ghost use Rattle.std.specs.Prelude.{◌≡◌, IfOk, [], None, codes};
ghost use Rattle.serde_json.specs.View.{view};
ghost use Rattle.ely_row.specs.Salts.{is_salt_or_none};
ghost use Rattle.ely_config_json.specs.Names.{number_of, text_of};
ghost use Rattle.ely_config_json.specs.Params.{base64_in, bounded, params_in, scram_of};
ghost use Rattle.ely_config_json.specs.Parts.{given, object_of, optional};

use crate::names::{number_or, text};
use crate::parts::{Part, both, member};
use ely_base::{Bytes, NoMemory, Refused, read_base64};
use ely_row::Params;
use serde_json::{Map, Value};
use std::alloc::Global;

/// The bytes of a base64 text (RFC 4648 section 4).
fn base64_in(alloc: Global, value: &Value) -> Result<Option<Bytes>, NoMemory>
    ensures { IfOk result (λ made. made ≡ base64_in (view value.now)) }
{
    let Some(text) = value.as_str() else {
        return Ok(None);
    };
    match read_base64(alloc, text.as_bytes()) {
        Ok(bytes) => Ok(Some(bytes)),
        Err(Refused::Fault(_)) => Ok(None),
        Err(Refused::NoMemory) => Err(NoMemory),
    }
}

/// The salt for every password, where it is there.
fn salt_in(alloc: Global, object: &Map<String, Value>) -> Result<Option<Option<Bytes>>, NoMemory>
    ensures { IfOk result (λ made. made
        ≡ optional base64_in (codes "salt") (object_of object.now)) }
{
    let Some(value) = member(object, "salt") else {
        return Ok(Some(None));
    };
    match base64_in(alloc, value)? {
        Some(salt) => Ok(Some(Some(salt))),
        None => Ok(None),
    }
}

/// The turns and the salt of a value.
fn scram_of(alloc: Global, value: &Value) -> Result<Option<(u32, Option<Bytes>)>, NoMemory>
    ensures { IfOk result (λ made. made ≡ scram_of (view value.now)) }
{
    let Some(object) = value.as_object() else {
        return Ok(None);
    };
    let turns = number_or(object, "turns", 4096);
    let salt = salt_in(alloc, object)?;
    Ok(both(turns, salt))
}

/// The turns and the salt of a configuration: 4,096 turns and no salt where they aren't said.
fn scram_in(
    alloc: Global,
    object: &Map<String, Value>,
) -> Result<Option<(u32, Option<Bytes>)>, NoMemory>
    ensures { IfOk result (λ made. made
        ≡ given scram_of (4096, None) (codes "scram") (object_of object.now)) }
{
    match member(object, "scram") {
        Some(value) => scram_of(alloc, value),
        None => Ok(Some((4096, None))),
    }
}

/// Whether there is no salt, or one of 1 to 64 bytes.
fn salt_fits(salt: &Option<Bytes>) -> bool
    ensures { result ≡ is_salt_or_none salt.now }
{
    match salt {
        None => true,
        Some(salt) => 1 <= salt.bytes().len() && salt.bytes().len() <= 64,
    }
}

/// The parts together, where they are in their bounds.
fn bounded(turns: u32, salt: Option<Bytes>, seed: Bytes) -> Option<Params>
    ensures { result ≡ bounded (record { turns = turns; salt = salt; seed = seed }) }
{
    let has_turns = 1 <= turns && turns <= 1_000_000;
    if has_turns && salt_fits(&salt) && seed.bytes().len() <= 255 {
        Some(Params::of(turns, salt, seed))
    } else {
        None
    }
}

/// What derives keys: 4,096 turns, derived salts and an empty seed where nothing else is said.
pub(crate) fn params_in(
    alloc: Global,
    object: &Map<String, Value>,
) -> Result<Option<Params>, NoMemory>
    ensures { IfOk result (λ made. made ≡ params_in (object_of object.now)) }
{
    let scram = scram_in(alloc, object)?;
    let seed = text(alloc, object, "seed")?;
    match both(scram, seed) {
        Some(((turns, salt), seed)) => Ok(bounded(turns, salt, seed)),
        None => Ok(None),
    }
}
