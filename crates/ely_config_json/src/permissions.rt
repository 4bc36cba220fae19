//! Permissions of JSON values.

ghost use Rattle.std.specs.Prelude.{◌≡◌, IfOk, [], codes, option_and_then, option_map};
ghost use Rattle.serde_json.specs.Find.{as_str};
ghost use Rattle.serde_json.specs.View.{view};
ghost use Rattle.ely_config_json.specs.Names.{names_of};
ghost use Rattle.ely_config_json.specs.Parts.{given, needed, object_of};
ghost use Rattle.ely_config_json.specs.Permissions.{mode_of, permissions_in, permissions_of, row_in, row_of};

use crate::names::flag;
use crate::parts::{Part, both, list, needed, word};
use ely_base::{Bytes, Items, Name, NoMemory};
use ely_perm::{Mode, PermRow, Permissions};
use serde_json::{Map, Value};
use std::alloc::Global;

/// The mode of a word.
fn mode_of(word: &str) -> Option<Mode>
    ensures { result ≡ mode_of word.now }
{
    if word == "first" {
        Some(Mode::First)
    } else if word == "and" {
        Some(Mode::And)
    } else if word == "or" {
        Some(Mode::Or)
    } else if word == "xor" {
        Some(Mode::Xor)
    } else if word == "unless" {
        Some(Mode::Unless)
    } else {
        None
    }
}

/// The mode of an object.
fn mode_in(object: &Map<String, Value>) -> Option<Mode>
    ensures { result
        ≡ option_and_then mode_of (needed as_str (codes "mode") (object_of object.now)) }
{
    mode_of(word(object, "mode")?)
}

/// The row of an object. It is for nobody where it isn't said whom it is for.
fn row_in(alloc: Global, object: &Map<String, Value>) -> Result<Option<PermRow>, NoMemory>
    ensures { IfOk result (λ made. made ≡ row_in (object_of object.now)) }
{
    let principals: Option<Items<Name>> = list(alloc, object, "principals")?;
    let roles: Option<Items<Name>> = list(alloc, object, "roles")?;
    let grant: Option<Items<Bytes>> = needed(alloc, object, "grant")?;
    let match_all = flag(object, "match-all");
    match both(both(principals, roles), both(match_all, grant)) {
        Some(((principals, roles), (match_all, grant))) => Ok(Some(PermRow {
            principals,
            roles,
            match_all,
            grant,
        })),
        None => Ok(None),
    }
}

impl Part for PermRow {
    ghost of = { row_of };

    fn read_value(alloc: Global, value: &Value) -> Result<Option<PermRow>, NoMemory> {
        match value.as_object() {
            Some(object) => row_in(alloc, object),
            None => Ok(None),
        }
    }
}

/// The permissions of an object.
fn permissions_in(
    alloc: Global,
    object: &Map<String, Value>,
) -> Result<Option<Permissions>, NoMemory>
    ensures { IfOk result (λ made. made ≡ permissions_in (object_of object.now)) }
{
    let rows: Option<Items<PermRow>> = needed(alloc, object, "rows")?;
    match both(mode_in(object), rows) {
        Some((mode, rows)) => Ok(Some(Permissions { mode, rows })),
        None => Ok(None),
    }
}

impl Part for Permissions {
    ghost of = { permissions_of };

    fn read_value(alloc: Global, value: &Value) -> Result<Option<Permissions>, NoMemory> {
        match value.as_object() {
            Some(object) => permissions_in(alloc, object),
            None => Ok(None),
        }
    }
}
