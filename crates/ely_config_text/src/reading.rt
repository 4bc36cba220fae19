//! A configuration out of a line of JSON.

ghost use Rattle.std.specs.Prelude.{◌≡◌, IfOk, option_map};
ghost use Rattle.ely_base.specs.Refused.{Gives};
ghost use Rattle.serde_json.specs.View.{view};
ghost use Rattle.ely_config.specs.Configs.{config_of};
ghost use Rattle.ely_config_tree.specs.Paths.{path_text};
ghost use Rattle.ely_config_text.specs.Places.{fault_path, wrong_between, wrong_of};
ghost use Rattle.ely_config_text.specs.Texts.{config_in, judged, placed, value_in};

use crate::fault::{TextFault, wrong_of};
use crate::place::{is_constant, push_place, wrong_between};
use ely_base::{Bytes, NoMemory, Refused, discard};
use ely_config::{Config, ConfigFault, Members};
use ely_config_json::read_members;
use ely_config_tree::{TreeFault, push_path, tree_fault};
use serde_json::Value;
use std::alloc::Global;

/// The JSON value whose text the line is, where it is one.
fn read_value(alloc: Global, line: &[u8]) -> Result<Option<Value>, NoMemory>
    ensures { IfOk result (λ read. option_map view read ≡ value_in line.now) }
{
    match Value::from_slice(alloc, line) {
        Ok(value) => Ok(Some(value)),
        Err(error) => {
            if error.is_memory() {
                Err(NoMemory)
            } else {
                Ok(None)
            }
        }
    }
}

/// The fault of a tree, with its path.
fn told(alloc: Global, fault: &TreeFault) -> Result<TextFault, NoMemory>
    ensures { IfOk result (λ told. told
        ≡ TextFault.At (path_text fault.now.steps) (wrong_of fault.now.kind)) }
{
    let mut path = Vec::new(alloc);
    push_path(&mut path, fault)?;
    Ok(TextFault::At {
        path: Bytes::of(path),
        wrong: wrong_of(fault.kind()),
    })
}

/// A fault between members, with its path.
fn told_between(alloc: Global, constant: bool, fault: ConfigFault) -> Result<TextFault, NoMemory>
    ensures { IfOk result (λ told. told
        ≡ TextFault.At (fault_path constant fault) (wrong_between fault)) }
{
    let mut path = Vec::new(alloc);
    push_place(&mut path, constant, fault)?;
    Ok(TextFault::At {
        path: Bytes::of(path),
        wrong: wrong_between(fault),
    })
}

/// The configuration of these members, or the first fault between them.
fn placed(alloc: Global, members: Members) -> Result<Config, Refused<TextFault>>
    ensures { Gives result (placed members (config_of members)) }
{
    let constant = is_constant(&members.pipeline.mapper);
    match Config::of(alloc, members) {
        Ok(config) => Ok(config),
        Err(Refused::NoMemory) => Err(Refused::NoMemory),
        Err(Refused::Fault(fault)) => {
            let told = told_between(alloc, constant, fault)?;
            Err(Refused::Fault(told))
        }
    }
}

/// The configuration that the value is, or its first fault.
fn judge(alloc: Global, value: &Value) -> Result<Config, Refused<TextFault>>
    ensures { Gives result (judged (view value.now)) }
{
    if let Some(fault) = tree_fault(alloc, value)? {
        let told = told(alloc, &fault)?;
        return Err(Refused::Fault(told));
    }
    match read_members(alloc, value)? {
        Some(members) => placed(alloc, members),
        None => Err(Refused::Fault(TextFault::NotJson)),
    }
}

/// The configuration that the line is, or the first fault of its text: that it is no JSON; then a fault of its tree; then, realm by
/// realm, a name that stands twice, a realm that is named and isn't there or can't stand there, and the texts of its users and of
/// its groups; then the default realm, and the realms of the realm mapper.
pub fn read_config(alloc: Global, line: &[u8]) -> Result<Config, Refused<TextFault>>
    ensures { Gives result (config_in line.now) }
{
    let Some(value) = read_value(alloc, line)? else {
        return Err(Refused::Fault(TextFault::NotJson));
    };
    let judged = judge(alloc, &value);
    discard(value);
    judged
}
