//! Pipelines of JSON objects.

ghost use Rattle.std.specs.Prelude.{◌≡◌, IfOk, codes};
ghost use Rattle.serde_json.specs.View.{view};
ghost use Rattle.ely_config_json.specs.Pipelines.{default_realm_in, targets_in, known_in, known_of, pipeline_in, rules_after, rules_before};
ghost use Rattle.ely_config_json.specs.Parts.{object_of};

use crate::parts::{Part, both, member, needed, optional};
use ely_base::{Items, Name, NoMemory};
use ely_pipeline::{Pipeline, RealmMapper, Rule};
use serde_json::{Map, Value};
use std::alloc::Global;

/// A realm as a pipeline knows it: its name, and the last rule for its names.
type Known = (Name, Option<Rule>);

impl Part for Known {
    ghost of = { known_of };

    fn read_value(alloc: Global, value: &Value) -> Result<Option<Known>, NoMemory> {
        let Some(object) = value.as_object() else {
            return Ok(None);
        };
        let name = needed(alloc, object, "name")?;
        let rule = optional(alloc, object, "transformer")?;
        Ok(both(name, rule))
    }
}

/// The realms that the pipeline knows: those of the configuration, or else the realm `main`.
fn known_in(alloc: Global, object: &Map<String, Value>) -> Result<Option<Items<Known>>, NoMemory>
    ensures { IfOk result (λ made. made ≡ known_in (object_of object.now)) }
{
    if let Some(value) = member(object, "realms") {
        return Items::read_value(alloc, value);
    }
    let mut known = Vec::new(alloc);
    known.push((Name::of(Vec::from_slice(alloc, b"main")?), None))?;
    Ok(Some(Items::of(known)))
}

/// The realm where none is chosen: the first one where it isn't said.
fn default_realm_in(
    alloc: Global,
    known: &[Known],
    object: &Map<String, Value>,
) -> Result<Option<Name>, NoMemory>
    ensures { IfOk result (λ made. made
        ≡ default_realm_in known.now (object_of object.now)) }
{
    if let Some(value) = member(object, "default-realm") {
        return Name::read_value(alloc, value);
    }
    match known.first() {
        Some(first) => Ok(Some(first.0.copy(alloc)?)),
        None => Ok(None),
    }
}

/// The default realm and all realms.
fn targets_in(
    alloc: Global,
    object: &Map<String, Value>,
) -> Result<Option<(Name, Items<Known>)>, NoMemory>
    ensures { IfOk result (λ made. made ≡ targets_in (object_of object.now)) }
{
    let Some(known) = known_in(alloc, object)? else {
        return Ok(None);
    };
    match default_realm_in(alloc, known.all(), object)? {
        Some(name) => Ok(Some((name, known))),
        None => Ok(None),
    }
}

/// The rules before the realm is chosen.
fn rules_before(
    alloc: Global,
    object: &Map<String, Value>,
) -> Result<Option<(Option<Rule>, Option<Rule>)>, NoMemory>
    ensures { IfOk result (λ made. made ≡ rules_before (object_of object.now)) }
{
    let decoder = optional(alloc, object, "decoder")?;
    let pre = optional(alloc, object, "pre-realm")?;
    Ok(both(decoder, pre))
}

/// What chooses the realm, and the rule after that.
fn rules_after(
    alloc: Global,
    object: &Map<String, Value>,
) -> Result<Option<(Option<RealmMapper>, Option<Rule>)>, NoMemory>
    ensures { IfOk result (λ made. made ≡ rules_after (object_of object.now)) }
{
    let mapper = optional(alloc, object, "realm-mapper")?;
    let post = optional(alloc, object, "post-realm")?;
    Ok(both(mapper, post))
}

/// The pipeline of an object.
pub(crate) fn pipeline_in(
    alloc: Global,
    object: &Map<String, Value>,
) -> Result<Option<Pipeline>, NoMemory>
    ensures { IfOk result (λ made. made ≡ pipeline_in (object_of object.now)) }
{
    let before = rules_before(alloc, object)?;
    let after = rules_after(alloc, object)?;
    let targets = targets_in(alloc, object)?;
    match both(both(before, after), targets) {
        Some((((decoder, pre), (mapper, post)), (default_realm, realms))) => Ok(Some(Pipeline {
            decoder,
            pre,
            mapper,
            default_realm,
            post,
            realms,
        })),
        None => Ok(None),
    }
}
