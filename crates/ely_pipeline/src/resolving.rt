//! The place of a name, or the first stage on the way that gives nothing.

ghost use Rattle.std.specs.Option.{option_copied};
ghost use Rattle.ely_base.specs.Refused.{Gives};
ghost use Rattle.ely_pipeline.specs.Places.{after_stage, place_of};

use crate::applying::apply;
use crate::pipeline::Pipeline;
use crate::place::{PipeFault, Place};
use crate::realm::{realm_of, rule_of};
use crate::rule::Rule;
use ely_base::{Name, Refused};
use std::alloc::Global;

/// The name after a stage, or its fault where the rule gives nothing. Without a rule the name stays.
fn after_stage(
    alloc: Global,
    fault: PipeFault,
    rule: Option<&Rule>,
    name: Name,
) -> Result<Name, Refused<PipeFault>>
    ensures { Gives result (after_stage fault (option_copied rule.entry) name) }
{
    let Some(rule) = rule else {
        return Ok(name);
    };
    match apply(alloc, rule, &name)? {
        Some(next) => Ok(next),
        None => Err(Refused::Fault(fault)),
    }
}

/// The place of a name. The stages are the decoder, the rule before the realm is chosen, the mapper, the rule after that and
/// the rule of the realm; each works on the name after the one before, the mapper leaves the name, and a stage that is absent
/// changes nothing. The fault is the first stage that gives nothing.
#[tactic(auto, unfolding(crate::specs::Places::place_of))]
pub fn resolve(alloc: Global, pipe: &Pipeline, name: &Name) -> Result<Place, Refused<PipeFault>>
    ensures { Gives result (place_of pipe.now name.now) }
{
    let name = name.copy(alloc)?;
    let name = after_stage(alloc, PipeFault::Undecoded, pipe.decoder.as_ref(), name)?;
    let name = after_stage(alloc, PipeFault::PreRealm, pipe.pre.as_ref(), name)?;
    let realm = realm_of(alloc, pipe, &name)?;
    let name = after_stage(alloc, PipeFault::PostRealm, pipe.post.as_ref(), name)?;
    let rule = rule_of(pipe.realms.all(), &realm);
    let name = after_stage(alloc, PipeFault::RealmStep, rule, name)?;
    Ok(Place { realm, name })
}
