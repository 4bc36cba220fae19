//! Whether the members keep to their bounds, and whether the pipeline leads to realms that are there.

ghost use Rattle.std.specs.Prelude.{◌≡◌, not, position};
ghost use Rattle.std.specs.Option.{option_copied};
ghost use Rattle.ely_config.specs.Realms.{are_few, is_named};
ghost use Rattle.ely_config.specs.Configs.{knows, bounds_fault, missing_realm, target_fault};

use crate::fault::ConfigFault;
use crate::members::Members;
use crate::realm::RealmConfig;
use crate::realm_faults::mapper_fits;
use crate::references::is_named;
use ely_base::Name;
use ely_pipeline::{Pipeline, RealmMapper};
use ely_row::is_realm;

/// How many realms there are at most. One at least is there.
const MOST_REALMS: usize = 16;

/// Whether there are as many realms as are allowed.
fn are_few(realms: &[RealmConfig]) -> bool
    ensures { result ≡ are_few realms.now }
{
    1 <= realms.len() && realms.len() <= MOST_REALMS
}

/// Whether the realms that the pipeline knows are these by their names, in the same order.
fn knows(pipe: &Pipeline, realms: &[RealmConfig]) -> bool
    ensures { result ≡ knows pipe.now realms.now }
{
    let known = pipe.realms.all();
    let are_as_many = known.len() == realms.len();
    are_as_many
        && known
            .iter()
            .zip(realms)
            .all(|(known, realm)| known.0.is(&realm.name))
}

/// The first of the members that doesn't keep to its bounds, whatever the texts of the realms are.
pub(crate) fn bounds_fault(members: &Members) -> Option<ConfigFault>
    ensures { result ≡ bounds_fault members.now }
{
    let realms = members.realms.all();
    if !is_realm(members.digest_realm.bytes()) {
        return Some(ConfigFault::DigestRealm);
    }
    if !are_few(realms) {
        return Some(ConfigFault::Realms);
    }
    if !(members.pipeline.fits() && knows(&members.pipeline, realms)) {
        return Some(ConfigFault::Pipeline);
    }
    if !mapper_fits(members.role_mapper.as_ref()) {
        return Some(ConfigFault::RoleMapper);
    }
    if !members.permissions.fits() {
        return Some(ConfigFault::Permissions);
    }
    None
}

/// The number of the first pair whose realm isn't among these.
fn missing_pair(realms: &[RealmConfig], pairs: &[(Name, Name)]) -> Option<usize>
    ensures { result ≡ position (λ pair. not (is_named realms.now pair.1)) pairs.now }
{
    pairs.iter().position(|pair| !is_named(realms, &pair.1))
}

/// The number of the first pair whose realm isn't among these; a mapper that always gives one realm counts as one pair.
fn missing_realm(realms: &[RealmConfig], mapper: &RealmMapper) -> Option<usize>
    ensures { result ≡ missing_realm realms.now mapper.now }
{
    match mapper {
        RealmMapper::Constant { realm } => {
            if is_named(realms, realm) {
                None
            } else {
                Some(0)
            }
        }
        RealmMapper::MapAfter { pairs, .. } => missing_pair(realms, pairs.all()),
        RealmMapper::TakeAfter { .. } => None,
    }
}

/// Why the pipeline leads to a realm that isn't among these: the default one before those of its mapper.
pub(crate) fn target_fault(realms: &[RealmConfig], pipe: &Pipeline) -> Option<ConfigFault>
    ensures { result ≡ target_fault realms.now pipe.now }
{
    if !is_named(realms, &pipe.default_realm) {
        return Some(ConfigFault::DefaultRealm);
    }
    let mapper = pipe.mapper.as_ref()?;
    let missing = missing_realm(realms, mapper)?;
    Some(ConfigFault::MappedRealm(missing))
}
