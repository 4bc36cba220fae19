//! How realms are referred to by their names, and why a reference isn't taken.

ghost use Rattle.std.specs.Prelude.{◌≡◌};
ghost use Rattle.std.specs.Option.{option_copied};
ghost use Rattle.ely_config.specs.Realms.{is_named, realm_named, is_basic, is_uncached, stands_at, reference_fault, first_reference, aggregate_fault, caching_fault};

use crate::fault::{RealmFault, Reference};
use crate::realm::{RealmConfig, RealmKind};
use ely_base::Name;

/// How many realms an aggregate has attributes of at most. One at least gives it some.
const MOST_PARTS: usize = 15;

/// How many keys a cache keeps at most. One at least is kept.
const MOST_KEYS: u32 = 65_536;

/// Whether one of the realms has this name.
pub(crate) fn is_named(realms: &[RealmConfig], name: &Name) -> bool
    ensures { result ≡ is_named realms.now name.now }
{
    realms.iter().any(|realm| realm.name.is(name))
}

/// The first realm of this name.
pub(crate) fn realm_named<'a>(realms: &'a [RealmConfig], name: &Name) -> Option<&'a RealmConfig>
    ensures { option_copied result ≡ realm_named realms.now name.now }
{
    realms.iter().find(|realm| realm.name.is(name))
}

/// Whether realms of this kind have identities of their own.
fn is_basic(kind: &RealmKind) -> bool
    ensures { result ≡ is_basic kind.now }
{
    match kind {
        RealmKind::Modifiable => true,
        RealmKind::Properties { .. } => true,
        RealmKind::Aggregate { .. } => false,
        RealmKind::Caching { .. } => false,
    }
}

/// Whether realms of this kind keep no keys.
fn is_uncached(kind: &RealmKind) -> bool
    ensures { result ≡ is_uncached kind.now }
{
    match kind {
        RealmKind::Modifiable => true,
        RealmKind::Properties { .. } => true,
        RealmKind::Aggregate { .. } => true,
        RealmKind::Caching { .. } => false,
    }
}

/// Whether a realm of this kind can stand at the reference.
fn stands_at(reference: Reference, kind: &RealmKind) -> bool
    ensures { result ≡ stands_at reference kind.now }
{
    match reference {
        Reference::Authentication => is_basic(kind),
        Reference::Authorization(_) => is_basic(kind),
        Reference::Of => is_uncached(kind),
    }
}

/// Why a reference by this name isn't taken. It is judged by the first of all realms that has the name.
fn reference_fault(all: &[RealmConfig], reference: Reference, name: &Name) -> Option<RealmFault>
    ensures { result ≡ reference_fault all.now reference name.now }
{
    match realm_named(all, name) {
        None => Some(RealmFault::Unknown(reference)),
        Some(realm) => {
            if stands_at(reference, &realm.kind) {
                None
            } else {
                Some(RealmFault::Nested(reference))
            }
        }
    }
}

/// The first fault of the references of an aggregate for attributes.
fn first_reference(all: &[RealmConfig], names: &[Name]) -> Option<RealmFault>
    ensures { result ≡ first_reference all.now 0 names.now }
{
    for (at, name) in names.iter().enumerate() {
        if let Some(fault) = reference_fault(all, Reference::Authorization(at), name) {
            return Some(fault);
        }
    }
    None
}

/// Why an aggregate of the realms with these names isn't taken.
pub(crate) fn aggregate_fault(
    all: &[RealmConfig],
    authentication: &Name,
    authorization: &[Name],
) -> Option<RealmFault>
    ensures { result ≡ aggregate_fault all.now authentication.now authorization.now }
{
    if !(1 <= authorization.len() && authorization.len() <= MOST_PARTS) {
        return Some(RealmFault::Authorization);
    }
    if let Some(fault) = reference_fault(all, Reference::Authentication, authentication) {
        return Some(fault);
    }
    first_reference(all, authorization)
}

/// Why a cache of so many keys for the realm with this name isn't taken.
pub(crate) fn caching_fault(all: &[RealmConfig], of: &Name, limit: u32) -> Option<RealmFault>
    ensures { result ≡ caching_fault all.now of.now limit }
{
    if !(1 <= limit && limit <= MOST_KEYS) {
        return Some(RealmFault::Limit);
    }
    reference_fault(all, Reference::Of, of)
}
