//! The paths of faults that lie between members.

ghost use Rattle.std.specs.Prelude.{◌≡◌, ◌++◌, OnOk, OnErr};
ghost use Rattle.ely_base.specs.Appended.{Extends};
ghost use Rattle.ely_config_text.specs.Places.{fault_path, is_constant, mapped_path, reference_path, within_realm, wrong_between, wrong_realm};

use crate::fault::Wrong;
use ely_base::{NoMemory, push_counted, push_text};
use ely_config::{ConfigFault, RealmFault, Reference};
use ely_pipeline::RealmMapper;

/// Puts the path of a reference within its realm behind what is there.
fn push_reference(out: &mut Vec<u8>, reference: Reference) -> Result<(), NoMemory>
    ensures ok { OnOk result (out.new.items ≡ out.old.items ++ reference_path reference) }
    ensures err { OnErr result (Extends out.old.items out.new.items) }
{
    match reference {
        Reference::Authentication => push_text(out, b"/authentication"),
        Reference::Authorization(at) => push_counted(out, b"/authorization/", at as u64),
        Reference::Of => push_text(out, b"/of"),
    }
}

/// Puts the path of a realm's fault within the realm behind what is there.
fn push_within(out: &mut Vec<u8>, fault: RealmFault) -> Result<(), NoMemory>
    ensures ok { OnOk result (out.new.items ≡ out.old.items ++ within_realm fault) }
    ensures err { OnErr result (Extends out.old.items out.new.items) }
{
    match fault {
        RealmFault::Twice => push_text(out, b"/name"),
        RealmFault::RoleMapper => push_text(out, b"/role-mapper"),
        RealmFault::Authorization => push_text(out, b"/authorization"),
        RealmFault::Limit => push_text(out, b"/max-entries"),
        RealmFault::Unknown(reference) => push_reference(out, reference),
        RealmFault::Nested(reference) => push_reference(out, reference),
        RealmFault::Users(_) => push_text(out, b"/users"),
        RealmFault::Groups(_) => push_text(out, b"/groups"),
    }
}

/// Puts the path of the realm of a mapper behind what is there.
fn push_mapped(out: &mut Vec<u8>, constant: bool, at: u64) -> Result<(), NoMemory>
    ensures ok { OnOk result (out.new.items ≡ out.old.items ++ mapped_path constant at) }
    ensures err { OnErr result (Extends out.old.items out.new.items) }
{
    if constant {
        return push_text(out, b"/realm-mapper/realm");
    }
    push_counted(out, b"/realm-mapper/pairs/", at)?;
    push_text(out, b"/1")
}

/// Puts the path of the fault behind what is there, where the realm mapper is one that always leads to one realm, or isn't.
pub(crate) fn push_place(
    out: &mut Vec<u8>,
    constant: bool,
    fault: ConfigFault,
) -> Result<(), NoMemory>
    ensures ok { OnOk result (out.new.items ≡ out.old.items ++ fault_path constant fault) }
    ensures err { OnErr result (Extends out.old.items out.new.items) }
{
    match fault {
        ConfigFault::DigestRealm => push_text(out, b"/digest-realm"),
        ConfigFault::Realms => push_text(out, b"/realms"),
        ConfigFault::Pipeline => push_text(out, b"/"),
        ConfigFault::RoleMapper => push_text(out, b"/role-mapper"),
        ConfigFault::Permissions => push_text(out, b"/permissions"),
        ConfigFault::Realm { at, fault } => {
            push_counted(out, b"/realms/", at as u64)?;
            push_within(out, fault)
        }
        ConfigFault::DefaultRealm => push_text(out, b"/default-realm"),
        ConfigFault::MappedRealm(at) => push_mapped(out, constant, at as u64),
    }
}

/// What is wrong with a realm.
fn wrong_realm(fault: RealmFault) -> Wrong
    ensures { result ≡ wrong_realm fault }
{
    match fault {
        RealmFault::Twice => Wrong::Twice,
        RealmFault::RoleMapper => Wrong::Range,
        RealmFault::Authorization => Wrong::Range,
        RealmFault::Limit => Wrong::Range,
        RealmFault::Unknown(_) => Wrong::Unknown,
        RealmFault::Nested(_) => Wrong::Nested,
        RealmFault::Users(fault) => Wrong::Text(fault),
        RealmFault::Groups(fault) => Wrong::Text(fault),
    }
}

/// What is wrong between members.
pub(crate) fn wrong_between(fault: ConfigFault) -> Wrong
    ensures { result ≡ wrong_between fault }
{
    match fault {
        ConfigFault::DigestRealm => Wrong::Range,
        ConfigFault::Realms => Wrong::Range,
        ConfigFault::Pipeline => Wrong::Range,
        ConfigFault::RoleMapper => Wrong::Range,
        ConfigFault::Permissions => Wrong::Range,
        ConfigFault::Realm { fault, .. } => wrong_realm(fault),
        ConfigFault::DefaultRealm => Wrong::Unknown,
        ConfigFault::MappedRealm(_) => Wrong::Unknown,
    }
}

/// Whether the mapper leads always to one realm.
pub(crate) fn is_constant(mapper: &Option<RealmMapper>) -> bool
    ensures { result ≡ is_constant mapper.now }
{
    match mapper {
        Some(RealmMapper::Constant { .. }) => true,
        Some(RealmMapper::MapAfter { .. }) => false,
        Some(RealmMapper::TakeAfter { .. }) => false,
        None => false,
    }
}
