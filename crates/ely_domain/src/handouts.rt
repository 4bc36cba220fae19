//! What the authorized logins hand out, by their ids.

ghost use Rattle.std.specs.Prelude.{◌≡◌, [], OnOk, OnErr};
ghost use Rattle.ely_context.specs.Logins.{AreRising, login_of, with_login, without_login};

use crate::prepared::Prepared;
use ely_base::{CtxId, NoMemory};
use std::alloc::Global;
use std::collections::BTreeMap;
use std::marker::Model;

/// What each authorized login hands out, under its id.
#[derive(Drop)]
pub struct Handouts {
    prepared: BTreeMap<CtxId, Prepared>,
}

impl Model for Handouts {
    ghost use Rattle.std.specs.Prelude.{ℕ, List};
    ghost use Rattle.ely_domain.specs.declared.prepared.Prepared.{Prepared};
    ghost use Rattle.ely_context.specs.Logins.{AreRising};

    ghost Value = { List (ℕ × Prepared) };

    ghost view = { λ h. h.prepared.entries };

    ghost invariant = { λ h. AreRising h.prepared.entries };
}

/// Puts a value under an id.
fn put<T: Drop>(values: &mut BTreeMap<CtxId, T>, id: CtxId, value: T) -> Result<(), NoMemory>
    ensures put { OnOk result (values.new.entries ≡ with_login values.old.entries id value) }
    ensures err { OnErr result (values.new.entries ≡ values.old.entries) }
    ensures rise { AreRising values.new.entries }
{
    values.insert(id, value)?;
    Ok(())
}

impl Handouts {
    /// Nothing to hand out.
    pub(crate) fn new(alloc: Global) -> Handouts
        ensures { result ≡ [] }
    {
        Handouts {
            prepared: BTreeMap::new(alloc),
        }
    }

    /// Keeps what the login with this id hands out.
    pub(crate) fn keep(&mut self, id: CtxId, prepared: Prepared) -> Result<(), NoMemory>
        ensures kept { OnOk result (self.new ≡ with_login self.old id prepared) }
        ensures err { OnErr result (self.new ≡ self.old) }
    {
        put(&mut self.prepared, id, prepared)
    }

    /// Takes out what the login with this id hands out.
    pub(crate) fn take(&mut self, id: CtxId) -> Option<Prepared>
        ensures taken { result ≡ login_of self.old id }
        ensures left { self.new ≡ without_login self.old id }
    {
        self.prepared.remove(&id)
    }
}
