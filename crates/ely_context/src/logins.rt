//! The logins that are live. Each call searches an ordered map, and none but the count of logins looks at all of them.

ghost use Rattle.std.specs.Prelude.{◌≡◌, [], length, None, OnOk, OnErr, is_some};
ghost use Rattle.std.specs.Borrow.{sem};
ghost use Rattle.std.specs.Option.{option_copied, option_copied_mut};
ghost use Rattle.ely_context.specs.Lending.{LendsLogin};
ghost use Rattle.ely_context.specs.Logins.{AreRising, login_of, with_login, without_login};

use crate::context::Context;
use ely_base::{CtxId, NoMemory};
use std::alloc::Global;
use std::collections::BTreeMap;
use std::marker::Model;

/// The logins that are live, each under its id, seen as the list of both with the ids rising.
#[derive(Drop)]
pub struct Logins {
    contexts: BTreeMap<CtxId, Context>,
}

impl Model for Logins {
    ghost use Rattle.std.specs.Prelude.{ℕ, List};
    ghost use Rattle.ely_context.specs.Contexts.{ContextLogin};
    ghost use Rattle.ely_context.specs.Logins.{AreRising};

    ghost Value = { List (ℕ × ContextLogin) };

    ghost view = { λ l. l.contexts.entries };

    ghost invariant = { λ l. AreRising l.contexts.entries };
}

/// Puts a login under an id.
fn put<L: Drop>(logins: &mut BTreeMap<CtxId, L>, id: CtxId, login: L) -> Result<(), NoMemory>
    ensures put { OnOk result (logins.new.entries ≡ with_login logins.old.entries id login) }
    ensures err { OnErr result (logins.new.entries ≡ logins.old.entries) }
    ensures rise { AreRising logins.new.entries }
{
    logins.insert(id, login)?;
    Ok(())
}

/// Takes away the login under an id, and says whether there was one.
fn remove<L: Drop>(logins: &mut BTreeMap<CtxId, L>, id: CtxId) -> bool
    requires { AreRising logins.old.entries }
    ensures there { result ≡ is_some (login_of logins.old.entries id) }
    ensures removed { logins.new.entries ≡ without_login logins.old.entries id }
    ensures rise { AreRising logins.new.entries }
{
    logins.remove(&id).is_some()
}

impl Logins {
    /// No logins.
    pub fn new(alloc: Global) -> Logins
        ensures { result ≡ [] }
    {
        Logins {
            contexts: BTreeMap::new(alloc),
        }
    }

    /// How many logins are live.
    pub fn len(&self) -> usize
        ensures value { result ≡ length self.now }
        ensures rise { AreRising self.now }
    {
        self.contexts.len()
    }

    /// The login with this id.
    pub fn find(&self, id: CtxId) -> Option<&Context>
        ensures { option_copied result ≡ login_of self.now id }
    {
        self.contexts.get(&id)
    }

    /// The login with this id, to be moved in its place.
    pub fn find_mut(&mut self, id: CtxId) -> Option<&mut Context>
        ensures* lends { sem 𝓛 (LendsLogin self.entry id result) }
        ensures value { option_copied_mut result ≡ login_of self.old id }
        ensures rise { AreRising self.old }
    {
        self.contexts.get_mut(&id)
    }

    /// Adds a login under an id that no live login has.
    pub fn open(&mut self, id: CtxId, context: Context) -> Result<(), NoMemory>
        requires { login_of self.old id ≡ None }
        ensures opened { OnOk result (self.new ≡ with_login self.old id context) }
        ensures err { OnErr result (self.new ≡ self.old) }
    {
        put(&mut self.contexts, id, context)
    }

    /// Ends the login with this id, and says whether there was one.
    pub fn close(&mut self, id: CtxId) -> bool
        ensures there { result ≡ is_some (login_of self.old id) }
        ensures closed { self.new ≡ without_login self.old id }
    {
        remove(&mut self.contexts, id)
    }
}
