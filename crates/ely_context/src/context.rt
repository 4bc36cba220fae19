//! A login and the calls that move it. None of them takes memory.

ghost use Rattle.std.specs.Prelude.{◌≡◌, None, Some, OnOk, IfOk, IfErr, OnErr};
ghost use Rattle.std.specs.Option.{option_map, option_and_then, option_copied};
ghost use Rattle.ely_context.specs.Contexts.{naming};
ghost use Rattle.ely_context.specs.Stages.{state_of, pin_of, key_of, evidence_of, loading_pin, named_parts, proved_pin, complete_pin, checked_parts};
ghost use Rattle.ely_context.specs.ContextTable.{begin, name1, name2, check1, check2, authorize, succeed, fail, after};

use crate::naming::Naming;
use crate::pin::Pin;
use crate::stage::Stage;
use ely_base::{Bytes, Serial};
use ely_cred::Ready;
use ely_login::{Evidence, StateWord};
use ely_row::Mech;
use std::marker::Model;

/// A login: the number of its open, its mechanism, its nonce and how far it has come. A call that the table of states has
/// no transition for changes nothing and tells the state.
#[derive(Drop)]
pub struct Context {
    serial: Serial,
    mech: Mech,
    nonce: Bytes,
    stage: Stage<Pin, Naming, Evidence>,
}

impl Model for Context {
    ghost use Rattle.ely_context.specs.Contexts.{ContextLogin};

    ghost Value = { ContextLogin };

    ghost view = { λ c. record {
      serial = c.serial;
      mech = c.mech;
      nonce = c.nonce;
      stage = c.stage;
    } };
}

impl Context {
    /// A fresh login.
    pub fn begin(serial: Serial, mech: Mech, nonce: Bytes) -> Context
        ensures { result ≡ begin serial mech nonce }
    {
        Context {
            serial,
            mech,
            nonce,
            stage: Stage::Fresh,
        }
    }

    /// The word of its state.
    pub fn state(&self) -> StateWord
        ensures { result ≡ state_of self.now.stage }
    {
        self.stage.state()
    }

    /// The number of its open.
    pub fn serial(&self) -> Serial
        ensures { result ≡ self.now.serial }
    {
        self.serial
    }

    /// Its mechanism.
    pub fn mech(&self) -> Mech
        ensures { result ≡ self.now.mech }
    {
        self.mech
    }

    /// Its nonce.
    pub fn nonce(&self) -> &Bytes
        ensures { result.now ≡ self.now.nonce }
    {
        &self.nonce
    }

    /// What its naming pinned, from then on until it fails.
    pub fn pin(&self) -> Option<&Pin>
        ensures { option_copied result ≡ pin_of self.now.stage }
    {
        self.stage.pin()
    }

    /// The key by which it is judged, while it is named or checked.
    pub fn ready(&self) -> Option<&Ready>
        ensures { option_copied result ≡ option_map (λ key. key.ready) (key_of self.now.stage) }
    {
        Some(&self.stage.key()?.ready)
    }

    /// The server's first message that its client was sent, while it is named or checked.
    pub fn server_first(&self) -> Option<&Bytes>
        ensures { option_copied result
            ≡ option_and_then (λ key. key.server_first) (key_of self.now.stage) }
    {
        self.stage.key()?.server_first.as_ref()
    }

    /// What it shows, while it is checked.
    pub fn evidence(&self) -> Option<&Evidence>
        ensures { option_copied result ≡ evidence_of self.now.stage }
    {
        self.stage.evidence()
    }

    /// What it pinned, while it is loading.
    pub fn loading(&self) -> Option<&Pin>
        ensures { option_copied result ≡ loading_pin self.now.stage }
    {
        self.stage.loading()
    }

    /// What it pinned and what it is judged by, while it is named.
    pub fn named(&self) -> Option<(&Pin, &Naming)>
        ensures { option_map (λ parts. (parts.0.now, parts.1.now)) result
            ≡ named_parts self.now.stage }
    {
        self.stage.named()
    }

    /// What it pinned, while it is proved.
    pub fn proved(&self) -> Option<&Pin>
        ensures { option_copied result ≡ proved_pin self.now.stage }
    {
        self.stage.proved()
    }

    /// What it pinned, once it is complete.
    pub fn complete(&self) -> Option<&Pin>
        ensures { option_copied result ≡ complete_pin self.now.stage }
    {
        self.stage.complete()
    }

    /// What it pinned, what it is judged by and what it shows, while it is checked.
    pub fn checking(&self) -> Option<(&Pin, &Naming, &Evidence)>
        ensures { option_map (λ parts. (parts.0.now, parts.1.now, parts.2.now)) result
            ≡ checked_parts self.now.stage }
    {
        self.stage.checking()
    }

    /// Names a fresh login. A refusal hands the pin back.
    pub fn name1(&mut self, pin: Pin) -> Result<(), (StateWord, Pin)>
        ensures moved { OnOk result (after self.old (name1 pin) ≡ Some self.new) }
        ensures refused { OnErr result (after self.old (name1 pin) ≡ None) }
        ensures told { IfErr result (λ back. back ≡ (state_of self.old.stage, pin)) }
        ensures err { OnErr result (self.new ≡ self.old) }
    {
        self.stage.name1(pin)
    }

    /// Gives a login that was named its key, and the server's first message where its client is sent one.
    pub fn name2(&mut self, ready: Ready, server_first: Option<Bytes>) -> Result<(), StateWord>
        ensures moved { OnOk result (after self.old (name2 (naming ready server_first))
            ≡ Some self.new) }
        ensures refused { OnErr result (after self.old (name2 (naming ready server_first)) ≡ None) }
        ensures told { IfErr result (λ state. state ≡ state_of self.old.stage) }
        ensures err { OnErr result (self.new ≡ self.old) }
    {
        self.stage.name2(Naming {
            ready,
            server_first,
        })
    }

    /// Keeps what a named login shows. A refusal hands it back.
    pub fn check1(&mut self, evidence: Evidence) -> Result<(), (StateWord, Evidence)>
        ensures moved { OnOk result (after self.old (check1 evidence) ≡ Some self.new) }
        ensures refused { OnErr result (after self.old (check1 evidence) ≡ None) }
        ensures told { IfErr result (λ back. back ≡ (state_of self.old.stage, evidence)) }
        ensures err { OnErr result (self.new ≡ self.old) }
    {
        self.stage.check1(evidence)
    }

    /// Ends a check: the login is proved, or it failed.
    pub fn check2(&mut self, proved: bool) -> Result<(), StateWord>
        ensures moved { OnOk result (after self.old (check2 proved) ≡ Some self.new) }
        ensures refused { OnErr result (after self.old (check2 proved) ≡ None) }
        ensures told { IfErr result (λ state. state ≡ state_of self.old.stage) }
        ensures err { OnErr result (self.new ≡ self.old) }
    {
        self.stage.check2(proved)
    }

    /// Authorizes a proved login that may log in, and leaves one proved that may not. It tells which.
    pub fn authorize(&mut self, login: bool) -> Result<bool, StateWord>
        ensures moved { OnOk result (after self.old (authorize login) ≡ Some self.new) }
        ensures which { IfOk result (λ authorized. authorized ≡ login) }
        ensures refused { OnErr result (after self.old (authorize login) ≡ None) }
        ensures told { IfErr result (λ state. state ≡ state_of self.old.stage) }
        ensures err { OnErr result (self.new ≡ self.old) }
    {
        self.stage.authorize(login)?;
        Ok(login)
    }

    /// Completes an authorized login.
    pub fn succeed(&mut self) -> Result<(), StateWord>
        ensures moved { OnOk result (after self.old succeed ≡ Some self.new) }
        ensures refused { OnErr result (after self.old succeed ≡ None) }
        ensures told { IfErr result (λ state. state ≡ state_of self.old.stage) }
        ensures err { OnErr result (self.new ≡ self.old) }
    {
        self.stage.succeed()
    }

    /// Ends a login that is neither complete nor failed. It keeps nothing.
    pub fn fail(&mut self) -> Result<(), StateWord>
        ensures moved { OnOk result (after self.old fail ≡ Some self.new) }
        ensures refused { OnErr result (after self.old fail ≡ None) }
        ensures told { IfErr result (λ state. state ≡ state_of self.old.stage) }
        ensures err { OnErr result (self.new ≡ self.old) }
    {
        self.stage.fail()
    }
}
