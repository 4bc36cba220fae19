//! How far a login has come, with what it holds there, and the events that move it.

ghost use Rattle.std.specs.Prelude.{◌≡◌, None, Some, OnOk, IfErr, OnErr};
ghost use Rattle.std.specs.Option.{option_copied, option_map};
ghost use Rattle.ely_context.specs.ContextTable.{name1, name2, check1, check2, authorize, succeed, fail};
ghost use Rattle.ely_context.specs.Stages.{state_of, pin_of, key_of, evidence_of, loading_pin, named_parts, proved_pin, complete_pin, checked_parts};

use ely_login::StateWord;
use std::mem;

/// A state of a login, with what it needs: what its naming pinned, what it is judged by once it is named, and what it shows
/// while it is checked. A login that failed keeps nothing, and a complete one its pin.
#[derive(Drop)]
pub enum Stage<P, K, E> {
    Fresh,
    Loading(P),
    Named(P, K),
    Checking(P, K, E),
    Proved(P),
    Authorized(P),
    Complete(P),
    Failed,
}

impl<P: Drop, K: Drop, E: Drop> Stage<P, K, E> {
    /// The word of the state.
    pub(crate) fn state(&self) -> StateWord
        ensures { result ≡ state_of self.now }
    {
        match self {
            Stage::Fresh => StateWord::Fresh,
            Stage::Loading(_) => StateWord::Loading,
            Stage::Named(_, _) => StateWord::Named,
            Stage::Checking(_, _, _) => StateWord::Checking,
            Stage::Proved(_) => StateWord::Proved,
            Stage::Authorized(_) => StateWord::Authorized,
            Stage::Complete(_) => StateWord::Complete,
            Stage::Failed => StateWord::Failed,
        }
    }

    /// What was pinned.
    pub(crate) fn pin(&self) -> Option<&P>
        ensures { option_copied result ≡ pin_of self.now }
    {
        match self {
            Stage::Fresh => None,
            Stage::Loading(pin) => Some(pin),
            Stage::Named(pin, _) => Some(pin),
            Stage::Checking(pin, _, _) => Some(pin),
            Stage::Proved(pin) => Some(pin),
            Stage::Authorized(pin) => Some(pin),
            Stage::Complete(pin) => Some(pin),
            Stage::Failed => None,
        }
    }

    /// What a named login is judged by.
    pub(crate) fn key(&self) -> Option<&K>
        ensures { option_copied result ≡ key_of self.now }
    {
        match self {
            Stage::Named(_, key) => Some(key),
            Stage::Checking(_, key, _) => Some(key),
            _ => None,
        }
    }

    /// What the login shows.
    pub(crate) fn evidence(&self) -> Option<&E>
        ensures { option_copied result ≡ evidence_of self.now }
    {
        match self {
            Stage::Checking(_, _, evidence) => Some(evidence),
            _ => None,
        }
    }

    /// What a loading login pinned.
    pub(crate) fn loading(&self) -> Option<&P>
        ensures { option_copied result ≡ loading_pin self.now }
    {
        match self {
            Stage::Loading(pin) => Some(pin),
            _ => None,
        }
    }

    /// What a named login pinned, and what it is judged by.
    pub(crate) fn named(&self) -> Option<(&P, &K)>
        ensures { option_map (λ parts. (parts.0.now, parts.1.now)) result ≡ named_parts self.now }
    {
        match self {
            Stage::Named(pin, key) => Some((pin, key)),
            _ => None,
        }
    }

    /// What a proved login pinned.
    pub(crate) fn proved(&self) -> Option<&P>
        ensures { option_copied result ≡ proved_pin self.now }
    {
        match self {
            Stage::Proved(pin) => Some(pin),
            _ => None,
        }
    }

    /// What a complete login pinned.
    pub(crate) fn complete(&self) -> Option<&P>
        ensures { option_copied result ≡ complete_pin self.now }
    {
        match self {
            Stage::Complete(pin) => Some(pin),
            _ => None,
        }
    }

    /// What a login pinned that is checked, what it is judged by, and what it shows.
    pub(crate) fn checking(&self) -> Option<(&P, &K, &E)>
        ensures { option_map (λ parts. (parts.0.now, parts.1.now, parts.2.now)) result
            ≡ checked_parts self.now }
    {
        match self {
            Stage::Checking(pin, key, evidence) => Some((pin, key, evidence)),
            _ => None,
        }
    }

    /// A login is named that has none yet.
    pub(crate) fn name1(&mut self, pin: P) -> Result<(), (StateWord, P)>
        ensures moved { OnOk result (name1 pin self.old ≡ Some self.new) }
        ensures refused { OnErr result (name1 pin self.old ≡ None) }
        ensures told { IfErr result (λ back. back ≡ (state_of self.old, pin)) }
        ensures err { OnErr result (self.new ≡ self.old) }
    {
        match self {
            Stage::Fresh => {
                *self = Stage::Loading(pin);
                Ok(())
            }
            _ => Err((self.state(), pin)),
        }
    }

    /// What was pinned has its key.
    pub(crate) fn name2(&mut self, key: K) -> Result<(), StateWord>
        ensures moved { OnOk result (name2 key self.old ≡ Some self.new) }
        ensures refused { OnErr result (name2 key self.old ≡ None) }
        ensures told { IfErr result (λ state. state ≡ state_of self.old) }
        ensures err { OnErr result (self.new ≡ self.old) }
    {
        let state = self.state();
        match mem::replace(self, Stage::Failed) {
            Stage::Loading(pin) => {
                *self = Stage::Named(pin, key);
                Ok(())
            }
            stage => {
                *self = stage;
                Err(state)
            }
        }
    }

    /// A named login shows something.
    pub(crate) fn check1(&mut self, evidence: E) -> Result<(), (StateWord, E)>
        ensures moved { OnOk result (check1 evidence self.old ≡ Some self.new) }
        ensures refused { OnErr result (check1 evidence self.old ≡ None) }
        ensures told { IfErr result (λ back. back ≡ (state_of self.old, evidence)) }
        ensures err { OnErr result (self.new ≡ self.old) }
    {
        let state = self.state();
        match mem::replace(self, Stage::Failed) {
            Stage::Named(pin, key) => {
                *self = Stage::Checking(pin, key, evidence);
                Ok(())
            }
            stage => {
                *self = stage;
                Err((state, evidence))
            }
        }
    }

    /// What it showed was judged.
    pub(crate) fn check2(&mut self, proved: bool) -> Result<(), StateWord>
        ensures moved { OnOk result (check2 proved self.old ≡ Some self.new) }
        ensures refused { OnErr result (check2 proved self.old ≡ None) }
        ensures told { IfErr result (λ state. state ≡ state_of self.old) }
        ensures err { OnErr result (self.new ≡ self.old) }
    {
        let state = self.state();
        match mem::replace(self, Stage::Failed) {
            Stage::Checking(pin, _, _) => {
                *self = if proved {
                    Stage::Proved(pin)
                } else {
                    Stage::Failed
                };
                Ok(())
            }
            stage => {
                *self = stage;
                Err(state)
            }
        }
    }

    /// A proved login may log in, or not.
    pub(crate) fn authorize(&mut self, granted: bool) -> Result<(), StateWord>
        ensures moved { OnOk result (authorize granted self.old ≡ Some self.new) }
        ensures refused { OnErr result (authorize granted self.old ≡ None) }
        ensures told { IfErr result (λ state. state ≡ state_of self.old) }
        ensures err { OnErr result (self.new ≡ self.old) }
    {
        let state = self.state();
        match mem::replace(self, Stage::Failed) {
            Stage::Proved(pin) => {
                *self = if granted {
                    Stage::Authorized(pin)
                } else {
                    Stage::Proved(pin)
                };
                Ok(())
            }
            stage => {
                *self = stage;
                Err(state)
            }
        }
    }

    /// An authorized login is complete.
    pub(crate) fn succeed(&mut self) -> Result<(), StateWord>
        ensures moved { OnOk result (succeed self.old ≡ Some self.new) }
        ensures refused { OnErr result (succeed self.old ≡ None) }
        ensures told { IfErr result (λ state. state ≡ state_of self.old) }
        ensures err { OnErr result (self.new ≡ self.old) }
    {
        let state = self.state();
        match mem::replace(self, Stage::Failed) {
            Stage::Authorized(pin) => {
                *self = Stage::Complete(pin);
                Ok(())
            }
            stage => {
                *self = stage;
                Err(state)
            }
        }
    }

    /// A login fails that is neither complete nor failed.
    pub(crate) fn fail(&mut self) -> Result<(), StateWord>
        ensures moved { OnOk result (fail self.old ≡ Some self.new) }
        ensures refused { OnErr result (fail self.old ≡ None) }
        ensures told { IfErr result (λ state. state ≡ state_of self.old) }
        ensures err { OnErr result (self.new ≡ self.old) }
    {
        match self {
            Stage::Complete(_) => Err(StateWord::Complete),
            Stage::Failed => Err(StateWord::Failed),
            _ => {
                *self = Stage::Failed;
                Ok(())
            }
        }
    }
}
