//! What the steps of a script answer.

ghost use Rattle.std.specs.Prelude.{◌≡◌};
ghost use Rattle.ely_login.specs.Outcomes.{is_accepted};

use crate::word::StateWord;
use ely_base::{Bytes, Refused, Serial, Version};
use ely_digest_msg::DigestFault;
use ely_hash::Tag;
use ely_pipeline::{PipeFault, Place};
use ely_plain::PlainFault;
use ely_row::{CredFault, EditFault, Mech, Roles};
use ely_scram_msg::MsgFault;

/// Why a line is no command, the first fault. Words are counted from 1.
#[derive(Clone, Copy, Debug, PartialEq, Eq)]
pub enum BadLine {
    /// It has more than 8,192 bytes.
    Long,
    /// Its first word is no actor.
    NoActor,
    /// It has no second word.
    NoVerb,
    /// Its second word is no verb.
    Verb,
    /// It has too few or too many arguments.
    Arity,
    /// The word of this number should be a number in its range.
    Number(u32),
    /// The word of this number is badly coded, or isn't what should stand there.
    Word(u32),
    /// The credential is faulty.
    Cred(CredFault),
    /// The message of PLAIN is faulty.
    Plain(PlainFault),
    /// The message of SCRAM is faulty.
    Scram(MsgFault),
    /// The header of Digest is faulty.
    Digest(DigestFault),
}

impl From<BadLine> for Refused<BadLine> {
    ghost use Rattle.std.specs.Prelude.{◌≡◌};
    ghost use Rattle.ely_base.specs.declared.refused.Refused.TheVariants.{Fault};

    ghost from_gives = { λ bad refused. refused ≡ Fault bad };

    fn from(bad: BadLine) -> Refused<BadLine> {
        Refused::Fault(bad)
    }
}

/// What a step answers.
#[derive(Debug, Drop)]
pub enum Outcome {
    /// The line is no command.
    Bad(BadLine),
    /// The edit is in the journal, which has this version now.
    Changed(Version),
    /// The edit is refused.
    Refused(EditFault),
    /// The login is open, with the challenge of its mechanism where that begins with one.
    Opened {
        serial: Serial,
        challenge: Option<Bytes>,
    },
    /// A login of that number is open.
    InUse,
    /// As many logins as may be are open.
    ContextsFull,
    /// The nonce was issued before.
    NonceUsed,
    /// The identity is pinned at this version.
    Pinned(Version),
    /// The login is in a state in which the step isn't due.
    State(StateWord),
    /// The login has this mechanism, and the step is one of another.
    Mechanism(Mech),
    /// The authorization name is another than the name.
    Authzid,
    /// A stage gave no place for the name.
    Pipe(PipeFault),
    /// There is no such identity.
    Unknown,
    /// No credential of the identity serves the mechanism.
    NoCredential,
    /// The identity is named.
    Named,
    /// The identity is named, and this is the server's first message.
    Challenge(Bytes),
    /// The login that the line began with is gone.
    Gone,
    /// The step is made.
    Fine,
    /// The nonce was not issued, or is forgotten.
    Stale,
    /// The last count that was accepted, which the header's isn't above.
    Replayed(u32),
    /// The evidence holds, with the server's verifier where the mechanism has one.
    Proved(Option<Tag>),
    /// The channel binding isn't the one of the first message.
    Binding,
    /// The nonce isn't the whole one.
    Nonce,
    /// The proof doesn't fit.
    Proof,
    /// The password is wrong.
    Password,
    /// The header's realm isn't the one of the stored hash, or for a clear password the one that was announced.
    Realm,
    /// The header's URI isn't the target of the request.
    Uri,
    /// The header's response isn't the one of the formula.
    Response,
    /// The identity may log in.
    Authorized,
    /// The identity has no permission to log in at this version.
    Denied(Version),
    /// The permission is granted.
    Yes,
    /// The permission is not granted.
    No,
    /// The identity of the login, as of this version.
    Established {
        version: Version,
        place: Place,
        roles: Roles,
    },
}

impl Outcome {
    /// Whether it is no refusal.
    pub fn is_accepted(&self) -> bool
        ensures { result ≡ is_accepted self.now }
    {
        matches!(
            self,
            Outcome::Changed(_)
                | Outcome::Opened { .. }
                | Outcome::Pinned(_)
                | Outcome::Named
                | Outcome::Challenge(_)
                | Outcome::Fine
                | Outcome::Proved(_)
                | Outcome::Authorized
                | Outcome::Yes
                | Outcome::No
                | Outcome::Established { .. }
        )
    }
}
