//! The printed outcomes.

ghost use Rattle.std.specs.Prelude.{◌≡◌, ◌++◌, codes, OnOk, OnErr};
ghost use Rattle.ely_base.specs.Appended.{Extends};
ghost use Rattle.ely_script.specs.OutcomeTexts.{challenge_text, verifier_text, roles_text, established_text, outcome_text};

use crate::print_fault::{push_bad, push_fault, push_stage};
use crate::word::{mech_word, state_word};
use ely_base::{
    Bytes, Name, NoMemory, push_both, push_coded, push_counted, push_text, push_worded,
};
use ely_hash::Tag;
use ely_login::Outcome;
use ely_pipeline::Place;

fn push_challenge(out: &mut Vec<u8>, challenge: &Option<Bytes>) -> Result<(), NoMemory>
    ensures ok { OnOk result (out.new.items ≡ out.old.items ++ challenge_text challenge.now) }
    ensures err { OnErr result (Extends out.old.items out.new.items) }
{
    match challenge {
        None => push_text(out, b""),
        Some(text) => push_both(out, b" ", text.bytes()),
    }
}

fn push_opened(out: &mut Vec<u8>, serial: u64, challenge: &Option<Bytes>) -> Result<(), NoMemory>
    ensures ok { OnOk result
        (out.new.items ≡ out.old.items ++ outcome_text (Outcome.Opened serial challenge.now)) }
    ensures err { OnErr result (Extends out.old.items out.new.items) }
{
    push_counted(out, b"ok ", serial)?;
    push_challenge(out, challenge)?;
    Ok(())
}

fn push_verifier(out: &mut Vec<u8>, verifier: &Option<Tag>) -> Result<(), NoMemory>
    ensures ok { OnOk result (out.new.items ≡ out.old.items ++ verifier_text verifier.now) }
    ensures err { OnErr result (Extends out.old.items out.new.items) }
{
    match verifier {
        None => push_text(out, b""),
        Some(bytes) => push_coded(out, b" v=", bytes.bytes()),
    }
}

fn push_proved(out: &mut Vec<u8>, verifier: &Option<Tag>) -> Result<(), NoMemory>
    ensures ok { OnOk result
        (out.new.items ≡ out.old.items ++ (codes "proved" ++ verifier_text verifier.now)) }
    ensures err { OnErr result (Extends out.old.items out.new.items) }
{
    push_text(out, b"proved")?;
    push_verifier(out, verifier)?;
    Ok(())
}

fn push_roles(out: &mut Vec<u8>, roles: &[Name]) -> Result<(), NoMemory>
    ensures ok { OnOk result (out.new.items ≡ out.old.items ++ roles_text roles.now) }
    ensures err { OnErr result (Extends out.old.items out.new.items) }
{
    let mut mark = b"".as_slice();
    for role in roles {
        push_worded(out, mark, role.bytes())?;
        mark = b",";
    }
    Ok(())
}

fn push_established(
    out: &mut Vec<u8>,
    version: u64,
    place: &Place,
    roles: &[Name],
) -> Result<(), NoMemory>
    ensures ok { OnOk result
        (out.new.items ≡ out.old.items ++ established_text version place.now roles.now) }
    ensures err { OnErr result (Extends out.old.items out.new.items) }
{
    push_counted(out, b"established ", version)?;
    push_worded(out, b" ", place.realm.bytes())?;
    push_worded(out, b" ", place.name.bytes())?;
    push_text(out, b" roles=")?;
    push_roles(out, roles)?;
    Ok(())
}

pub(crate) fn push_outcome(out: &mut Vec<u8>, outcome: &Outcome) -> Result<(), NoMemory>
    ensures ok { OnOk result (out.new.items ≡ out.old.items ++ outcome_text outcome.now) }
    ensures err { OnErr result (Extends out.old.items out.new.items) }
{
    match outcome {
        Outcome::Bad(bad) => push_bad(out, *bad),
        Outcome::Changed(version) => push_counted(out, b"ok ", version.0),
        Outcome::Refused(fault) => push_fault(out, *fault),
        Outcome::Opened { serial, challenge } => push_opened(out, serial.0, challenge),
        Outcome::InUse => push_text(out, b"in-use"),
        Outcome::ContextsFull => push_text(out, b"contexts-full 4096"),
        Outcome::NonceUsed => push_text(out, b"nonce-used"),
        Outcome::Pinned(version) => push_counted(out, b"pinned ", version.0),
        Outcome::State(state) => push_both(out, b"state ", state_word(*state)),
        Outcome::Mechanism(mech) => push_both(out, b"mechanism ", mech_word(*mech)),
        Outcome::Authzid => push_text(out, b"authzid"),
        Outcome::Pipe(fault) => push_stage(out, fault),
        Outcome::Unknown => push_text(out, b"unknown"),
        Outcome::NoCredential => push_text(out, b"no-credential"),
        Outcome::Named => push_text(out, b"named"),
        Outcome::Challenge(text) => push_both(out, b"challenge ", text.bytes()),
        Outcome::Gone => push_text(out, b"gone"),
        Outcome::Fine => push_text(out, b"ok"),
        Outcome::Stale => push_text(out, b"stale"),
        Outcome::Replayed(last) => push_counted(out, b"replayed ", u64::from(*last)),
        Outcome::Proved(verifier) => push_proved(out, verifier),
        Outcome::Binding => push_text(out, b"binding e=channel-bindings-dont-match"),
        Outcome::Nonce => push_text(out, b"nonce e=other-error"),
        Outcome::Proof => push_text(out, b"proof e=invalid-proof"),
        Outcome::Password => push_text(out, b"password"),
        Outcome::Realm => push_text(out, b"realm"),
        Outcome::Uri => push_text(out, b"uri"),
        Outcome::Response => push_text(out, b"response"),
        Outcome::Authorized => push_text(out, b"authorized"),
        Outcome::Denied(version) => push_counted(out, b"denied ", version.0),
        Outcome::Yes => push_text(out, b"yes"),
        Outcome::No => push_text(out, b"no"),
        Outcome::Established {
            version,
            place,
            roles,
        } => push_established(out, version.0, place, roles.all()),
    }
}
