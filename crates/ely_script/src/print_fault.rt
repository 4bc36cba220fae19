//! The printed causes of refusals.

ghost use Rattle.std.specs.Prelude.{◌≡◌, ◌++◌, codes, OnOk, OnErr};
ghost use Rattle.ely_base.specs.Appended.{Extends};
ghost use Rattle.ely_script.specs.FaultTexts.{cred_text, plain_text, kind_text, scram_text, header_text, bad_text, prop_text, fault_text, pipe_text};

use ely_base::{NoMemory, push_both, push_counted, push_text, push_worded};
use ely_digest_msg::DigestFault;
use ely_login::BadLine;
use ely_pipeline::PipeFault;
use ely_plain::PlainFault;
use ely_row::{CredFault, EditFault, PropFault};
use ely_scram_msg::{MsgFault, MsgKind};

fn cred_word(fault: CredFault) -> &'static [u8]
    ensures { result.now ≡ cred_text fault }
{
    match fault {
        CredFault::Kind => b"kind",
        CredFault::Turns => b"turns",
        CredFault::Base64 => b"base64",
        CredFault::Hex => b"hex",
        CredFault::Length => b"length",
        CredFault::Text => b"text",
    }
}

fn push_plain(out: &mut Vec<u8>, fault: PlainFault) -> Result<(), NoMemory>
    ensures ok { OnOk result (out.new.items ≡ out.old.items ++ plain_text fault) }
    ensures err { OnErr result (Extends out.old.items out.new.items) }
{
    match fault {
        PlainFault::NoNul(count) => push_counted(out, b"nul ", count as u64),
        PlainFault::NotText(offset) => push_counted(out, b"text ", offset as u64),
        PlainFault::EmptyName => push_text(out, b"empty-name"),
        PlainFault::EmptyPassword => push_text(out, b"empty-password"),
        PlainFault::Name(_) => push_text(out, b"name"),
    }
}

/// Writes that a message of PLAIN is faulty.
fn push_plain_message(out: &mut Vec<u8>, fault: PlainFault) -> Result<(), NoMemory>
    ensures ok { OnOk result
        (out.new.items ≡ out.old.items ++ (codes "message " ++ plain_text fault)) }
    ensures err { OnErr result (Extends out.old.items out.new.items) }
{
    push_text(out, b"message ")?;
    push_plain(out, fault)?;
    Ok(())
}

fn kind_word(kind: MsgKind) -> &'static [u8]
    ensures { result.now ≡ kind_text kind }
{
    match kind {
        MsgKind::Text => b"text",
        MsgKind::Flag => b"flag",
        MsgKind::Bound => b"bound",
        MsgKind::Mandatory => b"mandatory",
        MsgKind::Attr => b"attr",
        MsgKind::Escape => b"escape",
        MsgKind::Name => b"name",
        MsgKind::Nonce => b"nonce",
        MsgKind::Base64 => b"base64",
        MsgKind::Trailing => b"trailing",
    }
}

/// Writes that a message of SCRAM is faulty.
fn push_scram_message(out: &mut Vec<u8>, fault: MsgFault) -> Result<(), NoMemory>
    ensures ok { OnOk result
        (out.new.items ≡ out.old.items ++ (codes "message " ++ scram_text fault)) }
    ensures err { OnErr result (Extends out.old.items out.new.items) }
{
    push_both(out, b"message ", kind_word(fault.kind))?;
    push_counted(out, b" ", fault.place as u64)?;
    Ok(())
}

fn push_header(out: &mut Vec<u8>, fault: DigestFault) -> Result<(), NoMemory>
    ensures ok { OnOk result (out.new.items ≡ out.old.items ++ header_text fault) }
    ensures err { OnErr result (Extends out.old.items out.new.items) }
{
    match fault {
        DigestFault::Scheme => push_text(out, b"scheme 0"),
        DigestFault::Token(offset) => push_counted(out, b"token ", offset as u64),
        DigestFault::Quote(offset) => push_counted(out, b"quote ", offset as u64),
        DigestFault::Repeat(field) => push_both(out, b"repeat ", field.text().as_bytes()),
        DigestFault::Missing(field) => push_both(out, b"missing ", field.text().as_bytes()),
        DigestFault::Name => push_text(out, b"name"),
        DigestFault::Nc => push_text(out, b"nc"),
        DigestFault::Algorithm => push_text(out, b"algorithm"),
        DigestFault::Qop => push_text(out, b"qop"),
        DigestFault::Userhash => push_text(out, b"userhash"),
    }
}

/// Writes that a header of Digest is faulty.
fn push_header_message(out: &mut Vec<u8>, fault: DigestFault) -> Result<(), NoMemory>
    ensures ok { OnOk result
        (out.new.items ≡ out.old.items ++ (codes "message " ++ header_text fault)) }
    ensures err { OnErr result (Extends out.old.items out.new.items) }
{
    push_text(out, b"message ")?;
    push_header(out, fault)?;
    Ok(())
}

/// Writes why a line is no command, behind what is there. Where memory runs out, a prefix of it may be written.
pub fn push_bad(out: &mut Vec<u8>, bad: BadLine) -> Result<(), NoMemory>
    ensures ok { OnOk result (out.new.items ≡ out.old.items ++ bad_text bad) }
    ensures err { OnErr result (Extends out.old.items out.new.items) }
{
    match bad {
        BadLine::Long => push_text(out, b"long"),
        BadLine::NoActor => push_text(out, b"no-actor"),
        BadLine::NoVerb => push_text(out, b"no-verb"),
        BadLine::Verb => push_text(out, b"verb"),
        BadLine::Arity => push_text(out, b"arity"),
        BadLine::Number(word) => push_counted(out, b"number ", u64::from(word)),
        BadLine::Word(word) => push_counted(out, b"word ", u64::from(word)),
        BadLine::Cred(fault) => push_both(out, b"cred ", cred_word(fault)),
        BadLine::Plain(fault) => push_plain_message(out, fault),
        BadLine::Scram(fault) => push_scram_message(out, fault),
        BadLine::Digest(fault) => push_header_message(out, fault),
    }
}

/// Writes the fault of a properties text with its line's number, behind what is there. Where memory runs out, a prefix of it may
/// be written.
pub fn push_prop(out: &mut Vec<u8>, fault: PropFault) -> Result<(), NoMemory>
    ensures ok { OnOk result (out.new.items ≡ out.old.items ++ prop_text fault) }
    ensures err { OnErr result (Extends out.old.items out.new.items) }
{
    match fault {
        PropFault::BadLine(line) => push_counted(out, b"bad-line ", u64::from(line)),
        PropFault::BadHex(line) => push_counted(out, b"bad-hex ", u64::from(line)),
        PropFault::Twice(line) => push_counted(out, b"twice ", u64::from(line)),
        PropFault::TooMany(line) => push_counted(out, b"too-many ", u64::from(line)),
    }
}

/// Writes which properties text is faulty, and how.
fn push_text_fault(out: &mut Vec<u8>, text: &[u8], fault: PropFault) -> Result<(), NoMemory>
    ensures ok { OnOk result (out.new.items ≡ out.old.items ++ (text.now ++ prop_text fault)) }
    ensures err { OnErr result (Extends out.old.items out.new.items) }
{
    push_text(out, text)?;
    push_prop(out, fault)?;
    Ok(())
}

pub(crate) fn push_fault(out: &mut Vec<u8>, fault: EditFault) -> Result<(), NoMemory>
    ensures ok { OnOk result (out.new.items ≡ out.old.items ++ fault_text fault) }
    ensures err { OnErr result (Extends out.old.items out.new.items) }
{
    match fault {
        EditFault::JournalFull(limit) => { push_counted(out, b"journal-full ", u64::from(limit)) }
        EditFault::NoRealm => push_text(out, b"no-realm"),
        EditFault::ReadOnly => push_text(out, b"read-only"),
        EditFault::Exists => push_text(out, b"exists"),
        EditFault::Absent => push_text(out, b"absent"),
        EditFault::NoCred => push_text(out, b"no-cred"),
        EditFault::NoAttr => push_text(out, b"no-attr"),
        EditFault::CredsFull => push_text(out, b"creds-full"),
        EditFault::AttrsFull => push_text(out, b"attrs-full"),
        EditFault::RowsFull => push_text(out, b"rows-full"),
        EditFault::Users(fault) => push_text_fault(out, b"users ", fault),
        EditFault::Groups(fault) => push_text_fault(out, b"groups ", fault),
    }
}

fn push_pipe(out: &mut Vec<u8>, fault: &PipeFault) -> Result<(), NoMemory>
    ensures ok { OnOk result (out.new.items ≡ out.old.items ++ pipe_text fault.now) }
    ensures err { OnErr result (Extends out.old.items out.new.items) }
{
    match fault {
        PipeFault::Undecoded => push_text(out, b"decoder"),
        PipeFault::PreRealm => push_text(out, b"pre-realm"),
        PipeFault::NoRealm(text) => push_worded(out, b"no-realm ", text.bytes()),
        PipeFault::PostRealm => push_text(out, b"post-realm"),
        PipeFault::RealmStep => push_text(out, b"realm"),
    }
}

/// Writes which stage gave no place.
pub(crate) fn push_stage(out: &mut Vec<u8>, fault: &PipeFault) -> Result<(), NoMemory>
    ensures ok { OnOk result
        (out.new.items ≡ out.old.items ++ (codes "pipe " ++ pipe_text fault.now)) }
    ensures err { OnErr result (Extends out.old.items out.new.items) }
{
    push_text(out, b"pipe ")?;
    push_pipe(out, fault)?;
    Ok(())
}
