//! The message of PLAIN: an authorization name that may be empty, a name and a password, with a NUL between two of them
//! (RFC 4616 section 2).

ghost use Rattle.std.specs.Prelude.{◌≡◌, ◌∷◌, IfOk};
ghost use Rattle.ely_base.specs.Parts.{parts_at};
ghost use Rattle.ely_base.specs.Refused.{Gives};
ghost use Rattle.ely_plain.specs.Messages.{plain_of, name_part, authzid_part, message_of};

use ely_base::{Bytes, Name, NameFault, NoMemory, Refused, count_of, cut_at, refused_as, text_len};
use std::alloc::Global;

/// A message of PLAIN.
#[derive(Debug, Drop)]
pub struct PlainMsg {
    /// Who the login wants to act as, where it says so.
    pub authzid: Option<Name>,
    /// Who logs in.
    pub name: Name,
    /// The password, as it was sent.
    pub password: Bytes,
}

impl PlainMsg {
    /// An equal message.
    pub fn copy(&self, alloc: Global) -> Result<PlainMsg, NoMemory>
        ensures { IfOk result (λ copy. copy ≡ self.now) }
    {
        Ok(PlainMsg {
            authzid: Name::copy_option(alloc, &self.authzid)?,
            name: self.name.copy(alloc)?,
            password: self.password.copy(alloc)?,
        })
    }
}

/// Why bytes are no message of PLAIN, the first fault.
#[derive(Clone, Copy, Debug, PartialEq, Eq)]
pub enum PlainFault {
    /// How many NULs there are, where that isn't 2.
    NoNul(usize),
    /// The length of the longest prefix that is UTF-8.
    NotText(usize),
    /// The name is empty.
    EmptyName,
    /// The password is empty.
    EmptyPassword,
    /// The name, or the authorization name, is no name.
    Name(NameFault),
}

/// The name that a part is.
fn read_name(alloc: Global, part: &[u8]) -> Result<Name, Refused<PlainFault>>
    ensures { Gives result (name_part part.now) }
{
    refused_as(Name::read(alloc, part), PlainFault::Name)
}

/// The authorization name of a part that isn't empty.
fn read_authzid(alloc: Global, part: &[u8]) -> Result<Option<Name>, Refused<PlainFault>>
    ensures { Gives result (authzid_part part.now) }
{
    if part.is_empty() {
        return Ok(None);
    }
    let name = read_name(alloc, part)?;
    Ok(Some(name))
}

/// The message of its three parts.
fn read_parts(
    alloc: Global,
    authzid: &[u8],
    name: &[u8],
    password: &[u8],
) -> Result<PlainMsg, Refused<PlainFault>>
    ensures { Gives result (message_of authzid.now name.now password.now) }
{
    if name.is_empty() {
        return Err(Refused::Fault(PlainFault::EmptyName));
    }
    if password.is_empty() {
        return Err(Refused::Fault(PlainFault::EmptyPassword));
    }
    let name = read_name(alloc, name)?;
    let authzid = read_authzid(alloc, authzid)?;
    let password = Bytes::copy_of(alloc, password)?;
    Ok(PlainMsg {
        authzid,
        name,
        password,
    })
}

/// The message of the bytes, of which the parts up to the second NUL were read.
fn read_last(
    alloc: Global,
    bytes: &[u8],
    authzid: &[u8],
    name: &[u8],
    rest: &[u8],
) -> Result<PlainMsg, Refused<PlainFault>>
    requires { parts_at 0 bytes.now ≡ authzid.now ∷ name.now ∷ parts_at 0 rest.now }
    ensures { Gives result (plain_of bytes.now) }
{
    let (password, more) = cut_at(rest, 0);
    if more.is_some() {
        return Err(Refused::Fault(PlainFault::NoNul(count_of(bytes, 0))));
    }
    let text = text_len(bytes);
    if text < bytes.len() {
        return Err(Refused::Fault(PlainFault::NotText(text)));
    }
    read_parts(alloc, authzid, name, password)
}

/// The message of the bytes, of which the part up to the first NUL was read.
fn read_rest(
    alloc: Global,
    bytes: &[u8],
    authzid: &[u8],
    rest: &[u8],
) -> Result<PlainMsg, Refused<PlainFault>>
    requires { parts_at 0 bytes.now ≡ authzid.now ∷ parts_at 0 rest.now }
    ensures { Gives result (plain_of bytes.now) }
{
    let (name, behind) = cut_at(rest, 0);
    match behind {
        None => Err(Refused::Fault(PlainFault::NoNul(1))),
        Some(last) => read_last(alloc, bytes, authzid, name, last),
    }
}

/// Reads a message of PLAIN, or says the first fault of the bytes: a wrong number of NULs, no UTF-8, an empty name, an empty
/// password, a name that is none, an authorization name that is none.
pub fn read_plain(alloc: Global, bytes: &[u8]) -> Result<PlainMsg, Refused<PlainFault>>
    ensures { Gives result (plain_of bytes.now) }
{
    let (authzid, behind) = cut_at(bytes, 0);
    match behind {
        None => Err(Refused::Fault(PlainFault::NoNul(0))),
        Some(rest) => read_rest(alloc, bytes, authzid, rest),
    }
}
