//! The client's first message (RFC 5802 section 7): the gs2 header, and the bare message with the name and the nonce.
//! It stands on the fields and on the readers of names, nonces and extensions.

ghost use Rattle.std.specs.Prelude.{◌≡◌, ◌↔◌, IsTrue, IfOk};
ghost use Rattle.ely_base.specs.Refused.{Gives, Reads};
ghost use Rattle.ely_scram_msg.specs.ClientFirst.{authzid_of, client_first_of, first_of, first_parts, flag_of, username_of};

use crate::escaped::Escaped;
use crate::extension::pass_extensions;
use crate::fault::{MsgFault, MsgKind};
use crate::field::{Field, due};
use crate::nonce::read_nonce;
use ely_base::{Bytes, Name, NoMemory, Refused};
use ely_hash::same;
use std::alloc::Global;

/// Whether the client knows channel binding (RFC 5802 section 6). Neither asks for it.
#[derive(Clone, Copy, Debug, PartialEq, Eq)]
pub enum Flag {
    /// `n`: it knows none.
    N,
    /// `y`: it knows it, and believes that the server doesn't.
    Y,
}

/// A client-first message that lends its parts from the text (RFC 5802 section 7).
#[derive(Drop)]
pub struct FirstView<'a> {
    /// The gs2-cbind-flag.
    pub flag: Flag,
    /// The authorization name, where one is given.
    pub authzid: Option<Escaped<'a>>,
    /// The user name.
    pub name: Escaped<'a>,
    /// The client's nonce.
    pub nonce: &'a [u8],
    /// The gs2-header, up to and with its second comma.
    pub gs2: &'a [u8],
    /// The client-first-message-bare: all that follows the gs2-header.
    pub bare: &'a [u8],
}

/// A client-first message that keeps its parts (RFC 5802 section 7).
#[derive(Debug, Drop)]
pub struct ClientFirst {
    /// The gs2-cbind-flag.
    pub flag: Flag,
    /// The authorization name, where one is given.
    pub authzid: Option<Name>,
    /// The user name.
    pub name: Name,
    /// The client's nonce.
    pub nonce: Bytes,
    /// The gs2-header, up to and with its second comma.
    pub gs2: Bytes,
    /// The client-first-message-bare: all that follows the gs2-header.
    pub bare: Bytes,
}

impl FirstView<'_> {
    /// The message whose parts this lends.
    fn copy(&self, alloc: Global) -> Result<ClientFirst, NoMemory>
        ensures { IfOk result (λ message. message ≡ first_parts self.now) }
    {
        let authzid = match &self.authzid {
            None => None,
            Some(name) => Some(name.copy(alloc)?),
        };
        Ok(ClientFirst {
            flag: self.flag,
            authzid,
            name: self.name.copy(alloc)?,
            nonce: Bytes::copy_of(alloc, self.nonce)?,
            gs2: Bytes::copy_of(alloc, self.gs2)?,
            bare: Bytes::copy_of(alloc, self.bare)?,
        })
    }
}

/// Whether both are the same name, or there is none in either.
fn same_authzid(authzid: &Option<Name>, other: &Option<Name>) -> bool
    ensures { IsTrue result ↔ (authzid.now ≡ other.now) }
{
    match (authzid, other) {
        (None, None) => true,
        (Some(name), Some(other)) => same(name.bytes(), other.bytes()),
        _ => false,
    }
}

impl ClientFirst {
    /// An equal message.
    pub fn copy(&self, alloc: Global) -> Result<ClientFirst, NoMemory>
        ensures { IfOk result (λ copy. copy ≡ self.now) }
    {
        Ok(ClientFirst {
            flag: self.flag,
            authzid: Name::copy_option(alloc, &self.authzid)?,
            name: self.name.copy(alloc)?,
            nonce: self.nonce.copy(alloc)?,
            gs2: self.gs2.copy(alloc)?,
            bare: self.bare.copy(alloc)?,
        })
    }

    /// Whether both are equal.
    pub fn same(&self, other: &ClientFirst) -> bool
        ensures { IsTrue result ↔ (self.now ≡ other.now) }
    {
        self.flag == other.flag
            && same_authzid(&self.authzid, &other.authzid)
            && same(self.name.bytes(), other.name.bytes())
            && same(self.nonce.bytes(), other.nonce.bytes())
            && same(self.gs2.bytes(), other.gs2.bytes())
            && same(self.bare.bytes(), other.bare.bytes())
    }
}

/// The flag with which the bytes begin.
fn read_flag(bytes: &[u8]) -> Result<Flag, MsgFault>
    ensures { result ≡ flag_of bytes.now }
{
    if bytes.starts_with(b"n,") {
        return Ok(Flag::N);
    }
    if bytes.starts_with(b"y,") {
        return Ok(Flag::Y);
    }
    if bytes.starts_with(b"p=") {
        return Err(MsgFault::at(MsgKind::Bound, 0));
    }
    Err(MsgFault::at(MsgKind::Flag, 0))
}

/// The authorization name, which may be missing in that field.
fn read_authzid<'a>(field: Field<'a>) -> Result<Option<Escaped<'a>>, MsgFault>
    ensures { result ≡ authzid_of field.entry }
{
    if field.text().len() == 0 {
        return Ok(None);
    }
    let value = field.value(b'a')?;
    let name = Escaped::read(&value)?;
    Ok(Some(name))
}

/// The user name that is due in that field.
fn read_username<'a>(field: Field<'a>) -> Result<Escaped<'a>, MsgFault>
    ensures { result ≡ username_of field.entry }
{
    let value = field.value(b'n')?;
    Escaped::read(&value)
}

/// The parts of a message that is a text.
fn read_first<'a>(bytes: &'a [u8], text: &'a str) -> Result<FirstView<'a>, MsgFault>
    requires { text.now ≡ bytes.now }
    ensures { Reads first_parts result (first_of bytes.now) }
{
    let end = bytes.len();
    let flag = read_flag(bytes)?;
    let (_flag_field, rest) = due(end, Some(Field::whole(text)))?;
    let (field, rest) = due(end, rest)?;
    let authzid = read_authzid(field)?;
    let (field, rest) = due(end, rest)?;
    let start = field.offset();
    let name = read_username(field)?;
    let (field, rest) = due(end, rest)?;
    let nonce = read_nonce(field)?;
    pass_extensions(rest)?;
    Ok(FirstView {
        flag,
        authzid,
        name,
        nonce,
        gs2: &bytes[..start],
        bare: &bytes[start..],
    })
}

/// The parts of a client-first message (RFC 5802 section 7), or the first fault of bytes that are none. It takes no
/// memory.
pub fn scan_client_first(bytes: &[u8]) -> Result<FirstView<'_>, MsgFault>
    ensures { Reads first_parts result (client_first_of bytes.now) }
{
    match str::from_utf8(bytes) {
        Ok(text) => read_first(bytes, text),
        Err(error) => Err(MsgFault::at(MsgKind::Text, error.valid_up_to())),
    }
}

/// The client-first message that the bytes are (RFC 5802 section 7), or the first fault of bytes that are none.
pub fn read_client_first(alloc: Global, bytes: &[u8]) -> Result<ClientFirst, Refused<MsgFault>>
    ensures { Gives result (client_first_of bytes.now) }
{
    match scan_client_first(bytes) {
        Ok(view) => Ok(view.copy(alloc)?),
        Err(fault) => Err(Refused::Fault(fault)),
    }
}
