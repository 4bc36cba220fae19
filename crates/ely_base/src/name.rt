//! Names: 1 to 255 bytes of UTF-8 (RFC 3629) without NUL and LF, and the first fault of other bytes.

ghost use Rattle.std.specs.Prelude.{◌≡◌, ℕ, List, IfOk, position};
ghost use Rattle.std.specs.List.{list_any};
ghost use Rattle.std.specs.Str.{bytes_eq};
ghost use Rattle.ely_base.specs.Refused.{Gives};
ghost use Rattle.ely_base.specs.Names.{IsName, is_barred, name_fault, name_of};

use crate::parts::text_len;
use crate::refused::{NoMemory, Refused};
use std::alloc::Global;
use std::marker::Model;

/// Why bytes are no name, the first fault.
#[derive(Clone, Copy, Debug, PartialEq, Eq)]
pub enum NameFault {
    /// There are no bytes.
    Empty,
    /// The length, above 255.
    Long(usize),
    /// The length of the longest prefix that is UTF-8.
    NotText(usize),
    /// The offset of the first NUL or LF.
    Barred(usize),
}

/// 1 to 255 bytes of UTF-8 without NUL and LF.
#[derive(Debug, Drop)]
pub struct Name {
    list: Vec<u8>,
}

impl Model for Name {
    ghost use Rattle.std.specs.Prelude.{ℕ, List};

    ghost Value = { List ℕ };

    ghost use Rattle.ely_base.specs.Names.{IsName};

    ghost view = { λ n. n.list.items };

    ghost invariant = { λ n. IsName n.list.items };
}

/// Whether there is a NUL or an LF.
pub fn has_barred(bytes: &[u8]) -> bool
    ensures { result ≡ list_any is_barred bytes.now }
{
    bytes.iter().any(|b| *b == 0 || *b == 10)
}

/// The offset of the first NUL or LF.
fn first_barred(bytes: &[u8]) -> Option<usize>
    ensures { result ≡ position is_barred bytes.now }
{
    bytes.iter().position(|b| *b == 0 || *b == 10)
}

/// The first fault of the bytes, if they are no name.
pub fn name_fault(bytes: &[u8]) -> Option<NameFault>
    ensures { result ≡ name_fault bytes.now }
{
    if bytes.len() == 0 {
        return Some(NameFault::Empty);
    }
    if bytes.len() > 255 {
        return Some(NameFault::Long(bytes.len()));
    }
    let text = text_len(bytes);
    if text < bytes.len() {
        return Some(NameFault::NotText(text));
    }
    match first_barred(bytes) {
        None => None,
        Some(offset) => Some(NameFault::Barred(offset)),
    }
}

impl Name {
    /// Reads a name, or says the first fault of the bytes.
    pub fn read(alloc: Global, bytes: &[u8]) -> Result<Name, Refused<NameFault>>
        ensures { Gives result (name_of bytes.now) }
    {
        if let Some(fault) = name_fault(bytes) {
            return Err(Refused::Fault(fault));
        }
        Ok(Name {
            list: Vec::from_slice(alloc, bytes)?,
        })
    }

    /// Keeps the bytes as a name, or says their first fault. It takes no memory.
    pub fn read_list(list: Vec<u8>) -> Result<Name, NameFault>
        ensures { result ≡ name_of list.items }
    {
        match name_fault(list.as_slice()) {
            Some(fault) => Err(fault),
            None => Ok(Name { list }),
        }
    }

    /// Keeps bytes that are known to be a name. It takes no memory.
    pub fn of(list: Vec<u8>) -> Name
        requires { IsName list.items }
        ensures { result ≡ list.items }
    {
        Name { list }
    }

    /// The bytes of the name.
    pub fn bytes(&self) -> &[u8]
        ensures value { result.now ≡ self.now }
        ensures name { IsName result.now }
    {
        self.list.as_slice()
    }

    /// Whether both are the same bytes.
    pub fn is(&self, other: &Name) -> bool
        ensures { result ≡ bytes_eq self.now other.now }
    {
        self.bytes() == other.bytes()
    }

    /// An equal name.
    pub fn copy(&self, alloc: Global) -> Result<Name, NoMemory>
        ensures { IfOk result (λ copy. copy ≡ self.now) }
    {
        Ok(Name {
            list: Vec::from_slice(alloc, self.list.as_slice())?,
        })
    }

    /// An equal name, where there is one.
    pub fn copy_option(alloc: Global, name: &Option<Name>) -> Result<Option<Name>, NoMemory>
        ensures { IfOk result (λ copy. copy ≡ name.now) }
    {
        match name {
            None => Ok(None),
            Some(name) => Ok(Some(name.copy(alloc)?)),
        }
    }
}
