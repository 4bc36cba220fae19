//! Bytes of any kind and length.

ghost use Rattle.std.specs.Prelude.{◌≡◌, ℕ, List, IfOk};

use crate::refused::NoMemory;
use std::alloc::Global;
use std::marker::Model;

/// Any bytes.
#[derive(Debug, Drop)]
pub struct Bytes {
    list: Vec<u8>,
}

impl Model for Bytes {
    ghost Value = { List ℕ };

    ghost view = { λ b. b.list.items };
}

impl Bytes {
    /// Keeps a list of bytes. It takes no memory.
    pub fn of(list: Vec<u8>) -> Bytes
        ensures { result ≡ list.items }
    {
        Bytes { list }
    }

    /// A copy of the bytes.
    pub fn copy_of(alloc: Global, bytes: &[u8]) -> Result<Bytes, NoMemory>
        ensures { IfOk result (λ copy. copy ≡ bytes.now) }
    {
        Ok(Bytes {
            list: Vec::from_slice(alloc, bytes)?,
        })
    }

    /// The list, given up. It takes no memory.
    pub fn into_list(self) -> Vec<u8>
        ensures { result.items ≡ self }
    {
        self.list
    }

    /// The bytes.
    pub fn bytes(&self) -> &[u8]
        ensures { result.now ≡ self.now }
    {
        self.list.as_slice()
    }

    /// Equal bytes.
    pub fn copy(&self, alloc: Global) -> Result<Bytes, NoMemory>
        ensures { IfOk result (λ copy. copy ≡ self.now) }
    {
        Bytes::copy_of(alloc, self.bytes())
    }

    /// Equal bytes, where there are some.
    pub fn copy_option(alloc: Global, bytes: &Option<Bytes>) -> Result<Option<Bytes>, NoMemory>
        ensures { IfOk result (λ copy. copy ≡ bytes.now) }
    {
        match bytes {
            None => Ok(None),
            Some(bytes) => Ok(Some(bytes.copy(alloc)?)),
        }
    }
}
