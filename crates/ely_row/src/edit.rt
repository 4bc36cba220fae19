//! The edits of the journal, and why one is refused.

ghost use Rattle.std.specs.Prelude.{◌≡◌, IfOk};
ghost use Rattle.std.specs.Option.{option_copied};
ghost use Rattle.ely_row.specs.Edits.{realm_of, name_of, is_of};

use crate::cred::StoredCred;
use crate::values::Values;
use ely_base::{Bytes, Name, NoMemory};
use std::alloc::Global;

/// A change of one identity, or of all that a realm has.
#[derive(Debug, Drop)]
pub enum Edit {
    /// A new identity without credentials and attributes.
    Add {
        realm: Name,
        name: Name,
    },
    /// The end of an identity, with all its credentials and attributes.
    Remove {
        realm: Name,
        name: Name,
    },
    /// A credential in a slot, in place of what stood there.
    SetCred {
        realm: Name,
        name: Name,
        slot: u8,
        cred: StoredCred,
    },
    /// The end of the credential of a slot.
    DropCred {
        realm: Name,
        name: Name,
        slot: u8,
    },
    /// The values of an attribute, in place of what stood there.
    SetAttr {
        realm: Name,
        name: Name,
        attr: Name,
        values: Values,
    },
    /// The end of an attribute.
    DropAttr {
        realm: Name,
        name: Name,
        attr: Name,
    },
    /// The identities of two texts, in place of all that the realm has: its users with a credential each, and their groups.
    Reload {
        realm: Name,
        users: Bytes,
        groups: Bytes,
    },
}

impl Edit {
    /// The realm of the identity, or the one that is reloaded.
    pub fn realm(&self) -> &Name
        ensures { result.now ≡ realm_of self.now }
    {
        match self {
            Edit::Add { realm, .. } => realm,
            Edit::Remove { realm, .. } => realm,
            Edit::SetCred { realm, .. } => realm,
            Edit::DropCred { realm, .. } => realm,
            Edit::SetAttr { realm, .. } => realm,
            Edit::DropAttr { realm, .. } => realm,
            Edit::Reload { realm, .. } => realm,
        }
    }

    /// The name of the identity; `None` exactly for a reload, which is of no one.
    pub fn name(&self) -> Option<&Name>
        ensures { option_copied result ≡ name_of self.now }
    {
        match self {
            Edit::Add { name, .. } => Some(name),
            Edit::Remove { name, .. } => Some(name),
            Edit::SetCred { name, .. } => Some(name),
            Edit::DropCred { name, .. } => Some(name),
            Edit::SetAttr { name, .. } => Some(name),
            Edit::DropAttr { name, .. } => Some(name),
            Edit::Reload { .. } => None,
        }
    }

    /// Whether it is of this realm and this name. A reload is of each name of its realm.
    pub fn is_of(&self, realm: &Name, name: &Name) -> bool
        ensures { result ≡ is_of realm.now name.now self.now }
    {
        match self.name() {
            None => self.realm().is(realm),
            Some(own) => self.realm().is(realm) && own.is(name),
        }
    }

    /// An equal edit.
    pub fn copy(&self, alloc: Global) -> Result<Edit, NoMemory>
        ensures { IfOk result (λ copy. copy ≡ self.now) }
    {
        let realm = self.realm().copy(alloc)?;
        match self {
            Edit::Add { name, .. } => Ok(Edit::Add {
                realm,
                name: name.copy(alloc)?,
            }),
            Edit::Remove { name, .. } => Ok(Edit::Remove {
                realm,
                name: name.copy(alloc)?,
            }),
            Edit::SetCred {
                name,
                slot,
                cred,
                ..
            } => Ok(Edit::SetCred {
                realm,
                name: name.copy(alloc)?,
                slot: *slot,
                cred: cred.copy(alloc)?,
            }),
            Edit::DropCred { name, slot, .. } => Ok(Edit::DropCred {
                realm,
                name: name.copy(alloc)?,
                slot: *slot,
            }),
            Edit::SetAttr {
                name,
                attr,
                values,
                ..
            } => Ok(Edit::SetAttr {
                realm,
                name: name.copy(alloc)?,
                attr: attr.copy(alloc)?,
                values: values.copy(alloc)?,
            }),
            Edit::DropAttr { name, attr, .. } => Ok(Edit::DropAttr {
                realm,
                name: name.copy(alloc)?,
                attr: attr.copy(alloc)?,
            }),
            Edit::Reload { users, groups, .. } => Ok(Edit::Reload {
                realm,
                users: users.copy(alloc)?,
                groups: groups.copy(alloc)?,
            }),
        }
    }
}

/// The first fault of a properties text, with the number of its line, counted from 1.
#[derive(Clone, Copy, Debug, PartialEq, Eq)]
pub enum PropFault {
    BadLine(u32),
    BadHex(u32),
    Twice(u32),
    TooMany(u32),
}

/// Why an edit is refused.
#[derive(Clone, Copy, Debug, PartialEq, Eq)]
pub enum EditFault {
    /// The journal holds as many edits as it may: this many.
    JournalFull(u32),
    /// There is no such realm.
    NoRealm,
    /// The realm takes no edit of this kind.
    ReadOnly,
    /// The name is there.
    Exists,
    /// The name isn't there.
    Absent,
    /// The slot holds no credential.
    NoCred,
    /// The identity has no such attribute.
    NoAttr,
    /// The identity has as many credentials as it may have.
    CredsFull,
    /// The identity has as many attributes as it may have.
    AttrsFull,
    /// The realm has as many identities as it may have.
    RowsFull,
    /// The text of users is faulty.
    Users(PropFault),
    /// The text of groups is faulty.
    Groups(PropFault),
}
