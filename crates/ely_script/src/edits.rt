//! Reading the arguments of edits, from left to right.

ghost use Rattle.ely_base.specs.Refused.{Gives};
ghost use Rattle.ely_script.specs.EditLines.{add_of, remove_of, cred_at, set_cred_of, drop_cred_of, set_attr_of, drop_attr_of, reload_of};

use crate::args::{Args, Word, read_place};
use crate::command::Verb;
use crate::limits::MAX_SLOT;
use ely_base::{Refused, refused_as};
use ely_login::BadLine;
use ely_row::{CredFault, Edit, StoredCred, is_kind};
use std::alloc::Global;

pub(crate) fn read_add(alloc: Global, args: Args) -> Result<Verb, Refused<BadLine>>
    ensures { Gives result (add_of args.entry) }
{
    let (realm, name) = args.two()?;
    let (realm, name) = read_place(alloc, realm, name)?;
    Ok(Verb::Change {
        edit: Edit::Add { realm, name },
    })
}

pub(crate) fn read_remove(alloc: Global, args: Args) -> Result<Verb, Refused<BadLine>>
    ensures { Gives result (remove_of args.entry) }
{
    let (realm, name) = args.two()?;
    let (realm, name) = read_place(alloc, realm, name)?;
    Ok(Verb::Change {
        edit: Edit::Remove { realm, name },
    })
}

/// The credential of a kind and a coded text.
fn read_cred(alloc: Global, kind: Word, text: Word) -> Result<StoredCred, Refused<BadLine>>
    ensures { Gives result (cred_at kind.entry text.entry) }
{
    if !is_kind(kind.bytes) {
        return Err(Refused::Fault(BadLine::Cred(CredFault::Kind)));
    }
    let bytes = text.coded(alloc, 7)?;
    let cred = StoredCred::read(alloc, kind.bytes, bytes.bytes());
    refused_as(cred, BadLine::Cred)
}

pub(crate) fn read_set_cred(alloc: Global, args: Args) -> Result<Verb, Refused<BadLine>>
    ensures { Gives result (set_cred_of args.entry) }
{
    let (realm, name, slot, kind, text) = args.five()?;
    let (realm, name) = read_place(alloc, realm, name)?;
    let slot = slot.number(MAX_SLOT, 5)?;
    let cred = read_cred(alloc, kind, text)?;
    Ok(Verb::Change {
        edit: Edit::SetCred {
            realm,
            name,
            slot: slot as u8,
            cred,
        },
    })
}

pub(crate) fn read_drop_cred(alloc: Global, args: Args) -> Result<Verb, Refused<BadLine>>
    ensures { Gives result (drop_cred_of args.entry) }
{
    let (realm, name, slot) = args.three()?;
    let (realm, name) = read_place(alloc, realm, name)?;
    let slot = slot.number(MAX_SLOT, 5)?;
    Ok(Verb::Change {
        edit: Edit::DropCred {
            realm,
            name,
            slot: slot as u8,
        },
    })
}

pub(crate) fn read_set_attr(alloc: Global, args: Args) -> Result<Verb, Refused<BadLine>>
    ensures { Gives result (set_attr_of args.entry) }
{
    let (realm, args) = args.first()?;
    let (name, args) = args.first()?;
    let (attr, args) = args.first()?;
    let texts = args.some()?;
    let (realm, name) = read_place(alloc, realm, name)?;
    let attr = attr.name(alloc, 5)?;
    let values = texts.values(alloc)?;
    Ok(Verb::Change {
        edit: Edit::SetAttr {
            realm,
            name,
            attr,
            values,
        },
    })
}

pub(crate) fn read_drop_attr(alloc: Global, args: Args) -> Result<Verb, Refused<BadLine>>
    ensures { Gives result (drop_attr_of args.entry) }
{
    let (realm, name, attr) = args.three()?;
    let (realm, name) = read_place(alloc, realm, name)?;
    let attr = attr.name(alloc, 5)?;
    Ok(Verb::Change {
        edit: Edit::DropAttr { realm, name, attr },
    })
}

pub(crate) fn read_reload(alloc: Global, args: Args) -> Result<Verb, Refused<BadLine>>
    ensures { Gives result (reload_of args.entry) }
{
    let (realm, users, groups) = args.three()?;
    let realm = realm.name(alloc, 3)?;
    let users = users.text(alloc, 4)?;
    let groups = groups.text(alloc, 5)?;
    Ok(Verb::Change {
        edit: Edit::Reload {
            realm,
            users,
            groups,
        },
    })
}
