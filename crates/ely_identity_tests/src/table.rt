//! Edits that are made and edits that are refused, the rows that they leave, and what they touch.

ghost use Rattle.std.specs.Prelude.{◌≤◌};

use ely_base::{Bytes, Name, NoMemory, Refused, Version};
use ely_row::{Deps, Edit, EditFault, PropFault, RowSource, StoredCred, is_realm};
use ely_table::{RealmClass, Tables};
use std::alloc::Global;
use std::test::Fail;

fn name(alloc: Global, text: &[u8]) -> Result<Name, NoMemory> {
    match Name::read(alloc, text) {
        Ok(name) => Ok(name),
        Err(_) => Err(NoMemory),
    }
}

/// A realm `main` whose identities are changed one by one, a realm `all` that is made of others, and a realm `file` of two
/// texts, with passwords as they are.
fn tables(alloc: Global, journal_limit: u32) -> Result<Tables, NoMemory>
    requires some { 1 ≤ journal_limit }
    requires most { journal_limit ≤ 131072 }
{
    let main = name(alloc, b"main")?;
    let all = name(alloc, b"all")?;
    let file = name(alloc, b"file")?;
    let fallback = Bytes::copy_of(alloc, b"file")?;
    if main.is(&all) || main.is(&file) || all.is(&file) || !is_realm(fallback.bytes()) {
        return Err(NoMemory);
    }
    let texts = RealmClass::Properties {
        plain: true,
        fallback,
    };
    let mut realms = Vec::new(alloc);
    realms.push((main, RealmClass::Modifiable))?;
    realms.push((all, RealmClass::Composite))?;
    realms.push((file, texts.copy(alloc)?))?;
    Tables::new(alloc, realms, journal_limit)
}

fn add(alloc: Global, realm: &[u8], user: &[u8]) -> Result<Edit, NoMemory> {
    Ok(Edit::Add {
        realm: name(alloc, realm)?,
        name: name(alloc, user)?,
    })
}

fn remove(alloc: Global, user: &[u8]) -> Result<Edit, NoMemory> {
    Ok(Edit::Remove {
        realm: name(alloc, b"main")?,
        name: name(alloc, user)?,
    })
}

fn clear(alloc: Global, text: &[u8]) -> Result<StoredCred, NoMemory> {
    match StoredCred::read(alloc, b"clear", text) {
        Ok(cred) => Ok(cred),
        Err(_) => Err(NoMemory),
    }
}

fn set_cred(alloc: Global, user: &[u8]) -> Result<Edit, NoMemory> {
    Ok(Edit::SetCred {
        realm: name(alloc, b"main")?,
        name: name(alloc, user)?,
        slot: 7,
        cred: clear(alloc, b"pencil")?,
    })
}

fn drop_cred(alloc: Global, user: &[u8]) -> Result<Edit, NoMemory> {
    Ok(Edit::DropCred {
        realm: name(alloc, b"main")?,
        name: name(alloc, user)?,
        slot: 7,
    })
}

fn drop_attr(alloc: Global, user: &[u8]) -> Result<Edit, NoMemory> {
    Ok(Edit::DropAttr {
        realm: name(alloc, b"main")?,
        name: name(alloc, user)?,
        attr: name(alloc, b"groups")?,
    })
}

fn reload(alloc: Global, realm: &[u8], users: &[u8], groups: &[u8]) -> Result<Edit, NoMemory> {
    Ok(Edit::Reload {
        realm: name(alloc, realm)?,
        users: Bytes::copy_of(alloc, users)?,
        groups: Bytes::copy_of(alloc, groups)?,
    })
}

/// What the edit is answered, where there is memory.
fn answer(
    alloc: Global,
    tables: &mut Tables,
    edit: Edit,
) -> Result<Result<Version, EditFault>, NoMemory> {
    match tables.apply(alloc, edit) {
        Ok(version) => Ok(Ok(version)),
        Err(Refused::Fault(fault)) => Ok(Err(fault)),
        Err(Refused::NoMemory) => Err(NoMemory),
    }
}

/// Whether there was such a version, and a later edit changes the user of the realm.
fn is_touched(
    alloc: Global,
    tables: &Tables,
    v: u64,
    realm: &[u8],
    user: &[u8],
) -> Result<bool, NoMemory> {
    let mut places = Vec::new(alloc);
    places.push((name(alloc, b"all")?, name(alloc, user)?))?;
    places.push((name(alloc, realm)?, name(alloc, user)?))?;
    let deps = Deps::of(places);
    Ok(v <= tables.version().0 && tables.touched_since(Version(v), &deps))
}

/// What an edit does.
#[derive(Clone, Copy)]
enum Verb {
    Add,
    Remove,
    SetCred,
    DropCred,
    DropAttr,
    Reload,
}

/// An edit of the user; of a reload it is the text of users. All but the first and the last are of `main`.
fn edit(alloc: Global, verb: Verb, realm: &[u8], user: &[u8]) -> Result<Edit, NoMemory> {
    match verb {
        Verb::Add => add(alloc, realm, user),
        Verb::Remove => remove(alloc, user),
        Verb::SetCred => set_cred(alloc, user),
        Verb::DropCred => drop_cred(alloc, user),
        Verb::DropAttr => drop_attr(alloc, user),
        Verb::Reload => reload(alloc, realm, user, b""),
    }
}

#[test]
fn the_first_fault_is_answered(rt: HostRuntime) -> Result<(), Fail> {
    let alloc = rt.alloc();
    let mut tables = tables(alloc, 2)?;
    let rows: [(Verb, &[u8], &[u8], Option<EditFault>); 13] = [
        (Verb::Add, b"other", b"u", Some(EditFault::NoRealm)),
        (Verb::Add, b"all", b"u", Some(EditFault::ReadOnly)),
        (Verb::Add, b"file", b"u", Some(EditFault::ReadOnly)),
        (Verb::Reload, b"other", b"x", Some(EditFault::NoRealm)),
        (Verb::Reload, b"main", b"x", Some(EditFault::ReadOnly)),
        (Verb::Reload, b"all", b"x", Some(EditFault::ReadOnly)),
        (Verb::Remove, b"main", b"u", Some(EditFault::Absent)),
        (Verb::Add, b"main", b"u", None),
        (Verb::Add, b"main", b"u", Some(EditFault::Exists)),
        (Verb::DropCred, b"main", b"u", Some(EditFault::NoCred)),
        (Verb::DropAttr, b"main", b"u", Some(EditFault::NoAttr)),
        (Verb::SetCred, b"main", b"u", None),
        (Verb::Add, b"other", b"u", Some(EditFault::JournalFull(2))),
    ];
    for (verb, realm, user, expected) in rows {
        let edit = edit(alloc, verb, realm, user)?;
        assert!(rt; answer(alloc, &mut tables, edit)?.err() == expected);
    }
    assert!(rt; tables.version() == Version(2));
    Ok(())
}

#[test]
fn later_edits_of_a_name_touch_it(rt: HostRuntime) -> Result<(), Fail> {
    let alloc = rt.alloc();
    let mut tables = tables(alloc, 9)?;
    assert!(rt; tables.last().is_none());
    tables.apply(alloc, add(alloc, b"main", b"u")?)?;
    tables.apply(alloc, remove(alloc, b"u")?)?;
    assert!(rt;
        tables
            .last()
            .is_some_and(|edit| matches!(edit, Edit::Remove { .. }))
    );
    assert!(rt; is_touched(alloc, &tables, 1, b"main", b"u")?);
    assert!(rt; !is_touched(alloc, &tables, 2, b"main", b"u")?);
    tables.apply(alloc, add(alloc, b"main", b"u")?)?;
    assert!(rt; is_touched(alloc, &tables, 1, b"main", b"u")?);
    assert!(rt; !is_touched(alloc, &tables, 3, b"main", b"u")?);
    assert!(rt; !is_touched(alloc, &tables, 0, b"main", b"main")?);
    Ok(())
}

#[test]
fn a_row_is_there_until_it_is_removed(rt: HostRuntime) -> Result<(), Fail> {
    let alloc = rt.alloc();
    let mut tables = tables(alloc, 9)?;
    let main = name(alloc, b"main")?;
    let user = name(alloc, b"u")?;
    tables.apply(alloc, add(alloc, b"main", b"u")?)?;
    tables.apply(alloc, set_cred(alloc, b"u")?)?;
    assert!(rt;
        tables
            .row_now(&main, &user)
            .is_some_and(|row| row.has_cred(7))
    );
    let kept = tables.row_shared(&main, &user)?;
    assert!(rt; tables.row_now(&user, &user).is_none());
    tables.apply(alloc, remove(alloc, b"u")?)?;
    assert!(rt; tables.row_now(&main, &user).is_none());
    assert!(rt; tables.row_shared(&main, &user)?.is_none());
    assert!(rt; kept.is_some_and(|shared| shared.row().has_cred(7)));
    Ok(())
}

/// How many credentials and attributes the users `u`, `v` and `w` of `file` have; 0 where there is no row.
fn sizes(alloc: Global, tables: &Tables) -> Result<[usize; 3], NoMemory> {
    let file = name(alloc, b"file")?;
    let mut sizes = [0; 3];
    for (size, user) in sizes.iter_mut().zip([b"u", b"v", b"w"]) {
        if let Some(row) = tables.row_now(&file, &name(alloc, user)?) {
            *size = row.cred_count() + row.attr_count();
        }
    }
    Ok(sizes)
}

#[test]
fn a_reload_puts_its_rows_in_place_of_all_others(rt: HostRuntime) -> Result<(), Fail> {
    let alloc = rt.alloc();
    let mut tables = tables(alloc, 9)?;
    let bad = PropFault::BadLine(2);
    let steps: [(&[u8], &[u8], Option<EditFault>, [usize; 3]); 4] = [
        (b"u=p\nv=q", b"u=g, h\nx=g", None, [2, 1, 0]),
        (b"w=r\nx", b"\nx", Some(EditFault::Users(bad)), [2, 1, 0]),
        (b"w=r", b"w=g\nx", Some(EditFault::Groups(bad)), [2, 1, 0]),
        (b"w=r", b"u=g", None, [0, 0, 1]),
    ];
    for (users, groups, fault, expected) in steps {
        let edit = reload(alloc, b"file", users, groups)?;
        assert!(rt; answer(alloc, &mut tables, edit)?.err() == fault);
        assert!(rt; sizes(alloc, &tables)? == expected);
    }
    for (v, realm, user, touched) in [
        (1, b"file", b"x", true),
        (1, b"file", b"u", true),
        (2, b"file", b"x", false),
        (0, b"main", b"u", false),
    ] {
        assert!(rt; is_touched(alloc, &tables, v, realm, user)? == touched);
    }
    Ok(())
}

fn crosses<T: Send + Sync>() {}

#[test]
fn tables_are_read_by_many() {
    crosses::<Tables>();
}
