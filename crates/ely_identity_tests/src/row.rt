use ely_base::{Bytes, Name, NoMemory, Refused};
use ely_hash::Tag;
use ely_row::{
    CredFault, Credential, Deps, Edit, EditFault, Ha1, Params, Roles, Row, Salted, SharedRow,
    StoredCred, Values, changed, row_fault, touches,
};
use std::alloc::Global;
use std::test::Fail;

fn name(alloc: Global, text: &[u8]) -> Result<Name, NoMemory> {
    match Name::read(alloc, text) {
        Ok(name) => Ok(name),
        Err(_) => Err(NoMemory),
    }
}

fn clear(alloc: Global, text: &[u8]) -> Result<StoredCred, NoMemory> {
    match StoredCred::read(alloc, b"clear", text) {
        Ok(cred) => Ok(cred),
        Err(_) => Err(NoMemory),
    }
}

fn names(alloc: Global, count: u8) -> Result<Vec<Name>, NoMemory> {
    let mut list = Vec::new(alloc);
    for i in 0..count {
        list.push(name(alloc, &[b'a' + i / 26 % 26, b'a' + i % 26])?)?;
    }
    Ok(list)
}

fn values(alloc: Global, count: u8) -> Result<Values, NoMemory> {
    match Values::read(names(alloc, count)?) {
        Ok(values) => Ok(values),
        Err(_) => Err(NoMemory),
    }
}

/// One edit of each kind, of the user `u` in the realm `main`, and last a reload of that realm.
fn edits(alloc: Global) -> Result<Vec<Edit>, NoMemory> {
    let place = || Ok::<_, NoMemory>((name(alloc, b"main")?, name(alloc, b"u")?));
    let mut list = Vec::new(alloc);
    let (realm, user) = place()?;
    list.push(Edit::Add { realm, name: user })?;
    let (realm, user) = place()?;
    list.push(Edit::SetCred {
        realm,
        name: user,
        slot: 7,
        cred: clear(alloc, b"pencil")?,
    })?;
    let (realm, user) = place()?;
    list.push(Edit::SetAttr {
        realm,
        name: user,
        attr: name(alloc, b"groups")?,
        values: values(alloc, 2)?,
    })?;
    let (realm, user) = place()?;
    list.push(Edit::DropCred {
        realm,
        name: user,
        slot: 7,
    })?;
    let (realm, user) = place()?;
    list.push(Edit::DropAttr {
        realm,
        name: user,
        attr: name(alloc, b"groups")?,
    })?;
    let (realm, user) = place()?;
    list.push(Edit::Remove { realm, name: user })?;
    list.push(Edit::Reload {
        realm: name(alloc, b"main")?,
        users: Bytes::copy_of(alloc, b"u=00")?,
        groups: Bytes::copy_of(alloc, b"u=a")?,
    })?;
    Ok(list)
}

#[test]
fn a_copied_edit_keeps_all_its_parts(rt: HostRuntime) -> Result<(), Fail> {
    for edit in edits(rt.alloc())?.as_slice() {
        let copy = edit.copy(rt.alloc())?;
        let shown = format!(in rt.alloc(); "{copy:?}")?;
        assert_eq!(rt;
            shown.as_str(),
            format!(in rt.alloc(); "{edit:?}")?.as_str()
        );
    }
    Ok(())
}

#[test]
fn one_to_64_values_are_kept(rt: HostRuntime) -> Result<(), Fail> {
    for (count, kept) in [(0u8, false), (1, true), (64, true), (65, false)] {
        match Values::read(names(rt.alloc(), count)?) {
            Ok(values) => {
                assert!(rt; kept && values.all().len() == usize::from(count));
                assert_eq!(rt; values.copy(rt.alloc())?.all().len(), usize::from(count));
            }
            Err(list) => assert!(rt; !kept && list.len() == usize::from(count)),
        }
    }
    Ok(())
}

/// The password in the slot, where one is there in the clear.
fn password(row: &Row, slot: u8) -> &[u8] {
    match row.cred(slot) {
        None => b"",
        Some(cred) => match cred.credential() {
            Credential::Clear(password) => password.bytes(),
            _ => b"",
        },
    }
}

/// The row with the edit made, where it is there and takes it.
fn after(alloc: Global, row: Option<Row>, edit: &Edit) -> Result<Option<Row>, NoMemory> {
    match row_fault(0, row.as_ref(), edit) {
        None => changed(alloc, row.as_ref(), edit),
        Some(_) => Ok(None),
    }
}

#[test]
fn edits_make_rows_and_take_them_away(rt: HostRuntime) -> Result<(), Fail> {
    let groups = name(rt.alloc(), b"groups")?;
    let mut row = None;
    let mut shown = Vec::new(rt.alloc());
    for edit in edits(rt.alloc())?.as_slice() {
        row = after(rt.alloc(), row, edit)?;
        match &row {
            None => shown.push((9, 9))?,
            Some(row) => shown.push((row.cred_count(), row.attr_count()))?,
        }
        if let Some(row) = &row
            && row.has_cred(7)
        {
            let copy = SharedRow::new(rt.alloc(), row.copy(rt.alloc())?)?.share()?;
            assert_eq!(rt; password(copy.row(), 7), b"pencil".as_slice());
            assert!(rt; copy.row().attr(&groups).is_some() == row.has_attr(&groups));
        }
    }
    assert_eq!(rt;
        shown.as_slice(),
        [(0, 0), (1, 0), (1, 1), (0, 1), (0, 0), (9, 9), (9, 9)].as_slice()
    );
    Ok(())
}

/// The fault of a credential's text, if it has one.
fn fault(alloc: Global, kind: &[u8], text: &[u8]) -> Option<CredFault> {
    match StoredCred::read(alloc, kind, text) {
        Err(Refused::Fault(fault)) => Some(fault),
        _ => None,
    }
}

#[test]
fn the_first_fault_of_a_salted_password_is_told(rt: HostRuntime) -> Result<(), Fail> {
    let rows: [(&[u8], Option<CredFault>); 9] = [
        (b"2:c2FsdA==:6mwBTcctb4zNHtkqzh1B8NjeiVc=", None),
        (b"1000000:c2FsdA==:6mwBTcctb4zNHtkqzh1B8NjeiVc=", None),
        (b"0:!:6mwBTcctb4zNHtkqzh1B8NjeiVc=", Some(CredFault::Turns)),
        (
            b"1000001:c2FsdA==:6mwBTcctb4zNHtkqzh1B8NjeiVc=",
            Some(CredFault::Turns),
        ),
        (b"2:c2FsdA==", Some(CredFault::Turns)),
        (b"2:!:", Some(CredFault::Base64)),
        (b"2::c2F:sdA==", Some(CredFault::Base64)),
        (b"2::6mwBTcctb4zNHtkqzh1B8NjeiVc=", Some(CredFault::Length)),
        (b"2:c2FsdA==:c2FsdA==", Some(CredFault::Length)),
    ];
    for (text, wanted) in rows {
        assert!(rt; fault(rt.alloc(), b"scram-sha-1", text) == wanted);
    }
    assert!(rt; fault(rt.alloc(), b"scram-sha-256", rows[0].0) == Some(CredFault::Length));
    assert!(rt; fault(rt.alloc(), b"scram", rows[0].0) == Some(CredFault::Kind));
    Ok(())
}

#[test]
fn the_first_fault_of_a_hash_is_told(rt: HostRuntime) -> Result<(), Fail> {
    let rows: [(&[u8], Option<CredFault>); 6] = [
        (
            b"939e7578ed9e3c518a452acee763bce9:testrealm@host.com:8080",
            None,
        ),
        (b"939E7578ED9E3C518A452ACEE763BCE9", Some(CredFault::Hex)),
        (b"939e7578ed9e3c518a452acee763bce:", Some(CredFault::Hex)),
        (b"939e:", Some(CredFault::Length)),
        (
            b"939e7578ed9e3c518a452acee763bce9:",
            Some(CredFault::Length),
        ),
        (
            b"939e7578ed9e3c518a452acee763bce9:a\\b",
            Some(CredFault::Text),
        ),
    ];
    for (text, wanted) in rows {
        assert!(rt; fault(rt.alloc(), b"digest-md5", text) == wanted);
    }
    assert!(rt; fault(rt.alloc(), b"digest-sha-256", rows[0].0) == Some(CredFault::Length));
    Ok(())
}

/// What the credential is of, in a copy: its turns, or 0, and the length of its secret.
fn shape(alloc: Global, kind: &[u8], text: &[u8]) -> Result<(u32, usize), NoMemory> {
    let Ok(cred) = StoredCred::read(alloc, kind, text) else {
        return Err(NoMemory);
    };
    let copy = cred.copy(alloc)?;
    match copy.credential() {
        Credential::Clear(password) => Ok((0, password.bytes().len())),
        Credential::ScramSha1(salted) => Ok((salted.turns(), salted.salted().bytes().len())),
        Credential::ScramSha256(salted) => Ok((salted.turns(), salted.salt().bytes().len())),
        Credential::DigestMd5(ha1) => Ok((0, ha1.hash().bytes().len())),
        Credential::DigestSha256(ha1) => Ok((0, ha1.realm().bytes().len())),
    }
}

fn crosses<T: Send + Sync>() {}

#[test]
fn credentials_of_every_kind_are_copied_whole(rt: HostRuntime) -> Result<(), Fail> {
    crosses::<Row>();
    crosses::<SharedRow>();
    crosses::<Edit>();
    crosses::<Deps>();
    crosses::<Params>();
    crosses::<Roles>();
    let salted = b"2:c2FsdA==:6mwBTcctb4zNHtkqzh1B8NjeiVc=";
    let longer = b"3:c2FsdA==:AAECAwQFBgcICQoLDA0ODxAREhMUFRYXGBkaGxwdHh8=";
    let hashed = b"939e7578ed9e3c518a452acee763bce9:testrealm@host.com";
    let double = b"939e7578ed9e3c518a452acee763bce9939e7578ed9e3c518a452acee763bce9:a:b";
    assert!(rt; shape(rt.alloc(), b"clear", b"pencil")? == (0, 6));
    assert!(rt; shape(rt.alloc(), b"scram-sha-1", salted)? == (2, 20));
    assert!(rt; shape(rt.alloc(), b"scram-sha-256", longer)? == (3, 4));
    assert!(rt; shape(rt.alloc(), b"digest-md5", hashed)? == (0, 16));
    assert!(rt; shape(rt.alloc(), b"digest-sha-256", double)? == (0, 3));
    let params = Params::plain(rt.alloc()).copy(rt.alloc())?;
    assert!(rt;
        params.turns() == 4096 && params.salt().is_none() && params.seed().bytes().is_empty()
    );
    Ok(())
}

/// The salted password of so many turns, a salt of so many bytes and a key of so many, where there is one.
fn salted(alloc: Global, turns: u32, salt: u8, key: usize) -> Result<Option<Salted>, NoMemory> {
    let bytes = [7; 65];
    let salt = Bytes::copy_of(alloc, bytes.get(..usize::from(salt)).unwrap_or(&bytes))?;
    Ok(
        bytes
            .get(..key)
            .and_then(Tag::of)
            .and_then(|key| Salted::of(turns, salt, key)),
    )
}

#[test]
fn parts_make_a_credential_within_its_bounds(rt: HostRuntime) -> Result<(), Fail> {
    let rows = [
        (1, 1, 20, true),
        (1_000_000, 64, 20, true),
        (0, 1, 20, false),
        (1_000_001, 1, 20, false),
        (1, 0, 20, false),
        (1, 65, 20, false),
        (1, 1, 16, false),
    ];
    for (turns, salt, key, kept) in rows {
        let made = salted(rt.alloc(), turns, salt, key)?;
        assert!(rt; made.is_some() == kept);
        assert!(rt; made.is_none_or(|s| StoredCred::of(Credential::ScramSha1(s)).is_some()));
    }
    let longer = salted(rt.alloc(), 1, 1, 32)?;
    assert!(rt; longer.is_some_and(|s| StoredCred::of(Credential::ScramSha1(s)).is_none()));
    Ok(())
}

#[test]
fn a_hash_has_a_realm_of_printable_bytes(rt: HostRuntime) -> Result<(), Fail> {
    let rows: [(&[u8], bool); 4] = [
        (b"a@b", true),
        (b"", false),
        (b"a\"b", false),
        (b"\xC3\xA4", false),
    ];
    for (realm, kept) in rows {
        let realm = Bytes::copy_of(rt.alloc(), realm)?;
        let made = Tag::of(&[1; 16]).and_then(|hash| Ha1::of(realm, hash));
        assert!(rt; made.is_some() == kept);
    }
    Ok(())
}

#[test]
fn edits_are_judged_by_the_row_that_is_there(rt: HostRuntime) -> Result<(), Fail> {
    let absent = [
        None,
        Some(EditFault::Absent),
        Some(EditFault::Absent),
        Some(EditFault::Absent),
        Some(EditFault::Absent),
        Some(EditFault::Absent),
        Some(EditFault::Absent),
    ];
    let bare = [
        Some(EditFault::Exists),
        None,
        None,
        Some(EditFault::NoCred),
        Some(EditFault::NoAttr),
        None,
        None,
    ];
    let row = Row::new(rt.alloc());
    for (i, edit) in edits(rt.alloc())?.iter().enumerate() {
        assert!(rt; row_fault(0, None, edit) == absent.get(i).copied().flatten());
        assert!(rt; row_fault(0, Some(&row), edit) == bare.get(i).copied().flatten());
    }
    let add = edits(rt.alloc())?;
    let full = |count: usize| add.first().and_then(|edit| row_fault(count, None, edit));
    assert!(rt; full(65535).is_none() && full(65536) == Some(EditFault::RowsFull));
    Ok(())
}

#[test]
fn an_edit_touches_its_own_place_and_a_reload_its_whole_realm(rt: HostRuntime) -> Result<(), Fail> {
    let rows: [(&[u8], &[u8], bool, bool); 4] = [
        (b"main", b"u", true, true),
        (b"other", b"u", false, false),
        (b"main", b"v", false, true),
        (b"u", b"main", false, false),
    ];
    for (realm, user, touched, reloaded) in rows {
        let mut places = Vec::new(rt.alloc());
        places.push((name(rt.alloc(), b"x")?, name(rt.alloc(), b"y")?))?;
        places.push((name(rt.alloc(), realm)?, name(rt.alloc(), user)?))?;
        let deps = Deps::of(places).copy(rt.alloc())?;
        for edit in edits(rt.alloc())?.as_slice() {
            let expected = if edit.name().is_some() {
                touched
            } else {
                reloaded
            };
            assert!(rt; touches(edit, &deps) == expected);
        }
    }
    Ok(())
}

#[test]
fn roles_are_a_set_in_the_order_of_bytes(rt: HostRuntime) -> Result<(), Fail> {
    let mut list = Vec::new(rt.alloc());
    for text in [
        b"ops".as_slice(),
        b"b",
        b"Z",
        b"ab",
        b"a",
        b"b",
        b"\xC3\xA9",
    ] {
        list.push(name(rt.alloc(), text)?)?;
    }
    let roles = Roles::of(list).copy(rt.alloc())?;
    let mut shown = Vec::new(rt.alloc());
    for role in roles.all() {
        shown.extend_from_slice(role.bytes())?;
        shown.push(b' ')?;
    }
    assert_eq!(rt; shown.as_slice(), b"Z a ab b ops \xC3\xA9 ".as_slice());
    assert!(rt; roles.has(&name(rt.alloc(), b"ab")?) && !roles.has(&name(rt.alloc(), b"A")?));
    Ok(())
}
