use ely_base::{Name, NoMemory, Refused};
use ely_propfile::{read_groups, read_users, rows_of};
use ely_row::{Credential, Row, StoredCred, Values};
use std::alloc::Global;
use std::test::Fail;

const HASH: [u8; 16] = [
    0x93, 0x9e, 0x75, 0x78, 0xed, 0x9e, 0x3c, 0x51, 0x8a, 0x45, 0x2a, 0xce, 0xe7, 0x63, 0xbc, 0xe9,
];

fn push(shown: &mut String, bytes: &[u8]) -> Result<(), NoMemory> {
    match str::from_utf8(bytes) {
        Ok(text) => shown.push_str(text)?,
        Err(_) => shown.push('?')?,
    }
    Ok(())
}

/// The password, or the realm of the hash.
fn text_of(cred: &StoredCred) -> &[u8] {
    match cred.credential() {
        Credential::Clear(password) => password.bytes(),
        Credential::DigestMd5(ha1) => ha1.realm().bytes(),
        _ => b"?",
    }
}

/// The users as `NAME=TEXT;`, or the fault.
fn shown_users(alloc: Global, text: &[u8], plain: bool) -> Result<String, NoMemory> {
    let mut shown = String::new(alloc);
    match read_users(alloc, text, b"fallback", plain) {
        Err(Refused::NoMemory) => return Err(NoMemory),
        Err(Refused::Fault(fault)) => return Ok(format!(in alloc; "{fault:?}")?),
        Ok(users) => {
            for (name, cred) in users.as_slice() {
                push(&mut shown, name.bytes())?;
                push(&mut shown, b"=")?;
                push(&mut shown, text_of(cred))?;
                push(&mut shown, b";")?;
            }
        }
    }
    Ok(shown)
}

fn push_values(shown: &mut String, values: &Values) -> Result<(), NoMemory> {
    for value in values.all() {
        push(shown, b",")?;
        push(shown, value.bytes())?;
    }
    Ok(())
}

/// The groups as `NAME,GROUP,GROUP;`, or the fault.
fn shown_groups(alloc: Global, text: &[u8]) -> Result<String, NoMemory> {
    let mut shown = String::new(alloc);
    match read_groups(alloc, text) {
        Err(Refused::NoMemory) => return Err(NoMemory),
        Err(Refused::Fault(fault)) => return Ok(format!(in alloc; "{fault:?}")?),
        Ok(groups) => {
            for (name, values) in groups.as_slice() {
                push(&mut shown, name.bytes())?;
                push_values(&mut shown, values)?;
                push(&mut shown, b";")?;
            }
        }
    }
    Ok(shown)
}

/// The first row's realm and hash, and its groups.
fn shown_row(alloc: Global, row: &Row) -> Result<String, NoMemory> {
    let mut shown = String::new(alloc);
    if let Some(cred) = row.cred(1) {
        push(&mut shown, text_of(cred))?;
        if let Credential::DigestMd5(ha1) = cred.credential() {
            push(
                &mut shown,
                if ha1.hash().bytes() == HASH.as_slice() {
                    b" hashed"
                } else {
                    b" other"
                },
            )?;
        }
    }
    if let Ok(attr) = Name::read(alloc, b"groups") {
        if let Some(values) = row.attr(&attr) {
            push_values(&mut shown, values)?;
        }
    }
    Ok(shown)
}

#[test]
fn users_and_groups_make_rows(rt: HostRuntime) -> Result<(), Fail> {
    let text = b"#$REALM_NAME=testrealm@host.com$\nMufasa=939e7578ed9e3c518a452acee763bce9";
    let users = read_users(rt.alloc(), text, b"file", false)?;
    let groups = read_groups(rt.alloc(), b"Nala=cubs\nMufasa=admin, ops\n")?;
    let rows = rows_of(rt.alloc(), users, groups)?;
    assert_eq!(rt; rows.len(), 1);
    for (name, row) in rows.as_slice() {
        assert_eq!(rt; name.bytes(), b"Mufasa".as_slice());
        assert_eq!(rt; (row.cred_count(), row.attr_count()), (1, 1));
        assert_eq!(rt;
            shown_row(rt.alloc(), row)?.as_str(),
            "testrealm@host.com hashed,admin,ops"
        );
    }
    Ok(())
}

#[test]
fn texts_of_users(rt: HostRuntime) -> Result<(), Fail> {
    let hashed: [(&[u8], &str); 17] = [
        (b"", ""),
        (b"#x", ""),
        (b"x", "BadLine(1)"),
        (b"a=zz", "BadHex(1)"),
        (b"a=", "BadHex(1)"),
        (b"=zz", "BadLine(1)"),
        (b"a=939e7578ed9e3c518a452acee763bce", "BadHex(1)"),
        (b"a=939e7578ed9e3c518a452acee763bce91", "BadHex(1)"),
        (b"a\0=939e7578ed9e3c518a452acee763bce9", "BadLine(1)"),
        (
            b"#$REALM_NAME=r\n\xC3\xA4=939e7578ed9e3c518a452acee763bce9",
            "\u{e4}=fallback;",
        ),
        (
            b"#$REALM_NAME=\xC3\xA4$\r\na\rb=939e7578ed9e3c518a452acee763bce9\r\n",
            "a\rb=fallback;",
        ),
        (
            b" \t\n#x\r\n!y=z\r\n \tb\\=c\\  \t= 939E7578ED9E3C518A452ACEE763BCE9\t \r\n",
            "b=c =fallback;",
        ),
        (
            b"a=939e7578ed9e3c518a452acee763bce9\n!$REALM_NAME=$REALM_NAME=r s$$REALM_NAME=t$\n#$REALM_NAME=u$",
            "a=r s;",
        ),
        (
            b"#$REALM_NAME=$\n#$REALM_NAME=q\"$\na$REALM_NAME\\=v$=939e7578ed9e3c518a452acee763bce9",
            "a$REALM_NAME=v$=fallback;",
        ),
        (b"a=939e7578ed9e3c518a452acee763bce9\n\na=zz", "BadHex(3)"),
        (
            b"a=939e7578ed9e3c518a452acee763bce9\n\\a=939e7578ed9e3c518a452acee763bce9\nx",
            "Twice(2)",
        ),
        (b"a=939e7578ed9e3c518a452acee763bce9\nb\\", "BadLine(2)"),
    ];
    for (text, shown) in hashed {
        assert_eq!(rt; shown_users(rt.alloc(), text, false)?.as_str(), shown);
    }
    let plain: [(&[u8], &str); 5] = [
        (b"a= \tp=q \r\nb=\\x\r", "a=p=q ;b=\\x\r;"),
        (b"a= ", "BadLine(1)"),
        (b"a=\0", "BadLine(1)"),
        (b"a=\xFF", "BadLine(1)"),
        (b"a=p\nb=q\na=r", "Twice(3)"),
    ];
    for (text, shown) in plain {
        assert_eq!(rt; shown_users(rt.alloc(), text, true)?.as_str(), shown);
    }
    Ok(())
}

#[test]
fn texts_of_groups(rt: HostRuntime) -> Result<(), Fail> {
    let rows: [(&[u8], &str); 7] = [
        (b"a=b\na=c", "Twice(2)"),
        (
            b"a= b , c,,\t,b,\td e \nb=\nc= , \nd=\\f",
            "a,b,c,d e;d,\\f;",
        ),
        (b"a=\na=b", "Twice(2)"),
        (b"a=b,\0", "BadLine(1)"),
        (b"a=b\na=b,\xFF", "BadLine(2)"),
        (b"!a\r\n a", "BadLine(2)"),
        (b"a\nb=\0", "BadLine(1)"),
    ];
    for (text, shown) in rows {
        assert_eq!(rt; shown_groups(rt.alloc(), text)?.as_str(), shown);
    }
    Ok(())
}

/// A text of so many lines, each a name of its own, `=` and the tail.
fn lines(alloc: Global, count: u32, tail: &[u8]) -> Result<Vec<u8>, NoMemory> {
    let mut text = Vec::new(alloc);
    for i in 0..count {
        let name = format!(in alloc; "n{i}=")?;
        text.extend_from_slice(name.as_str().as_bytes())?;
        text.extend_from_slice(tail)?;
        text.push(b'\n')?;
    }
    Ok(text)
}

#[test]
fn names_and_groups_are_counted(rt: HostRuntime) -> Result<(), Fail> {
    let text = lines(rt.alloc(), 65537, b"p")?;
    assert_eq!(rt;
        shown_users(rt.alloc(), text.as_slice(), true)?.as_str(),
        "TooMany(65537)"
    );
    let text = lines(rt.alloc(), 65537, b"")?;
    assert_eq!(rt;
        shown_groups(rt.alloc(), text.as_slice())?.as_str(),
        "TooMany(65537)"
    );
    let text = lines(rt.alloc(), 65536, b"p")?;
    assert_eq!(rt; read_groups(rt.alloc(), text.as_slice())?.len(), 65536);
    for (count, large) in [(64u32, false), (65, true)] {
        let mut line = Vec::new(rt.alloc());
        line.extend_from_slice(b"a=n0,")?;
        for i in 0..count {
            let group = format!(in rt.alloc(); "n{i},")?;
            line.extend_from_slice(group.as_str().as_bytes())?;
        }
        let shown = shown_groups(rt.alloc(), line.as_slice())?;
        assert_eq!(rt; shown.as_str() == "TooMany(1)", large);
    }
    Ok(())
}
