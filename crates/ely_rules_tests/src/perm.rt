//! What is granted by rows, by modes and by texts; the bounds, and copies.

use ely_base::{Bytes, Items, Name, NoMemory};
use ely_perm::{Mode, PermRow, Permissions, granted, implies};
use ely_row::Roles;
use std::alloc::Global;
use std::test::Fail;

fn name(alloc: Global, text: &[u8]) -> Result<Name, NoMemory> {
    Name::read(alloc, text).map_err(|_| NoMemory)
}

fn names(alloc: Global, texts: &[&[u8]]) -> Result<Vec<Name>, NoMemory> {
    let mut list = Vec::new(alloc);
    for text in texts {
        list.push(name(alloc, text)?)?;
    }
    Ok(list)
}

/// A row for some names, some roles or everybody, that grants one text.
fn row(
    alloc: Global,
    principals: &[&[u8]],
    roles: &[&[u8]],
    match_all: bool,
    grant: &[u8],
) -> Result<PermRow, NoMemory> {
    let mut texts = Vec::new(alloc);
    texts.push(Bytes::copy_of(alloc, b"other")?)?;
    texts.push(Bytes::copy_of(alloc, grant)?)?;
    Ok(PermRow {
        principals: Items::of(names(alloc, principals)?),
        roles: Items::of(names(alloc, roles)?),
        match_all,
        grant: Items::of(texts),
    })
}

/// A row for each answer: one for everybody that grants `login` (`y`) or another text (`n`), or one for nobody (`-`).
fn rows(alloc: Global, answers: &[u8]) -> Result<Vec<PermRow>, NoMemory> {
    let mut list = Vec::new(alloc);
    for answer in answers {
        let grant = if *answer == b'n' {
            b"log".as_slice()
        } else {
            b"login"
        };
        list.push(row(alloc, &[b"nobody"], &[b"none"], *answer != b'-', grant)?)?;
    }
    Ok(list)
}

#[test]
fn each_mode_takes_the_answers_together(rt: HostRuntime) -> Result<(), Fail> {
    let alloc = rt.alloc();
    let user = name(alloc, b"user")?;
    let roles = Roles::of(names(alloc, &[b"dev"])?);
    let modes = [Mode::First, Mode::And, Mode::Or, Mode::Xor, Mode::Unless];
    let table: [(&[u8], &[u8; 5]); 16] = [
        (b"", b"nnnnn"),
        (b"--", b"nnnnn"),
        (b"-y", b"yyyyy"),
        (b"n-", b"nnnnn"),
        (b"y-y", b"yyynn"),
        (b"yn", b"ynyyy"),
        (b"-n-y", b"nnyyn"),
        (b"nn", b"nnnnn"),
        (b"yyy", b"yyyyn"),
        (b"yyn", b"ynynn"),
        (b"yny", b"ynynn"),
        (b"ynn", b"ynyyy"),
        (b"nyy", b"nnynn"),
        (b"nyn", b"nnyyn"),
        (b"nny", b"nnyyn"),
        (b"nnn", b"nnnnn"),
    ];
    for (answers, wanted) in table {
        for (mode, wanted) in modes.iter().zip(wanted) {
            let perms = Permissions {
                mode: *mode,
                rows: Items::of(rows(alloc, answers)?),
            };
            assert!(rt; granted(&perms, &user, &roles, b"login") == (*wanted == b'y'));
        }
    }
    Ok(())
}

#[test]
fn a_text_is_implied(rt: HostRuntime) {
    let table: [(&[u8], &[u8], bool); 20] = [
        (b"*", b"a", true),
        (b"*", b"", true),
        (b"*", b"\xFF\n\0", true),
        (b":*", b":a", true),
        (b":*", b":", true),
        (b":*", b":*", true),
        (b":*", b"a", false),
        (b"a:*", b"a:b", true),
        (b"a:*", b"a:", true),
        (b"a:*", b"a:*", true),
        (b"a:*", b"a", false),
        (b"a:*", b"ab", false),
        (b"a:*", b"b:a", false),
        (b"a*", b"a*", true),
        (b"a*", b"a", false),
        (b"a*", b"ab", false),
        (b"a:", b"a:", true),
        (b"a:", b"a:b", false),
        (b"a", b"*", false),
        (b"a", b"a:", false),
    ];
    for (grant, wanted, implied) in table {
        assert!(rt; implies(grant, wanted) == implied);
    }
}

#[test]
fn a_row_is_for_names_for_roles_or_for_everybody(rt: HostRuntime) -> Result<(), Fail> {
    let alloc = rt.alloc();
    let user = name(alloc, b"user")?;
    let table: [(&[&[u8]], &[&[u8]], bool, &[&[u8]], bool); 7] = [
        (&[], &[b"staff"], false, &[], false),
        (&[], &[b"staff"], false, &[b"staff"], true),
        (&[], &[b"staff", b"dev"], false, &[b"code", b"dev"], true),
        (&[b"bob", b"user"], &[b"staff"], false, &[], true),
        (&[b"bob"], &[b"user"], false, &[b"bob"], false),
        (&[], &[], true, &[], true),
        (&[], &[], false, &[b"staff"], false),
    ];
    for (principals, for_roles, match_all, roles, wanted) in table {
        let mut rows = Vec::new(alloc);
        rows.push(row(alloc, principals, for_roles, match_all, b"login")?)?;
        let perms = Permissions {
            mode: Mode::First,
            rows: Items::of(rows),
        };
        let roles = Roles::of(names(alloc, roles)?);
        assert!(rt; granted(&perms, &user, &roles, b"login") == wanted);
    }
    Ok(())
}

/// The same name so often.
fn names_of_count(alloc: Global, count: u8) -> Result<Items<Name>, NoMemory> {
    let mut list = Vec::new(alloc);
    for _ in 0..count {
        list.push(name(alloc, b"a")?)?;
    }
    Ok(Items::of(list))
}

/// A row of so many names, roles and granted texts, the texts of so many bytes.
fn row_of_counts(alloc: Global, counts: [u8; 3], bytes: u16) -> Result<PermRow, NoMemory> {
    let mut grant = Vec::new(alloc);
    for _ in 0..counts[2] {
        let mut text = Vec::new(alloc);
        for _ in 0..bytes {
            text.push(b'a')?;
        }
        grant.push(Bytes::of(text))?;
    }
    Ok(PermRow {
        principals: names_of_count(alloc, counts[0])?,
        roles: names_of_count(alloc, counts[1])?,
        match_all: false,
        grant: Items::of(grant),
    })
}

#[test]
fn lists_and_texts_are_bounded(rt: HostRuntime) -> Result<(), Fail> {
    let alloc = rt.alloc();
    let table: [(u8, [u8; 3], u16, bool); 11] = [
        (0, [0, 0, 0], 1, true),
        (1, [0, 0, 0], 1, true),
        (64, [1, 1, 1], 255, true),
        (65, [0, 0, 0], 1, false),
        (2, [64, 64, 64], 1, true),
        (1, [65, 0, 0], 1, false),
        (1, [0, 65, 0], 1, false),
        (1, [0, 0, 65], 1, false),
        (1, [0, 0, 1], 0, false),
        (1, [0, 0, 1], 255, true),
        (1, [0, 0, 1], 256, false),
    ];
    for (count, counts, bytes, fits) in table {
        let mut rows = Vec::new(alloc);
        for _ in 0..count {
            rows.push(row_of_counts(alloc, counts, bytes)?)?;
        }
        let perms = Permissions {
            mode: Mode::And,
            rows: Items::of(rows),
        };
        assert!(rt; perms.fits() == fits);
    }
    Ok(())
}

#[test]
fn login_is_granted_to_everybody(rt: HostRuntime) -> Result<(), Fail> {
    let alloc = rt.alloc();
    let perms = Permissions::login_for_all(alloc)?;
    let none = Roles::of(Vec::new(alloc));
    let user = name(alloc, b"user")?;
    assert!(rt; perms.fits());
    assert!(rt; granted(&perms, &user, &none, b"login"));
    assert!(rt; !granted(&perms, &user, &none, b"logi"));
    Ok(())
}

fn crosses<T: Send + Sync>() {}

#[test]
fn copied_permissions_are_equal(rt: HostRuntime) -> Result<(), Fail> {
    crosses::<Permissions>();
    let alloc = rt.alloc();
    let mut rows = Vec::new(alloc);
    rows.push(row(alloc, &[], &[], true, b"login")?)?;
    rows.push(row(alloc, &[b"user", b"bob"], &[b"staff"], false, b"run-as:*")?)?;
    let perms = Permissions {
        mode: Mode::Or,
        rows: Items::of(rows),
    };
    let copy = perms.copy(alloc)?;
    assert_eq!(rt;
        format!(in alloc; "{copy:?}")?.as_str(),
        format!(in alloc; "{perms:?}")?.as_str()
    );
    Ok(())
}
