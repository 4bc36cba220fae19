use ely_base::{NameFault, Refused};
use ely_plain::{PlainFault, read_plain};
use std::test::Fail;

#[test]
fn messages_are_read_to_their_parts(rt: HostRuntime) -> Result<(), Fail> {
    let rows: [(&[u8], &[u8], &[u8], &[u8]); 2] = [
        (b"\0user\0pencil", b"", b"user", b"pencil"),
        (b"bob\0user\0 pencil ", b"bob", b"user", b" pencil "),
    ];
    for (bytes, authzid, name, password) in rows {
        let message = read_plain(rt.alloc(), bytes)?.copy(rt.alloc())?;
        assert_eq!(rt; message.authzid.is_some(), !authzid.is_empty());
        assert!(rt; message.authzid.is_none_or(|name| name.bytes() == authzid));
        assert_eq!(rt; message.name.bytes(), name);
        assert_eq!(rt; message.password.bytes(), password);
    }
    Ok(())
}

#[test]
fn the_first_fault_is_told(rt: HostRuntime) {
    let rows: [(&[u8], PlainFault); 8] = [
        (b"", PlainFault::NoNul(0)),
        (b"a\0b", PlainFault::NoNul(1)),
        (b"\0\0\0", PlainFault::NoNul(3)),
        (b"\0\xFF\0x", PlainFault::NotText(1)),
        (b"\0\0", PlainFault::EmptyName),
        (b"\0a\0", PlainFault::EmptyPassword),
        (b"\0a\nb\0x", PlainFault::Name(NameFault::Barred(1))),
        (b"\n\0a\0x", PlainFault::Name(NameFault::Barred(0))),
    ];
    for (bytes, fault) in rows {
        assert!(rt; read_plain(rt.alloc(), bytes).err() == Some(Refused::Fault(fault)));
    }
}
