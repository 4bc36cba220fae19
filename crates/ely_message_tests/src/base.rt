use ely_base::{
    Bytes, Name, NameFault, Refused, TextFault, copy_names, copy_pairs, is_base64, push_base64,
    push_number, read_base64, read_hex, read_number, read_word, write_base64, write_hex,
    write_word,
};
use std::test::Fail;

#[test]
fn names_are_read_or_told_by_their_first_fault(rt: HostRuntime) -> Result<(), Fail> {
    let name = Name::read(rt.alloc(), b"Mufasa")?;
    assert_eq!(rt; name.bytes(), b"Mufasa".as_slice());
    assert_eq!(rt; name.copy(rt.alloc())?.bytes(), name.bytes());
    let long = [b'a'; 256];
    let rows: [(&[u8], NameFault); 4] = [
        (b"", NameFault::Empty),
        (&long, NameFault::Long(256)),
        (b"ab\xFF\n", NameFault::NotText(2)),
        (b"abc\n\0", NameFault::Barred(3)),
    ];
    for (bytes, fault) in rows {
        assert!(rt; Name::read(rt.alloc(), bytes).err() == Some(Refused::Fault(fault)));
    }
    Ok(())
}

#[test]
fn lists_of_names(rt: HostRuntime) -> Result<(), Fail> {
    let names = [Name::read(rt.alloc(), b"a")?, Name::read(rt.alloc(), b"b")?];
    for (copy, name) in copy_names(rt.alloc(), &names)?.iter().zip(&names) {
        assert_eq!(rt; copy.bytes(), name.bytes());
    }
    let pairs = [(Name::read(rt.alloc(), b"c")?, Name::read(rt.alloc(), b"d")?)];
    let copy = copy_pairs(rt.alloc(), &pairs)?;
    assert!(rt; copy.len() == 1 && copy[0].0.is(&pairs[0].0) && copy[0].1.is(&pairs[0].1));
    Ok(())
}

#[test]
fn numbers_are_read_and_written(rt: HostRuntime) -> Result<(), Fail> {
    let rows: [(&[u8], u64, Option<u64>); 8] = [
        (b"0", 0, Some(0)),
        (b"4096", 65535, Some(4096)),
        (b"18446744073709551615", u64::MAX, Some(u64::MAX)),
        (b"18446744073709551616", u64::MAX, None),
        (b"01", 9, None),
        (b"+1", 9, None),
        (b"", 9, None),
        (b"10", 9, None),
    ];
    for (text, max, number) in rows {
        assert_eq!(rt; read_number(text, max), number);
    }
    let mut out = Vec::from_slice(rt.alloc(), b"n ")?;
    push_number(&mut out, u64::MAX)?;
    assert_eq!(rt; out.as_slice(), b"n 18446744073709551615".as_slice());
    Ok(())
}

#[test]
fn words_are_coded_and_read(rt: HostRuntime) -> Result<(), Fail> {
    let text = write_word(rt.alloc(), b"a b,%\x7F")?;
    assert_eq!(rt; text.bytes(), b"a%20b%2C%25%7F".as_slice());
    let rows: [(&[u8], Option<&[u8]>, bool); 6] = [
        (text.bytes(), Some(b"a b,%\x7F"), true),
        (b"%2c=", Some(b",="), true),
        (b"a\xFF", Some(b"a\xFF"), false),
        (b"", Some(b""), false),
        (b"a%2", None, false),
        (b"%2g", None, false),
    ];
    for (word, bytes, name) in rows {
        let read = read_word(rt.alloc(), word);
        assert!(rt; read.is_ok() == bytes.is_some());
        let same = read.is_ok_and(|read| bytes.is_some_and(|bytes| read.bytes() == bytes));
        assert_eq!(rt; same, bytes.is_some());
        assert_eq!(rt; Name::read_word(rt.alloc(), word).is_ok(), name);
    }
    Ok(())
}

#[test]
fn texts_of_bytes_are_written_and_read(rt: HostRuntime) -> Result<(), Fail> {
    let bytes = Bytes::copy_of(rt.alloc(), b"\0user\0pencil")?;
    assert_eq!(rt; bytes.copy(rt.alloc())?.bytes(), bytes.bytes());
    let text = write_base64(rt.alloc(), bytes.bytes())?;
    assert_eq!(rt; text.bytes(), b"AHVzZXIAcGVuY2ls".as_slice());
    assert_eq!(rt;
        read_base64(rt.alloc(), text.bytes())?.bytes(),
        bytes.bytes()
    );
    let mut out = Vec::new(rt.alloc());
    push_base64(&mut out, &[0; 49])?;
    assert!(rt; out.len() == 68 && out.ends_with(b"AAA==") && is_base64(out.as_slice()));
    let bad: [&[u8]; 3] = [b"AHVz=", b"AHV", b"AHVA\n"];
    for text in bad {
        assert!(rt; !is_base64(text));
        assert!(rt; read_base64(rt.alloc(), text).err() == Some(Refused::Fault(TextFault::Bad)));
    }
    assert_eq!(rt;
        read_hex(rt.alloc(), b"0aFF")?.bytes(),
        b"\x0a\xFF".as_slice()
    );
    assert!(rt; read_hex(rt.alloc(), b"0").err() == Some(Refused::Fault(TextFault::Bad)));
    assert_eq!(rt;
        write_hex(rt.alloc(), b"\x0a\xFF")?.bytes(),
        b"0aff".as_slice()
    );
    Ok(())
}
