//! What no clause says: the messages of RFC 5802 and RFC 7677 read to their fields, and the faults of texts that are
//! none, as the grammar's tables give them.

use ely_base::{NoMemory, cut_at, push_number};
use ely_hash::Tag;
use ely_scram_msg::{
    ClientFirst, ClientLast, Flag, MsgFault, MsgKind, ServerError, error_text, read_client_first,
    read_client_last, scan_client_first, scan_client_last, write_server_first, write_verifier,
};
use std::alloc::Global;
use std::test::Fail;

/// The proof of RFC 5802 section 5.
const SHA1_PROOF: [u8; 20] = [
    0xBF, 0x45, 0xFC, 0xBF, 0x70, 0x73, 0xD9, 0x3D, 0x02, 0x24, 0x66, 0xC9, 0x43, 0x21, 0x74, 0x5F,
    0xE1, 0xC8, 0xE1, 0x3B,
];

/// The proof of RFC 7677 section 3.
const SHA256_PROOF: [u8; 32] = [
    0x74, 0x7C, 0xDB, 0x65, 0xAA, 0x56, 0x22, 0x4E, 0x23, 0x52, 0x13, 0x7E, 0x52, 0xD7, 0xBD, 0xCA,
    0xD6, 0xA0, 0xF7, 0x38, 0xDF, 0x30, 0x78, 0x2C, 0xAA, 0x69, 0xA2, 0xCF, 0xB0, 0x27, 0x75, 0x54,
];

fn crosses<T: Send + Sync>() {}

#[test]
fn messages_may_cross_threads() {
    crosses::<ClientFirst>();
    crosses::<ClientLast>();
}

/// Texts, and behind each the first fault as a client-first message.
const FIRST_FAULTS: &[u8] = b"\
    \nflag 0\n\
    n\nflag 0\n\
    n,\nattr 2\n\
    n,,\nattr 3\n\
    n,a=x\nattr 5\n\
    n,,r=abc,n=user\nattr 3\n\
    n,,n=user,x=y,r=abc\nattr 10\n\
    n,,n=,r=abc\nname 5\n\
    n,,n=a=,r=b\nescape 6\n\
    n,,n=a=2cb,r=abc\nescape 6\n\
    n,,n=a,r=\nnonce 9\n\
    n,,n=a,r=b c\nnonce 10\n\
    n,,n=\xFF\ntext 5\n\
    p=tls-unique,,n=user,r=abc\nbound 0\n\
    n,m=x,n=user,r=abc\nmandatory 2\n\
    n,,m=x,n=user,r=abc\nmandatory 3\n\
    n,,n=a,m=x\nmandatory 7\n\
    n,,n=a,r=b,m=x\nmandatory 11\n\
    n,,n=a,r=b,m\ntrailing 10\n\
    n,,n=a,r=b,\ntrailing 10\n\
    n,,n=a,r=b,x=\ntrailing 10\n\
    n,,n=a,r=b,1=x\ntrailing 10\n\
    n,,n=a,r=b,x=y,z=\0\ntrailing 14\n\
    y,,n=user,r=abc\nread\n\
    n,,n=a,r=b,p=x\nread\n\
    n,,n=a,r=b,x=y,z=\xC3\xA9=\nread\n\
";

/// Texts, and behind each the first fault as a client-final message.
const LAST_FAULTS: &[u8] = b"\
    c\nattr 0\n\
    c=biws\nattr 6\n\
    c=biws,r=\nnonce 9\n\
    c=biws,r=abc\ntrailing 12\n\
    c=biws,r=abc,p\ntrailing 12\n\
    c=biws,r=abc,p=AA==,x=y\ntrailing 19\n\
    c=bi,r=abc,p=AA==\nbase64 2\n\
    c=,r=abc,p=AA==\nbase64 2\n\
    c=biws,r=abc,p=\nbase64 15\n\
    c=biws,r=abc,p=A,x=y\nbase64 15\n\
    r=abc,c=biws,p=AA==\nattr 0\n\
    c=biws,x=y,r=abc,p=AA==\nattr 7\n\
    c=biws,m=y,r=abc,p=AA==\nmandatory 7\n\
    c=biws,r=abc,m=y,p=AA==\nmandatory 13\n\
    c=biws,r=abc,p=AA==\xFF\ntext 19\n\
    c=biws,r=abc,x=y,p=AA==\nread\n\
    c=biws,r=abc,p=AA==\nread\n\
";

/// The word of a kind of faults.
fn word(kind: MsgKind) -> &'static str {
    match kind {
        MsgKind::Text => "text ",
        MsgKind::Flag => "flag ",
        MsgKind::Bound => "bound ",
        MsgKind::Mandatory => "mandatory ",
        MsgKind::Attr => "attr ",
        MsgKind::Escape => "escape ",
        MsgKind::Name => "name ",
        MsgKind::Nonce => "nonce ",
        MsgKind::Base64 => "base64 ",
        MsgKind::Trailing => "trailing ",
    }
}

/// A fault in words, or that there is none.
fn told(alloc: Global, fault: Option<MsgFault>) -> Result<Vec<u8>, NoMemory> {
    let Some(fault) = fault else {
        return Ok(Vec::from_slice(alloc, b"read")?);
    };
    let mut text = Vec::from_slice(alloc, word(fault.kind).as_bytes())?;
    push_number(&mut text, fault.place as u64)?;
    Ok(text)
}

/// Whether each text of a table has the fault that stands behind it.
fn tells(alloc: Global, table: &[u8], rows: u32, last: bool) -> Result<bool, NoMemory> {
    let mut rest = table;
    for _ in 0..rows {
        let (text, behind) = cut_at(rest, b'\n');
        let (wanted, behind) = cut_at(behind.unwrap_or(b""), b'\n');
        let fault = if last {
            scan_client_last(text).err()
        } else {
            scan_client_first(text).err()
        };
        if told(alloc, fault)?.as_slice() != wanted {
            return Ok(false);
        }
        rest = behind.unwrap_or(b"");
    }
    Ok(rest.is_empty())
}

#[test]
fn messages_are_told_by_their_first_fault(rt: HostRuntime) -> Result<(), Fail> {
    assert!(rt; tells(rt.alloc(), FIRST_FAULTS, 26, false)?);
    assert!(rt; tells(rt.alloc(), LAST_FAULTS, 17, true)?);
    Ok(())
}

#[test]
fn first_messages_are_read_to_their_parts(rt: HostRuntime) -> Result<(), Fail> {
    // RFC 5802 section 5, RFC 7677 section 3, and one with escapes
    let rows: [(&[u8], &[u8], &[u8]); 3] = [
        (b"n,,", b"user", b"fyko+d2lbbFgONRv9qkxdawL"),
        (b"n,,", b"user", b"rOprNGfwEbeRWgbNEkqO"),
        (b"n,a=x=2Cy,", b"a=2Cb=3Dc", b"abc"),
    ];
    for (gs2, name, nonce) in rows {
        let mut bare = Vec::from_slice(rt.alloc(), b"n=")?;
        bare.extend_from_slice(name)?;
        bare.extend_from_slice(b",r=")?;
        bare.extend_from_slice(nonce)?;
        let mut text = Vec::from_slice(rt.alloc(), gs2)?;
        text.extend_from_slice(bare.as_slice())?;
        let first = read_client_first(rt.alloc(), text.as_slice())?.copy(rt.alloc())?;
        let plain = name == b"user".as_slice();
        assert!(rt; first.flag == Flag::N && first.authzid.is_none() == plain);
        assert!(rt;
            first
                .authzid
                .is_none_or(|name| name.bytes() == b"x,y".as_slice())
        );
        let wanted: &[u8] = if plain { b"user" } else { b"a,b=c" };
        assert_eq!(rt; first.name.bytes(), wanted);
        assert_eq!(rt; first.nonce.bytes(), nonce);
        assert_eq!(rt; first.gs2.bytes(), gs2);
        assert_eq!(rt; first.bare.bytes(), bare.as_slice());
    }
    Ok(())
}

#[test]
fn last_messages_are_read_to_their_parts(rt: HostRuntime) -> Result<(), Fail> {
    // RFC 5802 section 5 and RFC 7677 section 3
    let rows: [(&[u8], &[u8], &[u8]); 2] = [
        (
            b"fyko+d2lbbFgONRv9qkxdawL3rfcNHYJY1ZVvWVs7j",
            b"v0X8v3Bz2T0CJGbJQyF0X+HI4Ts=",
            &SHA1_PROOF,
        ),
        (
            b"rOprNGfwEbeRWgbNEkqO%hvYDpWUa2RaTCAfuxFIlj)hNlF$k0",
            b"dHzbZapWIk4jUhN+Ute9ytag9zjfMHgsqmmiz7AndVQ=",
            &SHA256_PROOF,
        ),
    ];
    for (nonce, proof, bytes) in rows {
        let mut without_proof = Vec::from_slice(rt.alloc(), b"c=biws,r=")?;
        without_proof.extend_from_slice(nonce)?;
        let mut text = Vec::from_slice(rt.alloc(), without_proof.as_slice())?;
        text.extend_from_slice(b",p=")?;
        text.extend_from_slice(proof)?;
        let last = read_client_last(rt.alloc(), text.as_slice())?.copy(rt.alloc())?;
        assert_eq!(rt; last.binding.bytes(), b"n,,".as_slice());
        assert_eq!(rt; last.nonce.bytes(), nonce);
        assert_eq!(rt; last.proof.bytes(), bytes);
        assert_eq!(rt; last.without_proof.bytes(), without_proof.as_slice());
    }
    Ok(())
}

#[test]
fn the_server_messages_of_rfc_5802(rt: HostRuntime) -> Result<(), Fail> {
    let salt = [
        0x41, 0x25, 0xC2, 0x47, 0xE4, 0x3A, 0xB1, 0xE9, 0x3C, 0x6D, 0xFF, 0x76,
    ];
    let nonce = b"fyko+d2lbbFgONRv9qkxdawL3rfcNHYJY1ZVvWVs7j";
    let text = write_server_first(rt.alloc(), nonce, &salt, 4096)?;
    assert_eq!(rt;
        text.bytes(),
        b"r=fyko+d2lbbFgONRv9qkxdawL3rfcNHYJY1ZVvWVs7j,s=QSXCR+Q6sek8bf92,i=4096".as_slice()
    );
    let signature = Tag::of(&[
        0xAE, 0x61, 0x7D, 0xA6, 0xA5, 0x7C, 0x4B, 0xBB, 0x2E, 0x02, 0x86, 0x56, 0x8D, 0xAE, 0x1D,
        0x25, 0x19, 0x05, 0xB0, 0xA4,
    ])
    .ok_or("no tag")?;
    let text = write_verifier(rt.alloc(), &signature)?;
    assert_eq!(rt; text.bytes(), b"v=rmF9pqV8S7suAoZWja4dJRkFsKQ=".as_slice());
    assert_eq!(rt; error_text(ServerError::OtherError), "other-error");
    Ok(())
}
