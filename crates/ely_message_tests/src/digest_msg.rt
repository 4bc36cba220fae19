//! Headers as they come, read to their fields, and texts that are none, with their first faults.

use ely_base::{NoMemory, Refused, cut_at, push_number};
use ely_digest_msg::{
    DigestAlg, DigestFault, DigestField, DigestReply, read_authorization, scan_authorization,
    write_challenge,
};
use std::alloc::Global;
use std::test::Fail;

/// Whether these are the fields of the header of RFC 7616 section 3.9.1, with that response.
fn is_mufasa(reply: &DigestReply, response: &[u8]) -> bool {
    reply.nc == 1
        && reply.name.bytes() == b"Mufasa".as_slice()
        && reply.realm.bytes() == b"http-auth@example.org".as_slice()
        && reply.nonce.bytes() == b"7ypf/xlj9XXwfDPEoM4URrv/xwf94BcCAzFZH4GiTo0v".as_slice()
        && reply.uri.bytes() == b"/dir/index.html".as_slice()
        && reply.response.bytes() == response
        && reply.cnonce.bytes() == b"f2/wE4q74E6zIJEtWaHKaf5wv/H5QzzpXusqGemxURZJ".as_slice()
}

#[test]
fn headers_read_to_their_fields(rt: HostRuntime) -> Result<(), Fail> {
    let rows: [(&str, DigestAlg, &[u8]); 3] = [
        // RFC 7616 section 3.9.1
        (
            "Digest username=\"Mufasa\", realm=\"http-auth@example.org\", uri=\"/dir/index.html\", algorithm=MD5, nonce=\"7ypf/xlj9XXwfDPEoM4URrv/xwf94BcCAzFZH4GiTo0v\", nc=00000001, cnonce=\"f2/wE4q74E6zIJEtWaHKaf5wv/H5QzzpXusqGemxURZJ\", qop=auth, response=\"8ca523f5e9506fed4657c9700eebdbec\", opaque=\"FQhe/qaU925kfnzjCev0ciny7QMkPqMAFRtzCUYo5tdS\"",
            DigestAlg::Md5,
            b"8ca523f5e9506fed4657c9700eebdbec",
        ),
        // in another order, as curl writes it
        (
            "Digest username=\"Mufasa\",realm=\"http-auth@example.org\",nonce=\"7ypf/xlj9XXwfDPEoM4URrv/xwf94BcCAzFZH4GiTo0v\",uri=\"/dir/index.html\",cnonce=\"f2/wE4q74E6zIJEtWaHKaf5wv/H5QzzpXusqGemxURZJ\",nc=00000001,algorithm=SHA-256,response=\"753927fa0e85d155564e2e272a28d1802ca10daf4496794697cf8db5856cb6c1\",qop=\"auth\",userhash=false",
            DigestAlg::Sha256,
            b"753927fa0e85d155564e2e272a28d1802ca10daf4496794697cf8db5856cb6c1",
        ),
        // other cases and forms: no algorithm, quoted numbers, escapes, blanks, empty members, names that mean nothing
        (
            "dIGEST   , ,UserName = \"Mu\\f\\a\\sa\",REALM\t=\t\"http-auth@example.org\" ,nonce=\"7ypf/xlj9XXwfDPEoM4URrv/xwf94BcCAzFZH4GiTo0v\", username*=UTF-8''x, x=1, x=\"\\\"\", uri=\"/dir/index.html\", cnonce=\"f2/wE4q74E6zIJEtWaHKaf5wv/H5QzzpXusqGemxURZJ\", nc=\"00000001\", qop=\"\\a\\u\\t\\h\", response=8ca523f5e9506fed4657c9700eebdbec, userhash=\"FALSE\" ,\t,",
            DigestAlg::Md5,
            b"8ca523f5e9506fed4657c9700eebdbec",
        ),
    ];
    for (text, alg, response) in rows {
        let reply = read_authorization(rt.alloc(), text.as_bytes())?.copy(rt.alloc())?;
        assert!(rt;
            reply.alg == alg && is_mufasa(&reply, response),
            "at {text}"
        );
    }
    Ok(())
}

#[test]
fn quotes_and_backslashes_are_taken_as_they_are(rt: HostRuntime) -> Result<(), Fail> {
    let text =
        b"Digest username=u, realm=\"a\\\"b\\\\c,=\", nonce=\"\", uri=u, response=p, nc=ffffffff, cnonce=c, qop=auth";
    let header = scan_authorization(text)?.copy(rt.alloc())?;
    assert!(rt; header.nc == 4294967295 && header.nonce.bytes().is_empty());
    assert_eq!(rt; header.realm.bytes(), b"a\"b\\c,=".as_slice());
    Ok(())
}

/// Texts, and behind each its first fault.
const FAULTS: &[u8] = b"\
    \nscheme\n\
    Digest\nscheme\n\
    Basic x\nscheme\n\
    Digest\tusername=u\nscheme\n\
    Digest,username=u\nscheme\n\
    \x20Digest username=u\nscheme\n\
    Digest username\ntoken 15\n\
    Digest  =\ntoken 8\n\
    Digest ,\t;\ntoken 9\n\
    Digest nc \t 1\ntoken 12\n\
    Digest nc= ,\ntoken 11\n\
    Digest nc=1 \t;\ntoken 13\n\
    Digest nc=1 qop=auth\ntoken 12\n\
    Digest realm=\"a\"b\ntoken 16\n\
    Digest uri=/x\ntoken 11\n\
    Digest username=\"a\nquote 16\n\
    Digest x=\"a\\\"\nquote 9\n\
    Digest x= \"a\\\nquote 10\n\
    Digest username=u, realm=\", nc=1, nc\nquote 25\n\
    Digest username=1, UserName\nrepeat username\n\
    Digest REALM=1, realm=2\nrepeat realm\n\
    Digest nonce=1, Nonce=\"\nrepeat nonce\n\
    Digest URI=1, uri;\nrepeat uri\n\
    Digest response=1, x=2, RESPONSE=3\nrepeat response\n\
    Digest nc=00000001, NC=00000002\nrepeat nc\n\
    Digest cnonce=1, cnoncE=1\nrepeat cnonce\n\
    Digest qop=auth, Qop=auth\nrepeat qop\n\
    Digest Algorithm=MD5,,algorithm\nrepeat algorithm\n\
    Digest opaque=1, oPaque=2\nrepeat opaque\n\
    Digest userhash=x, UserHash=false\nrepeat userhash\n\
    Digest \nmissing username\n\
    Digest x=1, x=2\nmissing username\n\
    Digest username=\"\"\nmissing realm\n\
    Digest realm=r, username=u, qop=x\nmissing nonce\n\
    Digest username=u, realm=r, nonce=n, nc=x\nmissing uri\n\
    Digest username=u, realm=r, nonce=n, uri=u, qop=auth\nmissing response\n\
    Digest username=u, realm=r, nonce=n, uri=u, response=p\nmissing nc\n\
    Digest nc=1, username=u, realm=r, nonce=n, uri=u, response=p\nmissing cnonce\n\
    Digest cnonce=c, nc=1, username=u, realm=r, nonce=n, uri=u, response=p, algorithm=x\nmissing qop\n\
    Digest realm=r, nonce=n, uri=u, response=p, cnonce=c, username=\"\", nc=1, algorithm=x, qop=x, userhash=true\nname\n\
    Digest realm=r, nonce=n, uri=u, response=p, cnonce=c, username=u, nc=0000000A, algorithm=x, qop=x, userhash=true\nnc\n\
    Digest realm=r, nonce=n, uri=u, response=p, cnonce=c, username=u, nc=000000001, qop=auth\nnc\n\
    Digest realm=r, nonce=n, uri=u, response=p, cnonce=c, username=u, nc=\"0000001 \", qop=auth\nnc\n\
    Digest realm=r, nonce=n, uri=u, response=p, cnonce=c, username=u, nc=0000000a, algorithm=MD5-sess, qop=x, userhash=true\nalgorithm\n\
    Digest realm=r, nonce=n, uri=u, response=p, cnonce=c, username=u, nc=0000000a, algorithm=sha-256, qop=\"auth-int\", userhash=true\nqop\n\
    Digest realm=r, nonce=n, uri=u, response=p, cnonce=c, username=u, nc=0000000a, qop=AUTH\nqop\n\
    Digest realm=r, nonce=n, uri=u, response=p, cnonce=c, username=u, nc=0000000a, qop=auth, userhash=true\nuserhash\n\
";

/// What a fault is, and of which field or where.
fn words(fault: DigestFault) -> (&'static str, Option<DigestField>, usize) {
    match fault {
        DigestFault::Scheme => ("scheme", None, 0),
        DigestFault::Token(offset) => ("token", None, offset),
        DigestFault::Quote(offset) => ("quote", None, offset),
        DigestFault::Repeat(field) => ("repeat", Some(field), 0),
        DigestFault::Missing(field) => ("missing", Some(field), 0),
        DigestFault::Name => ("name", None, 0),
        DigestFault::Nc => ("nc", None, 0),
        DigestFault::Algorithm => ("algorithm", None, 0),
        DigestFault::Qop => ("qop", None, 0),
        DigestFault::Userhash => ("userhash", None, 0),
    }
}

/// A fault in words.
fn told(alloc: Global, fault: DigestFault) -> Result<Vec<u8>, NoMemory> {
    let (word, field, offset) = words(fault);
    let mut text = Vec::from_slice(alloc, word.as_bytes())?;
    if let Some(field) = field {
        text.extend_from_slice(b" ")?;
        text.extend_from_slice(field.text().as_bytes())?;
    }
    if offset > 0 {
        text.extend_from_slice(b" ")?;
        push_number(&mut text, offset as u64)?;
    }
    Ok(text)
}

#[test]
fn the_first_fault_is_told(rt: HostRuntime) -> Result<(), Fail> {
    let mut rest = FAULTS;
    for row in 0..47 {
        let (text, behind) = cut_at(rest, b'\n');
        let (wanted, behind) = cut_at(behind.unwrap_or(b""), b'\n');
        let fault = scan_authorization(text).err().ok_or("a header")?;
        assert_eq!(rt; told(rt.alloc(), fault)?.as_slice(), wanted, "at row {row}");
        rest = behind.unwrap_or(b"");
    }
    assert!(rt; rest.is_empty());
    let refused = read_authorization(rt.alloc(), b"Digest username=\"a\n\"").err();
    assert!(rt; refused == Some(Refused::Fault(DigestFault::Missing(DigestField::Realm))));
    Ok(())
}

#[test]
fn a_challenge_names_realm_hash_and_nonce(rt: HostRuntime) -> Result<(), Fail> {
    let rows: [(DigestAlg, &[u8]); 2] = [
        (
            DigestAlg::Md5,
            b"Digest realm=\"r\", qop=\"auth\", algorithm=MD5, nonce=\"n\"",
        ),
        (
            DigestAlg::Sha256,
            b"Digest realm=\"r\", qop=\"auth\", algorithm=SHA-256, nonce=\"n\"",
        ),
    ];
    for (alg, wanted) in rows {
        assert_eq!(rt;
            write_challenge(rt.alloc(), b"r", alg, b"n")?.bytes(),
            wanted
        );
    }
    Ok(())
}
