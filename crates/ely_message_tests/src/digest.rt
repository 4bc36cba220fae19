//! Published headers against the password and others, and a small table through issues and counts.

use ely_base::Refused;
use ely_digest::{IssueFault, NonceTable, SpendFault, ha1, is_hex_of, response_of};
use ely_digest_msg::{DigestFault, DigestReply, read_authorization};
use ely_hash::{HashAlg, Md5Alg, Sha256Alg};
use std::alloc::Global;
use std::test::Fail;

/// The headers of RFC 7616 section 3.9.1.
const MD5: &str =
    "Digest username=\"Mufasa\", realm=\"http-auth@example.org\", uri=\"/dir/index.html\", algorithm=MD5, nonce=\"7ypf/xlj9XXwfDPEoM4URrv/xwf94BcCAzFZH4GiTo0v\", nc=00000001, cnonce=\"f2/wE4q74E6zIJEtWaHKaf5wv/H5QzzpXusqGemxURZJ\", qop=auth, response=\"8ca523f5e9506fed4657c9700eebdbec\", opaque=\"FQhe/qaU925kfnzjCev0ciny7QMkPqMAFRtzCUYo5tdS\"";

const SHA256: &str =
    "Digest username=\"Mufasa\", realm=\"http-auth@example.org\", uri=\"/dir/index.html\", algorithm=SHA-256, nonce=\"7ypf/xlj9XXwfDPEoM4URrv/xwf94BcCAzFZH4GiTo0v\", nc=00000001, cnonce=\"f2/wE4q74E6zIJEtWaHKaf5wv/H5QzzpXusqGemxURZJ\", qop=auth, response=\"753927fa0e85d155564e2e272a28d1802ca10daf4496794697cf8db5856cb6c1\", opaque=\"FQhe/qaU925kfnzjCev0ciny7QMkPqMAFRtzCUYo5tdS\"";

/// The header of RFC 2617 section 3.5, whose password has another capital letter.
const OLDER: &str =
    "Digest username=\"Mufasa\", realm=\"testrealm@host.com\", nonce=\"dcd98b7102dd2f0e8b11d0f600bfb0c093\", uri=\"/dir/index.html\", qop=auth, nc=00000001, cnonce=\"0a4f113b\", response=\"6629fae49393a05397450978507c4ef1\", opaque=\"5ccc069c403ebaf9f0171e9517f40e41\"";

/// Whether the header's response is that of its own user with the password.
fn answers<H: HashAlg>(reply: &DigestReply, password: &[u8], method: &[u8]) -> bool {
    let kept = ha1::<H>(reply.name.bytes(), reply.realm.bytes(), password);
    let response = response_of::<H>(&kept, reply, method);
    is_hex_of(reply.response.bytes(), &response)
}

/// The same of a header's text.
fn is_answer<H: HashAlg>(
    alloc: Global,
    text: &str,
    password: &[u8],
    method: &[u8],
) -> Result<bool, Refused<DigestFault>> {
    let reply = read_authorization(alloc, text.as_bytes())?;
    Ok(answers::<H>(&reply, password, method))
}

#[test]
fn published_headers(rt: HostRuntime) -> Result<(), Fail> {
    let alloc = rt.alloc();
    assert!(rt; is_answer::<Md5Alg>(alloc, MD5, b"Circle of Life", b"GET")?);
    assert!(rt; is_answer::<Sha256Alg>(alloc, SHA256, b"Circle of Life", b"GET")?);
    assert!(rt; is_answer::<Md5Alg>(alloc, OLDER, b"Circle Of Life", b"GET")?);
    assert!(rt; !is_answer::<Md5Alg>(alloc, OLDER, b"Circle of Life", b"GET")?);
    assert!(rt; !is_answer::<Md5Alg>(alloc, MD5, b"Circle of Life", b"POST")?);
    assert!(rt; !is_answer::<Sha256Alg>(alloc, MD5, b"Circle of Life", b"GET")?);
    Ok(())
}

#[test]
fn a_kept_hash(rt: HostRuntime) {
    let kept = ha1::<Md5Alg>(b"Mufasa", b"testrealm@host.com", b"Circle Of Life");
    assert!(rt; is_hex_of(b"939e7578ed9e3c518a452acee763bce9", &kept));
    assert!(rt; !is_hex_of(b"939E7578ED9E3C518A452ACEE763BCE9", &kept));
    assert!(rt; !is_hex_of(b"939e7578ed9e3c518a452acee763bc", &kept));
}

#[test]
fn counts_of_a_nonce_rise(rt: HostRuntime) -> Result<(), Fail> {
    let mut table = NonceTable::new(rt.alloc(), 2)?;
    table.issue(rt.alloc(), b"n")?;
    assert!(rt; table.spend(b"n", 0) == Err(SpendFault::Replayed(0)));
    assert!(rt; table.spend(b"n", 1) == Ok(()));
    assert!(rt; table.spend(b"n", 1) == Err(SpendFault::Replayed(1)));
    assert!(rt; table.spend(b"n", 7) == Ok(()));
    assert!(rt; table.spend(b"n", 6) == Err(SpendFault::Replayed(7)));
    assert!(rt; table.spend(b"n", u32::MAX) == Ok(()));
    assert!(rt; table.spend(b"n", u32::MAX) == Err(SpendFault::Replayed(u32::MAX)));
    assert!(rt; table.spend(b"m", 1) == Err(SpendFault::Stale));
    Ok(())
}

#[test]
fn a_full_table_loses_its_oldest(rt: HostRuntime) -> Result<(), Fail> {
    let alloc = rt.alloc();
    let mut table = NonceTable::new(alloc, 2)?;
    table.issue(alloc, b"a")?;
    table.issue(alloc, b"b")?;
    assert!(rt; table.issue(alloc, b"a") == Err(Refused::Fault(IssueFault::Used)));
    assert!(rt; table.spend(b"a", 3) == Ok(()));
    table.issue(alloc, b"c")?;
    assert!(rt; table.holds(b"a") == None);
    assert!(rt; table.holds(b"b") == Some(0));
    table.issue(alloc, b"a")?;
    assert!(rt; table.holds(b"a") == Some(0));
    assert!(rt; table.holds(b"b") == None);
    assert!(rt; table.holds(b"c") == Some(0));
    Ok(())
}

fn crosses<T: Send + Sync>() {}

#[test]
fn a_table_is_read_by_many() {
    crosses::<NonceTable>();
}
