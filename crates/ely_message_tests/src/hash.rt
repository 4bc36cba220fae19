//! Published values of the formulas, and each public call once.
ghost use Rattle.std.specs.Prelude.{◌≡◌, ◌<◌, ◌≤◌};

use ely_hash::{
    HashAlg, Hmac, Md5Alg, ScramKeys, Sha1Alg, Sha256Alg, Steps, Tag, digest, hi, hmac, keys_of,
    same, xor,
};
use std::alloc::{AllocError, Global};
use std::marker::Brand;
use std::sync::ledger::{Blank, Ledger};
use std::test::Fail;

fn hex(alloc: Global, bytes: &[u8]) -> Result<String, AllocError> {
    let mut text = String::new(alloc);
    for byte in bytes {
        write!(text, "{byte:02x}")?;
    }
    Ok(text)
}

fn counted_hi<H: HashAlg, L: Ledger>(blank: Blank, password: &[u8], salt: &[u8], turns: u32) -> Tag
    requires name { blank.name ≡ L.name }
    requires parts { blank.parts ≡ L.parts }
    requires some { 0 < blank.parts }
    requires turns { 1 ≤ turns }
{
    let mut steps = Steps::<L>::of(blank);
    hi::<H, L>(password, salt, turns, &mut steps)
}

fn counted_keys<H: HashAlg, L: Ledger>(blank: Blank, salted: &Tag) -> ScramKeys
    requires name { blank.name ≡ L.name }
    requires parts { blank.parts ≡ L.parts }
    requires some { 0 < blank.parts }
{
    let mut steps = Steps::<L>::of(blank);
    keys_of::<H, L>(salted, &mut steps)
}

fn hi_alone<H: HashAlg>(password: &[u8], salt: &[u8], turns: u32) -> Tag
    requires { 1 ≤ turns }
{
    counted_hi::<H, Brand>(Blank::new(1), password, salt, turns)
}

fn keys_alone<H: HashAlg>(salted: &Tag) -> ScramKeys {
    counted_keys::<H, Brand>(Blank::new(1), salted)
}

fn in_pieces<H: HashAlg>(key: &[u8], prefix: &[u8], rest: &[u8]) -> Tag {
    let mut mac = Hmac::<H>::start(key);
    mac.add(prefix);
    mac.add(rest);
    mac.end()
}

// The test suite of RFC 1321, the examples of FIPS 180-4, RFC 2104, RFC 2202 (case 6), RFC 4231 (cases 2 and 6).
#[test]
fn digests_and_macs_are_the_published_ones(rt: HostRuntime) -> Result<(), Fail> {
    let text = b"what do ya want for nothing?";
    let long = b"Test Using Larger Than Block-Size Key - Hash Key First";
    let table = [
        (digest::<Md5Alg>(b"abc"), "900150983cd24fb0d6963f7d28e17f72"),
        (
            digest::<Sha1Alg>(b"abc"),
            "a9993e364706816aba3e25717850c26c9cd0d89d",
        ),
        (
            digest::<Sha256Alg>(b"abc"),
            "ba7816bf8f01cfea414140de5dae2223b00361a396177a9cb410ff61f20015ad",
        ),
        (
            hmac::<Md5Alg>(b"Jefe", text),
            "750c783e6ab0b503eaa86e310a5db738",
        ),
        (
            hmac::<Sha1Alg>(b"Jefe", text),
            "effcdf6ae5eb2fa2d27416d5f184df9c259a7c79",
        ),
        (
            hmac::<Sha256Alg>(b"Jefe", text),
            "5bdcc146bf60754e6a042426089575c75a003f089d2739839dec58b964ec3843",
        ),
        (
            in_pieces::<Sha1Alg>(b"Jefe", b"what do ya want ", b"for nothing?"),
            "effcdf6ae5eb2fa2d27416d5f184df9c259a7c79",
        ),
        (
            hmac::<Sha1Alg>(&[0xaa; 80], long),
            "aa4ae5e15272d00e95705637ce8a3b55ed402112",
        ),
        (
            hmac::<Sha256Alg>(&[0xaa; 131], long),
            "60e431591ee0b67f0d8a26aacbf5b77f8e0bc6213728c5140546040f0ee37f54",
        ),
    ];
    for (tag, wanted) in table {
        assert_eq!(rt; hex(rt.alloc(), tag.bytes())?.as_str(), wanted);
    }
    Ok(())
}

// RFC 6070 (SHA-1), and the first 32 bytes of RFC 7914 section 11 (SHA-256).
#[test]
fn hi_is_the_published_one(rt: HostRuntime) -> Result<(), Fail> {
    let table = [
        (
            hi_alone::<Sha1Alg>(b"password", b"salt", 1),
            "0c60c80f961f0e71f3a9b524af6012062fe037a6",
        ),
        (
            hi_alone::<Sha1Alg>(b"password", b"salt", 2),
            "ea6c014dc72d6f8ccd1ed92ace1d41f0d8de8957",
        ),
        (
            hi_alone::<Sha1Alg>(b"password", b"salt", 4096),
            "4b007901b765489abead49d926f721d065a429c1",
        ),
        (
            hi_alone::<Sha256Alg>(b"passwd", b"salt", 1),
            "55ac046e56e3089fec1691c22544b605f94185216dde0465e68b9d57c20dacbc",
        ),
    ];
    for (salted, wanted) in table {
        assert_eq!(rt; hex(rt.alloc(), salted.bytes())?.as_str(), wanted);
    }
    Ok(())
}

// The keys of the login of RFC 5802 section 5, computed with Python's hashlib and hmac. The proof and the verifier that
// the RFC prints follow from them.
#[test]
fn keys_are_those_of_the_published_login(rt: HostRuntime) -> Result<(), Fail> {
    let salt = [
        0x41, 0x25, 0xc2, 0x47, 0xe4, 0x3a, 0xb1, 0xe9, 0x3c, 0x6d, 0xff, 0x76,
    ];
    let salted = hi_alone::<Sha1Alg>(b"pencil", &salt, 4096);
    let keys = keys_alone::<Sha1Alg>(&salted);
    assert_eq!(rt;
        hex(rt.alloc(), salted.bytes())?.as_str(),
        "1d96ee3a529b5a5f9e47c01f229a2cb8a6e15f7d"
    );
    assert_eq!(rt;
        hex(rt.alloc(), keys.stored.bytes())?.as_str(),
        "e9d94660c39d65c38fbad91c358f14da0eef2bd6"
    );
    assert_eq!(rt;
        hex(rt.alloc(), keys.server.bytes())?.as_str(),
        "0fe09258b3ac852ba502cc62ba903eaacdbf7d31"
    );
    Ok(())
}

fn crosses<T: Send + Sync>() {}

#[test]
fn tags_hold_1_to_32_bytes_and_may_cross_threads(rt: HostRuntime) -> Result<(), Fail> {
    crosses::<Tag>();
    crosses::<ScramKeys>();
    assert!(rt; Tag::of(b"").is_none());
    assert!(rt; Tag::of(&[1; 33]).is_none());
    let (Some(left), Some(right)) = (Tag::of(&[1, 2, 3]), Tag::of(&[255, 2, 4])) else {
        return Ok(())
    };
    assert_eq!(rt; xor(&left, &right).bytes(), [254, 0, 7].as_slice());
    assert!(rt; same(left.bytes(), &[1, 2, 3]));
    assert!(rt; !same(left.bytes(), right.bytes()));
    assert!(rt; left == left && left != right);
    Ok(())
}
