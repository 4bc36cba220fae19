//! The logins of RFC 5802 section 5 and RFC 7677 section 3, and what is refused in their stead.
ghost use Rattle.std.specs.Prelude.{◌≡◌, ◌<◌, ◌≤◌};

use ely_base::{Bytes, NoMemory, Refused};
use ely_hash::{HashAlg, Sha1Alg, Sha256Alg, Steps, hi, keys_of};
use ely_scram::{Judged, judge};
use ely_scram_msg::{
    ClientFirst, ClientLast, MsgFault, read_client_first, read_client_last, write_verifier,
};
use std::alloc::Global;
use std::marker::Brand;
use std::sync::ledger::{Blank, Ledger};
use std::test::Fail;

/// What stands before the last message of a login with the password `pencil`, in 4096 turns.
#[derive(Clone, Copy)]
struct Login<'a> {
    salt: &'a [u8],
    first: &'a [u8],
    nonce: &'a [u8],
    server_first: &'a [u8],
}

/// RFC 5802 section 5.
fn sha1_login() -> Login<'static> {
    Login {
        salt: &[
            0x41, 0x25, 0xC2, 0x47, 0xE4, 0x3A, 0xB1, 0xE9, 0x3C, 0x6D, 0xFF, 0x76,
        ],
        first: b"n,,n=user,r=fyko+d2lbbFgONRv9qkxdawL",
        nonce: b"3rfcNHYJY1ZVvWVs7j",
        server_first: b"r=fyko+d2lbbFgONRv9qkxdawL3rfcNHYJY1ZVvWVs7j,s=QSXCR+Q6sek8bf92,i=4096",
    }
}

/// RFC 7677 section 3.
fn sha256_login() -> Login<'static> {
    Login {
        salt: &[
            0x5B, 0x6D, 0x99, 0x68, 0x9D, 0x12, 0x35, 0x8E, 0xEC, 0xA0, 0x4B, 0x14, 0x12, 0x36,
            0xFA, 0x81,
        ],
        first: b"n,,n=user,r=rOprNGfwEbeRWgbNEkqO",
        nonce: b"%hvYDpWUa2RaTCAfuxFIlj)hNlF$k0",
        server_first: b"r=rOprNGfwEbeRWgbNEkqO%hvYDpWUa2RaTCAfuxFIlj)hNlF$k0,s=W22ZaJ0SNY7soEsUEjb6gQ==,i=4096",
    }
}

fn counted<H: HashAlg, L: Ledger>(
    blank: Blank,
    login: &Login<'_>,
    first: &ClientFirst,
    last: &ClientLast,
) -> Judged
    requires name { blank.name ≡ L.name }
    requires parts { blank.parts ≡ L.parts }
    requires some { 0 < blank.parts }
{
    let mut steps = Steps::<L>::of(blank);
    let salted = hi::<H, L>(b"pencil", login.salt, 4096, &mut steps);
    let keys = keys_of::<H, L>(&salted, &mut steps);
    judge::<H, L>(
        &keys,
        first,
        login.nonce,
        login.server_first,
        last,
        &mut steps,
    )
}

fn alone<H: HashAlg>(login: &Login<'_>, first: &ClientFirst, last: &ClientLast) -> Judged {
    counted::<H, Brand>(Blank::new(1), login, first, last)
}

/// A judgement in words: the server's last message, or the fault.
fn told(alloc: Global, judged: Judged) -> Result<Bytes, NoMemory> {
    match judged {
        Judged::Proved(signature) => write_verifier(alloc, &signature),
        Judged::BadBinding => Bytes::copy_of(alloc, b"binding"),
        Judged::BadNonce => Bytes::copy_of(alloc, b"nonce"),
        Judged::BadProof => Bytes::copy_of(alloc, b"proof"),
    }
}

/// What a login's last message is told.
fn answer<H: HashAlg>(
    alloc: Global,
    login: &Login<'_>,
    last: &[u8],
) -> Result<Bytes, Refused<MsgFault>> {
    let first = read_client_first(alloc, login.first)?;
    let last = read_client_last(alloc, last)?;
    Ok(told(alloc, alone::<H>(login, &first, &last))?)
}

/// What an empty proof is told. No message has one, so it is put in by hand.
fn answer_to_no_proof(alloc: Global, login: &Login<'_>) -> Result<Bytes, Refused<MsgFault>> {
    let first = read_client_first(alloc, login.first)?;
    let last = ClientLast {
        binding: Bytes::copy_of(alloc, b"n,,")?,
        nonce: Bytes::copy_of(alloc, b"fyko+d2lbbFgONRv9qkxdawL3rfcNHYJY1ZVvWVs7j")?,
        proof: Bytes::copy_of(alloc, b"")?,
        without_proof: Bytes::copy_of(alloc, b"")?,
    };
    Ok(told(alloc, alone::<Sha1Alg>(login, &first, &last))?)
}

#[test]
fn logins_with_sha1_are_judged(rt: HostRuntime) -> Result<(), Fail> {
    let login = sha1_login();
    let rows: [(&[u8], &[u8]); 9] = [
        (
            b"c=biws,r=fyko+d2lbbFgONRv9qkxdawL3rfcNHYJY1ZVvWVs7j,p=v0X8v3Bz2T0CJGbJQyF0X+HI4Ts=",
            b"v=rmF9pqV8S7suAoZWja4dJRkFsKQ=",
        ),
        // y,,
        (
            b"c=eSws,r=fyko+d2lbbFgONRv9qkxdawL3rfcNHYJY1ZVvWVs7j,p=v0X8v3Bz2T0CJGbJQyF0X+HI4Ts=",
            b"binding",
        ),
        // another server's nonce, none, a piece of the client's, and one byte more
        (
            b"c=biws,r=fyko+d2lbbFgONRv9qkxdawL3rfcNHYJY1ZVvWVs7k,p=v0X8v3Bz2T0CJGbJQyF0X+HI4Ts=",
            b"nonce",
        ),
        (
            b"c=biws,r=fyko+d2lbbFgONRv9qkxdawL,p=v0X8v3Bz2T0CJGbJQyF0X+HI4Ts=",
            b"nonce",
        ),
        (b"c=biws,r=fyko,p=v0X8v3Bz2T0CJGbJQyF0X+HI4Ts=", b"nonce"),
        (
            b"c=biws,r=fyko+d2lbbFgONRv9qkxdawL3rfcNHYJY1ZVvWVs7jj,p=v0X8v3Bz2T0CJGbJQyF0X+HI4Ts=",
            b"nonce",
        ),
        // the proof with its last bit turned, one byte shorter and one longer
        (
            b"c=biws,r=fyko+d2lbbFgONRv9qkxdawL3rfcNHYJY1ZVvWVs7j,p=v0X8v3Bz2T0CJGbJQyF0X+HI4To=",
            b"proof",
        ),
        (
            b"c=biws,r=fyko+d2lbbFgONRv9qkxdawL3rfcNHYJY1ZVvWVs7j,p=v0X8v3Bz2T0CJGbJQyF0X+HI4Q==",
            b"proof",
        ),
        (
            b"c=biws,r=fyko+d2lbbFgONRv9qkxdawL3rfcNHYJY1ZVvWVs7j,p=v0X8v3Bz2T0CJGbJQyF0X+HI4TsA",
            b"proof",
        ),
    ];
    for (last, wanted) in rows {
        assert_eq!(rt;
            answer::<Sha1Alg>(rt.alloc(), &login, last)?.bytes(),
            wanted
        );
    }
    assert_eq!(rt;
        answer_to_no_proof(rt.alloc(), &login)?.bytes(),
        b"proof".as_slice()
    );
    Ok(())
}

#[test]
fn logins_with_sha256_are_judged(rt: HostRuntime) -> Result<(), Fail> {
    let login = sha256_login();
    let proved = answer::<Sha256Alg>(
        rt.alloc(),
        &login,
        b"c=biws,r=rOprNGfwEbeRWgbNEkqO%hvYDpWUa2RaTCAfuxFIlj)hNlF$k0,p=dHzbZapWIk4jUhN+Ute9ytag9zjfMHgsqmmiz7AndVQ=",
    )?;
    assert_eq!(rt;
        proved.bytes(),
        b"v=6rriTRBi23WpRR/wtup+mMhUZUn/dB5nLTJRsjl95G4=".as_slice()
    );
    // the proof with its last bit turned
    let turned = answer::<Sha256Alg>(
        rt.alloc(),
        &login,
        b"c=biws,r=rOprNGfwEbeRWgbNEkqO%hvYDpWUa2RaTCAfuxFIlj)hNlF$k0,p=dHzbZapWIk4jUhN+Ute9ytag9zjfMHgsqmmiz7AndVU=",
    )?;
    assert_eq!(rt; turned.bytes(), b"proof".as_slice());
    Ok(())
}
