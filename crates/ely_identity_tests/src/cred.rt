//! Published values and values of Python's hashlib for each kind of credential, and each public call once.

ghost use Rattle.std.specs.Prelude.{◌≡◌, ◌<◌};

use ely_base::{Bytes, Name, NoMemory};
use ely_cred::{Ready, ReadyKey, choose, derive, guess};
use ely_hash::Steps;
use ely_row::{Mech, Params, Row, StoredCred, is_salt};
use std::alloc::Global;
use std::marker::Brand;
use std::sync::ledger::{Blank, Ledger};
use std::test::Fail;

fn name(alloc: Global, text: &[u8]) -> Result<Name, NoMemory> {
    match Name::read(alloc, text) {
        Ok(name) => Ok(name),
        Err(_) => Err(NoMemory),
    }
}

/// The row with one more credential, where there is room for one.
fn with(alloc: Global, row: Row, slot: u8, kind: &[u8], text: &[u8]) -> Result<Row, NoMemory> {
    let Ok(cred) = StoredCred::read(alloc, kind, text) else {
        return Err(NoMemory);
    };
    if !row.has_cred_room(slot) {
        return Err(NoMemory);
    }
    row.with(slot, cred)
}

/// A row with one credential.
fn row_of(alloc: Global, kind: &[u8], text: &[u8]) -> Result<Row, NoMemory> {
    with(alloc, Row::new(alloc), 1, kind, text)
}

fn counted_ready<L: Ledger>(
    blank: Blank,
    alloc: Global,
    user: &[u8],
    row: &Row,
    mech: Mech,
    params: &Params,
) -> Result<Ready, NoMemory>
    requires name { blank.name ≡ L.name }
    requires parts { blank.parts ≡ L.parts }
    requires some { 0 < blank.parts }
{
    let mut steps = Steps::<L>::of(blank);
    let realm = name(alloc, b"chat")?;
    let user = name(alloc, user)?;
    match choose(row, mech) {
        None => Err(NoMemory),
        Some(_) => derive::<L>(alloc, &realm, &user, row, mech, params, &mut steps),
    }
}

fn ready(
    alloc: Global,
    user: &[u8],
    row: &Row,
    mech: Mech,
    params: &Params,
) -> Result<Ready, NoMemory> {
    counted_ready::<Brand>(Blank::new(1), alloc, user, row, mech, params)
}

fn counted_guess<L: Ledger>(blank: Blank, ready: &Ready, password: &[u8]) -> Option<bool>
    requires name { blank.name ≡ L.name }
    requires parts { blank.parts ≡ L.parts }
    requires some { 0 < blank.parts }
{
    let mut steps = Steps::<L>::of(blank);
    match ready.mech() {
        Mech::Plain => Some(guess::<L>(ready, password, &mut steps)),
        _ => None,
    }
}

fn guessed(ready: &Ready, password: &[u8]) -> Option<bool> {
    counted_guess::<Brand>(Blank::new(1), ready, password)
}

/// Whether the password is right for that credential, and `Pencil` is wrong.
fn is_told(alloc: Global, kind: &[u8], text: &[u8], password: &[u8]) -> Result<bool, NoMemory> {
    let row = row_of(alloc, kind, text)?;
    let ready = ready(alloc, b"Mufasa", &row, Mech::Plain, &Params::plain(alloc))?;
    Ok(guessed(&ready, password) == Some(true) && guessed(&ready, b"Pencil") == Some(false))
}

fn write_hex(out: &mut String, bytes: &[u8]) -> Result<(), NoMemory> {
    for byte in bytes {
        write!(out, "{byte:02x}")?;
    }
    out.push(' ')?;
    Ok(())
}

/// The keys, the salt and the turns of SCRAM, or another key as it is shown.
fn shown(alloc: Global, key: &ReadyKey) -> Result<String, NoMemory> {
    let mut out = String::new(alloc);
    match key {
        ReadyKey::Scram { keys, salt, turns } => {
            write_hex(&mut out, keys.stored.bytes())?;
            write_hex(&mut out, keys.server.bytes())?;
            write_hex(&mut out, salt.bytes())?;
            write!(out, "{turns}")?;
        }
        other => write!(out, "{other:?}")?,
    }
    Ok(out)
}

/// The key that a copy has, as it is shown.
fn shown_copy(alloc: Global, ready: &Ready) -> Result<String, NoMemory> {
    let copy = ready.copy(alloc)?;
    shown(alloc, copy.key())
}

/// Whether a copy is shown as the value is.
fn is_copied(alloc: Global, ready: &Ready) -> Result<bool, NoMemory> {
    let copy = ready.copy(alloc)?;
    let text = format!(in alloc; "{ready:?}")?;
    Ok(text.as_str() == format!(in alloc; "{copy:?}")?.as_str())
}

/// The key of one credential, as its copy is shown.
fn shown_of(
    alloc: Global,
    kind: &[u8],
    text: &[u8],
    mech: Mech,
    params: &Params,
) -> Result<String, NoMemory> {
    let row = row_of(alloc, kind, text)?;
    let ready = ready(alloc, b"juliet", &row, mech, params)?;
    shown_copy(alloc, &ready)
}

// RFC 6070 and RFC 2617 section 3.5, and the others by Python's hashlib.
#[test]
fn a_password_is_told_from_a_wrong_one_by_each_kind(rt: HostRuntime) -> Result<(), Fail> {
    let table = [
        (
            b"clear".as_slice(),
            b"pencil".as_slice(),
            b"pencil".as_slice(),
        ),
        (
            b"scram-sha-1",
            b"2:c2FsdA==:6mwBTcctb4zNHtkqzh1B8NjeiVc=",
            b"password",
        ),
        (
            b"scram-sha-1",
            b"1:c2FsdA==:DGDID5YfDnHzqbUkr2ASBi/gN6Y=",
            b"password",
        ),
        (
            b"scram-sha-256",
            b"3:c2FsdA==:rTUkCsaD/r+vPNSdhFRz+7uqJDf1+C1aQVrgCsdsa/w=",
            b"password",
        ),
        (
            b"digest-md5",
            b"939e7578ed9e3c518a452acee763bce9:testrealm@host.com",
            b"Circle Of Life",
        ),
        (
            b"digest-sha-256",
            b"3ba6cd94661c5ef34598040c868f13b8775df29109986be50ad35ae537dd3aa4:testrealm@host.com",
            b"Circle Of Life",
        ),
    ];
    for (kind, text, password) in table {
        assert!(rt; is_told(rt.alloc(), kind, text, password)?);
    }
    Ok(())
}

/// 4,096 turns, one salt for every password, and no seed.
fn salted_params(alloc: Global, salt: &[u8]) -> Result<Params, NoMemory> {
    if !is_salt(salt) {
        return Err(NoMemory);
    }
    let salt = Bytes::copy_of(alloc, salt)?;
    Ok(Params::of(4096, Some(salt), Bytes::of(Vec::new(alloc))))
}

/// Three turns, derived salts and a seed.
fn seeded_params(alloc: Global) -> Result<Params, NoMemory> {
    Ok(Params::of(3, None, Bytes::copy_of(alloc, b"seed")?))
}

// The keys of the login of RFC 5802 section 5, and the others by Python's hashlib and hmac.
#[test]
fn the_keys_of_scram_are_the_published_ones(rt: HostRuntime) -> Result<(), Fail> {
    let params = salted_params(
        rt.alloc(),
        b"\x41\x25\xc2\x47\xe4\x3a\xb1\xe9\x3c\x6d\xff\x76",
    )?;
    let text = shown_of(rt.alloc(), b"clear", b"pencil", Mech::ScramSha1, &params)?;
    assert_eq!(rt;
        text.as_str(),
        "e9d94660c39d65c38fbad91c358f14da0eef2bd6 0fe09258b3ac852ba502cc62ba903eaacdbf7d31 4125c247e43ab1e93c6dff76 4096"
    );
    let stored = b"2:c2FsdA==:6mwBTcctb4zNHtkqzh1B8NjeiVc=";
    let text = shown_of(rt.alloc(), b"scram-sha-1", stored, Mech::ScramSha1, &params)?;
    assert_eq!(rt;
        text.as_str(),
        "278fae714a71c495197ffd9d8f408a5a0fa586fb e40971d4a50258180a77d9b10204e4a43062b39e 73616c74 2"
    );
    Ok(())
}

#[test]
fn a_salt_is_derived_of_the_place(rt: HostRuntime) -> Result<(), Fail> {
    let params = seeded_params(rt.alloc())?;
    let text = shown_of(rt.alloc(), b"clear", b"pencil", Mech::ScramSha256, &params)?;
    assert_eq!(rt;
        text.as_str(),
        "8e67117e269334679314dd286d11bff38e97519f31cdab87636b93f5860cb7bd 01f5635c0fd34bd23a47b7c60b6108947d43cb50b8a31630b3d692cec32651b2 47e4d417ce87f849de1c81cae324c11c 3"
    );
    Ok(())
}

/// A row whose slots rise from Digest over SCRAM to a clear password.
fn mixed_row(alloc: Global) -> Result<Row, NoMemory> {
    let row = with(alloc, Row::new(alloc), 9, b"clear", b"pencil")?;
    let salted = b"3:c2FsdA==:rTUkCsaD/r+vPNSdhFRz+7uqJDf1+C1aQVrgCsdsa/w=";
    let row = with(alloc, row, 4, b"scram-sha-256", salted)?;
    let hash = b"939e7578ed9e3c518a452acee763bce9:testrealm@host.com";
    with(alloc, row, 2, b"digest-md5", hash)
}

#[test]
fn the_lowest_slot_that_serves_is_chosen(rt: HostRuntime) -> Result<(), Fail> {
    let row = mixed_row(rt.alloc())?;
    assert!(rt; choose(&row, Mech::Plain) == Some(2));
    assert!(rt; choose(&row, Mech::ScramSha1) == Some(9));
    assert!(rt; choose(&row, Mech::ScramSha256) == Some(4));
    assert!(rt; choose(&row, Mech::Digest) == Some(2));
    assert!(rt; choose(&row, Mech::DigestSha256) == Some(9));
    assert!(rt; choose(&row.without(9), Mech::DigestSha256).is_none());
    Ok(())
}

fn crosses<T: Send + Sync>() {}

#[test]
fn a_copy_shows_the_same_and_may_cross_threads(rt: HostRuntime) -> Result<(), Fail> {
    crosses::<Ready>();
    crosses::<ReadyKey>();
    let row = mixed_row(rt.alloc())?;
    let ready = ready(
        rt.alloc(),
        b"juliet",
        &row,
        Mech::Digest,
        &Params::plain(rt.alloc()),
    )?;
    assert!(rt; is_copied(rt.alloc(), &ready)?);
    assert!(rt; guessed(&ready, b"pencil").is_none());
    Ok(())
}
