//! The text of users: names, each with the hash of a password in a realm or with the password.

ghost use Rattle.std.specs.Prelude.{◌≡◌, length, false, IsTrue, IfOk, OnOk};
ghost use Rattle.ely_base.specs.Refused.{refused_as, Gives};
ghost use Rattle.ely_row.specs.declared.cred.Credential.TheVariants.{DigestMd5};
ghost use Rattle.ely_row.specs.declared.edit.PropFault.TheVariants.{BadHex};
ghost use Rattle.ely_row.specs.Creds.{mapped};
ghost use Rattle.ely_row.specs.Salts.{is_realm};
ghost use Rattle.ely_propfile.specs.Entries.{pair_of};
ghost use Rattle.ely_propfile.specs.Faults.{are_apart};
ghost use Rattle.ely_propfile.specs.Users.{password_of, md5_of, hash_of, user_cred, user_entry, users_of};

use crate::blank::{trimmed, trimmed_start};
use crate::lines::{Lines, next_number};
use crate::pair::{is_skipped, read_key};
use crate::realm::realm_of;
use crate::seen::add;
use ely_base::{Bytes, Name, Refused, read_hex};
use ely_hash::Tag;
use ely_row::{Credential, Ha1, PropFault, StoredCred};
use std::alloc::Global;
use std::collections::BTreeSet;

/// The credential of a password as it is, without leading blanks.
#[tactic(auto, unfolding(ely_row::specs::Creds::cred_of))]
fn read_password(alloc: Global, text: &[u8], number: u32) -> Result<StoredCred, Refused<PropFault>>
    ensures { Gives result (password_of number text.now) }
{
    match StoredCred::read(alloc, b"clear", trimmed_start(text)) {
        Ok(cred) => Ok(cred),
        Err(Refused::NoMemory) => Err(Refused::NoMemory),
        Err(Refused::Fault(_)) => Err(Refused::Fault(PropFault::BadLine(number))),
    }
}

/// The hash of MD5 that 32 hexadecimal digits write.
fn read_md5(alloc: Global, text: &[u8], number: u32) -> Result<Tag, Refused<PropFault>>
    ensures value { Gives result (refused_as (λ f. BadHex number) (md5_of text.now)) }
    ensures len { IfOk result (λ hash. length hash ≡ 16) }
{
    let bytes = match read_hex(alloc, text) {
        Ok(bytes) => bytes,
        Err(Refused::NoMemory) => return Err(Refused::NoMemory),
        Err(Refused::Fault(_)) => return Err(Refused::Fault(PropFault::BadHex(number))),
    };
    if bytes.bytes().len() != 16 {
        return Err(Refused::Fault(PropFault::BadHex(number)));
    }
    match Tag::of(bytes.bytes()) {
        None => Err(Refused::Fault(PropFault::BadHex(number))),
        Some(hash) => Ok(hash),
    }
}

/// The credential of a hash of MD5 in the realm.
fn hashed(realm: Bytes, hash: Tag) -> StoredCred
    requires realm { IsTrue (is_realm realm) }
    requires len { length hash ≡ 16 }
    ensures { result ≡ DigestMd5 (record { realm = realm; hash = hash }) }
{
    let Some(ha1) = Ha1::of(realm, hash) else {
        unreachable!();
    };
    let Some(cred) = StoredCred::of(Credential::DigestMd5(ha1)) else {
        unreachable!();
    };
    cred
}

/// The credential of a hash in the realm, without the blanks round it.
fn read_hash(
    alloc: Global,
    realm: &[u8],
    text: &[u8],
    number: u32,
) -> Result<StoredCred, Refused<PropFault>>
    requires { IsTrue (is_realm realm.now) }
    ensures { Gives result (hash_of realm.now number text.now) }
{
    let hash = read_md5(alloc, trimmed(text), number)?;
    let realm = Bytes::copy_of(alloc, realm)?;
    Ok(hashed(realm, hash))
}

/// The credential of a user.
fn read_cred(
    alloc: Global,
    realm: &[u8],
    plain: bool,
    text: &[u8],
    number: u32,
) -> Result<StoredCred, Refused<PropFault>>
    requires { IsTrue (is_realm realm.now) }
    ensures { Gives result (user_cred plain realm.now number text.now) }
{
    if plain {
        read_password(alloc, text, number)
    } else {
        read_hash(alloc, realm, text, number)
    }
}

/// The name and the credential of a line that isn't skipped.
fn read_pair(
    alloc: Global,
    realm: &[u8],
    plain: bool,
    text: &[u8],
    number: u32,
) -> Result<(Name, StoredCred), Refused<PropFault>>
    requires { IsTrue (is_realm realm.now) }
    ensures { Gives result (pair_of (user_cred plain realm.now) number text.now) }
{
    let (name, value) = read_key(alloc, text, number)?;
    let cred = read_cred(alloc, realm, plain, value.bytes(), number)?;
    Ok((name, cred))
}

/// The user of a line, unless it is skipped.
fn read_user(
    alloc: Global,
    realm: &[u8],
    plain: bool,
    line: &[u8],
    number: u32,
) -> Result<Option<(Name, StoredCred)>, Refused<PropFault>>
    requires { IsTrue (is_realm realm.now) }
    ensures { Gives result (user_entry plain realm.now number line.now) }
{
    let body = trimmed_start(line);
    if is_skipped(body) {
        return Ok(None);
    }
    Ok(Some(read_pair(alloc, realm, plain, body, number)?))
}

/// The users of a text, in its order, or the fault of its first faulty line. A line is a name, `=` and the 32 hexadecimal
/// digits of `MD5(name:realm:password)` (H(A1) of RFC 7616 section 3.4.2), where the realm is the first that a comment names
/// as `$REALM_NAME=REALM$`, else the fallback; with `plain` the password stands there itself. Empty lines are skipped, and so
/// are comments, which begin with `#` or `!`. The faults of a line come in this order: `BadLine` where it has no `=`, its name
/// is none, or its password is out of its bounds; `BadHex`; `Twice` where the name stood on an earlier line; `TooMany` where
/// 65,536 names did.
pub fn read_users(
    alloc: Global,
    text: &[u8],
    fallback: &[u8],
    plain: bool,
) -> Result<Vec<(Name, StoredCred)>, Refused<PropFault>>
    requires { IsTrue (is_realm fallback.now) }
    ensures exact { Gives (mapped (λ users. users.items) result) (users_of plain fallback.now text.now) }
    ensures apart { IfOk result (λ users. IsTrue (are_apart users.items)) }
{
    let realm = realm_of(text, fallback);
    let mut users = Vec::new(alloc);
    let mut seen = BTreeSet::new(alloc);
    let mut number = 0;
    let mut lines = Lines::of(text);
    while let Some(line) = lines.next() {
        number = next_number(number);
        if let Some((name, cred)) = read_user(alloc, realm, plain, line.bytes(), number)? {
            add(alloc, &mut seen, &name, false, number)?;
            users.push((name, cred))?;
        }
    }
    Ok(users)
}
