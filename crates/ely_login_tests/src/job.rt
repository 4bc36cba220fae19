//! Each kind of job once, and the logins of RFC 5802 section 5 and of RFC 7616 section 3.9.1. What owns much is discarded
//! and not dropped where it stands, since that takes the prover far longer.

ghost use Rattle.std.specs.Prelude.{◌≡◌, ◌<◌};

use ely_base::{Bytes, Name, NoMemory, discard};
use ely_cred::{Ready, ReadyKey, choose};
use ely_digest_msg::{DigestAlg, DigestReply};
use ely_hash::{Md5Alg, Steps};
use ely_job::{Done, Finished, Job, Verdict, digest_verdict};
use ely_pipeline::Place;
use ely_row::{Mech, Params, Row, SharedRow, StoredCred, is_salt};
use ely_scram_msg::{ClientFirst, ClientLast, read_client_first, read_client_last, write_verifier};
use std::alloc::Global;
use std::marker::Brand;
use std::sync::ledger::{Blank, Ledger};
use std::test::Fail;

/// The client's last message of RFC 5802 section 5.
const LAST: &[u8] =
    b"c=biws,r=fyko+d2lbbFgONRv9qkxdawL3rfcNHYJY1ZVvWVs7j,p=v0X8v3Bz2T0CJGbJQyF0X+HI4Ts=";

/// The response of RFC 7616 section 3.9.1 for MD5.
const RESPONSE: &[u8] = b"8ca523f5e9506fed4657c9700eebdbec";

fn counted<L: Ledger>(blank: Blank, alloc: Global, job: Job) -> Result<Done, NoMemory>
    requires name { blank.name ≡ L.name }
    requires parts { blank.parts ≡ L.parts }
    requires some { 0 < blank.parts }
{
    let mut steps = Steps::<L>::of(blank);
    job.run::<L>(alloc, &mut steps)
}

fn ran(alloc: Global, job: Job) -> Result<Done, NoMemory> {
    counted::<Brand>(Blank::new(1), alloc, job)
}

fn name(alloc: Global, text: &[u8]) -> Result<Name, NoMemory> {
    match Name::read(alloc, text) {
        Ok(name) => Ok(name),
        Err(_) => Err(NoMemory),
    }
}

fn place(alloc: Global) -> Result<Place, NoMemory> {
    Ok(Place {
        realm: name(alloc, b"main")?,
        name: name(alloc, b"user")?,
    })
}

fn cred(alloc: Global, password: &[u8]) -> Result<StoredCred, NoMemory> {
    match StoredCred::read(alloc, b"clear", password) {
        Ok(cred) => Ok(cred),
        Err(_) => Err(NoMemory),
    }
}

/// A row whose one credential is a password in the clear.
fn row(alloc: Global, password: &[u8]) -> Result<SharedRow, NoMemory> {
    let cred = cred(alloc, password)?;
    SharedRow::new(alloc, Row::new(alloc).with(1, cred)?)
}

/// The turns and the salt of RFC 5802 section 5.
fn params(alloc: Global) -> Result<Params, NoMemory> {
    let salt = b"\x41\x25\xc2\x47\xe4\x3a\xb1\xe9\x3c\x6d\xff\x76";
    if !is_salt(salt) {
        return Err(NoMemory);
    }
    let salt = Bytes::copy_of(alloc, salt)?;
    Ok(Params::of(4096, Some(salt), Bytes::of(Vec::new(alloc))))
}

/// The job of the key for a mechanism, where a credential serves it.
fn derivation_of(
    place: Place,
    row: SharedRow,
    mech: Mech,
    params: Params,
) -> Result<Job, NoMemory> {
    if choose(row.row(), mech).is_none() {
        discard((place, row, params));
        return Err(NoMemory);
    }
    Ok(Job::derive(place, row, mech, params))
}

fn derivation(alloc: Global, password: &[u8], mech: Mech) -> Result<Job, NoMemory> {
    let params = params(alloc)?;
    let place = place(alloc)?;
    derivation_of(place, row(alloc, password)?, mech, params)
}

/// The result of a job.
fn result_of(alloc: Global, job: Job) -> Result<Finished, NoMemory> {
    let (job, finished) = ran(alloc, job)?.parts();
    discard(job);
    Ok(finished)
}

/// The key of a password.
fn key(alloc: Global, password: &[u8], mech: Mech) -> Result<Ready, NoMemory> {
    let job = derivation(alloc, password, mech)?;
    match result_of(alloc, job)? {
        Finished::Ready(ready) => Ok(ready),
        Finished::Verdict(_) => Err(NoMemory),
    }
}

fn guess_of(ready: Ready, password: Bytes) -> Result<Job, NoMemory> {
    if ready.mech() != Mech::Plain {
        discard((ready, password));
        return Err(NoMemory);
    }
    Ok(Job::guess(ready, password))
}

/// The job of judging a password by the key of `pencil`.
fn guess(alloc: Global, password: &[u8]) -> Result<Job, NoMemory> {
    let password = Bytes::copy_of(alloc, password)?;
    guess_of(key(alloc, b"pencil", Mech::Plain)?, password)
}

/// The client's first message of RFC 5802 section 5.
fn first(alloc: Global) -> Result<ClientFirst, NoMemory> {
    match read_client_first(alloc, b"n,,n=user,r=fyko+d2lbbFgONRv9qkxdawL") {
        Ok(first) => Ok(first),
        Err(_) => Err(NoMemory),
    }
}

fn last(alloc: Global, text: &[u8]) -> Result<ClientLast, NoMemory> {
    match read_client_last(alloc, text) {
        Ok(last) => Ok(last),
        Err(_) => Err(NoMemory),
    }
}

/// The server's first message of RFC 5802 section 5.
fn server_first(alloc: Global) -> Result<Bytes, NoMemory> {
    Bytes::copy_of(
        alloc,
        b"r=fyko+d2lbbFgONRv9qkxdawL3rfcNHYJY1ZVvWVs7j,s=QSXCR+Q6sek8bf92,i=4096",
    )
}

fn scram_of(
    ready: Ready,
    first: ClientFirst,
    nonce: Bytes,
    server_first: Bytes,
    last: ClientLast,
) -> Result<Job, NoMemory> {
    if ready.mech() != Mech::ScramSha1 {
        discard((ready, first, nonce, server_first, last));
        return Err(NoMemory);
    }
    Ok(Job::scram(ready, first, nonce, server_first, last))
}

/// The job of judging a last message by the key of `pencil`.
fn scram(alloc: Global, text: &[u8]) -> Result<Job, NoMemory> {
    let nonce = Bytes::copy_of(alloc, b"3rfcNHYJY1ZVvWVs7j")?;
    let server_first = server_first(alloc)?;
    let first = first(alloc)?;
    let last = last(alloc, text)?;
    let ready = key(alloc, b"pencil", Mech::ScramSha1)?;
    scram_of(ready, first, nonce, server_first, last)
}

/// The header of RFC 7616 section 3.9.1 for MD5, with another response.
fn header(alloc: Global, response: &[u8]) -> Result<DigestReply, NoMemory> {
    Ok(DigestReply {
        alg: DigestAlg::Md5,
        name: name(alloc, b"Mufasa")?,
        realm: Bytes::copy_of(alloc, b"http-auth@example.org")?,
        nonce: Bytes::copy_of(alloc, b"7ypf/xlj9XXwfDPEoM4URrv/xwf94BcCAzFZH4GiTo0v")?,
        uri: Bytes::copy_of(alloc, b"/dir/index.html")?,
        response: Bytes::copy_of(alloc, response)?,
        nc: 1,
        cnonce: Bytes::copy_of(alloc, b"f2/wE4q74E6zIJEtWaHKaf5wv/H5QzzpXusqGemxURZJ")?,
    })
}

fn digest_of(
    ready: Ready,
    reply: DigestReply,
    method: Bytes,
    target: Bytes,
    digest_realm: Bytes,
) -> Result<Job, NoMemory> {
    if ready.mech() != Mech::Digest {
        discard((ready, reply, method, target, digest_realm));
        return Err(NoMemory);
    }
    Ok(Job::digest(ready, reply, method, target, digest_realm))
}

/// The job of judging that header by the key of its password.
fn digest(alloc: Global) -> Result<Job, NoMemory> {
    let method = Bytes::copy_of(alloc, b"GET")?;
    let target = Bytes::copy_of(alloc, b"/dir/index.html")?;
    let realm = Bytes::copy_of(alloc, b"http-auth@example.org")?;
    let reply = header(alloc, RESPONSE)?;
    let ready = key(alloc, b"Circle of Life", Mech::Digest)?;
    digest_of(ready, reply, method, target, realm)
}

/// The verdict on that header with another response, by its password.
fn digest_told(
    alloc: Global,
    response: &[u8],
    target: &[u8],
    realm: &[u8],
) -> Result<Verdict, NoMemory> {
    let reply = header(alloc, response)?;
    let key = ReadyKey::Password(Bytes::copy_of(alloc, b"Circle of Life")?);
    let verdict = digest_verdict::<Md5Alg>(&key, &reply, b"GET", target, realm);
    discard((key, reply));
    Ok(verdict)
}

/// The result in words: the server's last message, or which it is.
fn told(alloc: Global, finished: &Finished) -> Result<Bytes, NoMemory> {
    match finished {
        Finished::Ready(_) => Bytes::copy_of(alloc, b"key"),
        Finished::Verdict(Verdict::Proved(Some(verifier))) => write_verifier(alloc, verifier),
        Finished::Verdict(Verdict::Proved(None)) => Bytes::copy_of(alloc, b"proved"),
        Finished::Verdict(Verdict::Binding) => Bytes::copy_of(alloc, b"binding"),
        Finished::Verdict(Verdict::Nonce) => Bytes::copy_of(alloc, b"nonce"),
        Finished::Verdict(Verdict::Proof) => Bytes::copy_of(alloc, b"proof"),
        Finished::Verdict(Verdict::Password) => Bytes::copy_of(alloc, b"password"),
        Finished::Verdict(Verdict::Realm) => Bytes::copy_of(alloc, b"realm"),
        Finished::Verdict(Verdict::Uri) => Bytes::copy_of(alloc, b"uri"),
        Finished::Verdict(Verdict::Response) => Bytes::copy_of(alloc, b"response"),
    }
}

/// Whether the result is the key of the password `pencil` for PLAIN.
fn is_pencil(finished: &Finished) -> bool {
    let Finished::Ready(ready) = finished else {
        return false;
    };
    match ready.key() {
        ReadyKey::Password(password) => password.bytes() == b"pencil".as_slice(),
        _ => false,
    }
}

/// What is told of a job's result.
fn told_of(alloc: Global, job: Job) -> Result<Bytes, NoMemory> {
    let finished = result_of(alloc, job)?;
    let text = told(alloc, &finished);
    discard(finished);
    text
}

/// Whether the key of `pencil` is the result.
fn gives_pencil(alloc: Global, job: Job) -> Result<bool, NoMemory> {
    let finished = result_of(alloc, job)?;
    let is = is_pencil(&finished);
    discard(finished);
    Ok(is)
}

fn crosses<T: Send + Sync>() {}

#[test]
fn jobs_and_results_may_cross_threads() {
    crosses::<Job>();
    crosses::<Done>();
    crosses::<Finished>();
}

#[test]
fn a_key_is_derived_or_held(rt: HostRuntime) -> Result<(), Fail> {
    let alloc = rt.alloc();
    assert!(rt; gives_pencil(alloc, derivation(alloc, b"pencil", Mech::Plain)?)?);
    assert!(rt; gives_pencil(alloc, Job::held(key(alloc, b"pencil", Mech::Plain)?))?);
    Ok(())
}

#[test]
fn a_password_is_judged(rt: HostRuntime) -> Result<(), Fail> {
    let rows: [(&[u8], &[u8]); 2] = [(b"pencil", b"proved"), (b"Pencil", b"password")];
    for (password, text) in rows {
        let job = guess(rt.alloc(), password)?;
        assert!(rt; told_of(rt.alloc(), job)?.bytes() == text);
    }
    Ok(())
}

// RFC 5802 section 5, and its proof with the last bit turned.
#[test]
fn a_message_of_scram_is_judged(rt: HostRuntime) -> Result<(), Fail> {
    let rows: [(&[u8], &[u8]); 2] = [
        (LAST, b"v=rmF9pqV8S7suAoZWja4dJRkFsKQ="),
        (
            b"c=biws,r=fyko+d2lbbFgONRv9qkxdawL3rfcNHYJY1ZVvWVs7j,p=v0X8v3Bz2T0CJGbJQyF0X+HI4To=",
            b"proof",
        ),
    ];
    for (last, text) in rows {
        let job = scram(rt.alloc(), last)?;
        assert!(rt; told_of(rt.alloc(), job)?.bytes() == text);
    }
    Ok(())
}

// RFC 7616 section 3.9.1: another realm, another target by a byte, a response without its last digit and one of upper-case
// digits are refused.
#[test]
fn a_header_of_digest_is_judged(rt: HostRuntime) -> Result<(), Fail> {
    let (target, realm) = (
        b"/dir/index.html".as_slice(),
        b"http-auth@example.org".as_slice(),
    );
    let rows: [(&[u8], &[u8], &[u8], Verdict); 5] = [
        (RESPONSE, target, realm, Verdict::Proved(None)),
        (RESPONSE, target, b"http-auth@example.com", Verdict::Realm),
        (RESPONSE, b"/dir/index.htmk", realm, Verdict::Uri),
        (
            b"8ca523f5e9506fed4657c9700eebdbe",
            target,
            realm,
            Verdict::Response,
        ),
        (
            b"8CA523F5E9506FED4657C9700EEBDBEC",
            target,
            realm,
            Verdict::Response,
        ),
    ];
    for (response, target, realm, wanted) in rows {
        assert!(rt; digest_told(rt.alloc(), response, target, realm)? == wanted);
    }
    let job = digest(rt.alloc())?;
    assert!(rt; told_of(rt.alloc(), job)?.bytes() == b"proved".as_slice());
    Ok(())
}
