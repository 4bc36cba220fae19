//! The jobs of a login: each has all that it needs, so that it can be run anywhere.

ghost use Rattle.std.specs.Prelude.{◌≡◌, ◌↔◌, IsTrue, IsFalse, IsSome, IfOk, MatchResult};
ghost use Rattle.ely_cred.specs.Keys.{chosen};
ghost use Rattle.ely_job.specs.Digests.{is_digest};
ghost use Rattle.ely_job.specs.Jobs.{IsRunnable, is_scram, is_held};

use ely_base::{Bytes, NoMemory};
use ely_cred::Ready;
use ely_digest_msg::DigestReply;
use ely_hash::same;
use ely_pipeline::Place;
use ely_row::{Mech, Params, SharedRow};
use ely_scram_msg::{ClientFirst, ClientLast};
use std::alloc::Global;
use std::marker::Model;

/// What is to be done.
#[derive(Drop)]
pub(crate) enum Work {
    /// Nothing: the key is there.
    Held(Ready),
    /// The key of the place is derived for the mechanism, of the credential of the row that serves it.
    Derive(Place, SharedRow, Mech, Params),
    /// A client's last message is judged by a key. Before it came the client's first message and the server's, with the
    /// server's own part of the nonce in between (RFC 5802 section 3).
    Scram(Ready, ClientFirst, Bytes, Bytes, ClientLast),
    /// A header of Digest is judged by a key, for a request with this method and this target, and with the realm that is due
    /// where a clear password is the key (RFC 7616 section 3.4).
    Digest(Ready, DigestReply, Bytes, Bytes, Bytes),
    /// A password in the clear is judged by a key (RFC 4616).
    Guess(Ready, Bytes),
}

/// A job that can be run: a credential of a row that a key is derived of serves the mechanism, and the key that evidence is
/// judged by is for the mechanism of the evidence.
#[derive(Drop)]
pub struct Job {
    work: Work,
}

impl Model for Job {
    ghost use Rattle.ely_job.specs.declared.job.Work.{Work};

    ghost Value = { Work };

    ghost view = { λ j. j.work };

    ghost use Rattle.ely_job.specs.Jobs.{IsRunnable};

    ghost invariant = { λ j. IsRunnable j.work };
}

impl Job {
    /// A key that is there already.
    pub fn held(ready: Ready) -> Job
        ensures { result ≡ Work.Held ready }
    {
        Job {
            work: Work::Held(ready),
        }
    }

    /// The key of a place's row for a mechanism that a credential of it serves.
    pub fn derive(place: Place, row: SharedRow, mech: Mech, params: Params) -> Job
        requires { IsSome (chosen mech row) }
        ensures { result ≡ Work.Derive place row mech params }
    {
        Job {
            work: Work::Derive(place, row, mech, params),
        }
    }

    /// The verdict on a client's last message by a key for SCRAM: `nonce` is the server's own part of the whole nonce, and
    /// `server_first` the message that was sent (RFC 5802 section 5).
    pub fn scram(
        ready: Ready,
        first: ClientFirst,
        nonce: Bytes,
        server_first: Bytes,
        last: ClientLast,
    ) -> Job
        requires { IsTrue (is_scram ready.mech) }
        ensures { result ≡ Work.Scram ready first nonce server_first last }
    {
        Job {
            work: Work::Scram(ready, first, nonce, server_first, last),
        }
    }

    /// The verdict on a header by a key for Digest, for a request with this method and this target: `digest_realm` is the
    /// realm that the header has to name where a clear password is the key (RFC 7616 section 3.4).
    pub fn digest(
        ready: Ready,
        reply: DigestReply,
        method: Bytes,
        target: Bytes,
        digest_realm: Bytes,
    ) -> Job
        requires { IsTrue (is_digest ready.mech) }
        ensures { result ≡ Work.Digest ready reply method target digest_realm }
    {
        Job {
            work: Work::Digest(ready, reply, method, target, digest_realm),
        }
    }

    /// The verdict on a password by a key for PLAIN.
    pub fn guess(ready: Ready, password: Bytes) -> Job
        requires { ready.mech ≡ Mech.Plain }
        ensures { result ≡ Work.Guess ready password }
    {
        Job {
            work: Work::Guess(ready, password),
        }
    }

    /// What is to be done.
    pub(crate) fn work(&self) -> &Work
        ensures value { result.now ≡ self.now }
        ensures runnable { IsRunnable self.now }
    {
        &self.work
    }

    /// The key that is held, or else the job.
    pub(crate) fn into_held(self) -> Result<Ready, Job>
        ensures { MatchResult result
            (λ ready. self ≡ Work.Held ready) (λ job. (job ≡ self) × IsFalse (is_held self)) }
    {
        match self.work {
            Work::Held(ready) => Ok(ready),
            work => Err(Job { work }),
        }
    }

    /// An equal job.
    pub fn copy(&self, alloc: Global) -> Result<Job, NoMemory>
        ensures { IfOk result (λ copy. copy ≡ self.now) }
    {
        Ok(Job {
            work: copy_work(alloc, &self.work)?,
        })
    }

    /// Whether both are equal.
    pub(crate) fn same(&self, other: &Job) -> bool
        ensures { IsTrue result ↔ (self.now ≡ other.now) }
    {
        same_work(&self.work, &other.work)
    }
}

/// Equal work. In each case the dearest part is copied last, since the prover looks into each drop of what is there already.
fn copy_work(alloc: Global, work: &Work) -> Result<Work, NoMemory>
    ensures { IfOk result (λ copy. copy ≡ work.now) }
{
    match work {
        Work::Held(ready) => Ok(Work::Held(ready.copy(alloc)?)),
        Work::Derive(place, row, mech, params) => copy_derive(alloc, place, row, *mech, params),
        Work::Scram(ready, first, nonce, server_first, last) => {
            copy_scram(alloc, ready, first, nonce, server_first, last)
        }
        Work::Digest(ready, reply, method, target, digest_realm) => {
            copy_digest(alloc, ready, reply, method, target, digest_realm)
        }
        Work::Guess(ready, password) => copy_guess(alloc, ready, password),
    }
}

/// Equal work of a derivation.
fn copy_derive(
    alloc: Global,
    place: &Place,
    row: &SharedRow,
    mech: Mech,
    params: &Params,
) -> Result<Work, NoMemory>
    ensures { IfOk result (λ work. work ≡ Work.Derive place.now row.now mech params.now) }
{
    let params = params.copy(alloc)?;
    let place = place.copy(alloc)?;
    Ok(Work::Derive(place, row.share()?, mech, params))
}

/// Equal work of a judgement.
fn copy_scram(
    alloc: Global,
    ready: &Ready,
    first: &ClientFirst,
    nonce: &Bytes,
    server_first: &Bytes,
    last: &ClientLast,
) -> Result<Work, NoMemory>
    ensures { IfOk result (λ work. work
        ≡ Work.Scram ready.now first.now nonce.now server_first.now last.now) }
{
    let (nonce, server_first) = (nonce.copy(alloc)?, server_first.copy(alloc)?);
    let (first, last) = (first.copy(alloc)?, last.copy(alloc)?);
    Ok(Work::Scram(ready.copy(alloc)?, first, nonce, server_first, last))
}

/// Equal work of a header's judgement.
fn copy_digest(
    alloc: Global,
    ready: &Ready,
    reply: &DigestReply,
    method: &Bytes,
    target: &Bytes,
    digest_realm: &Bytes,
) -> Result<Work, NoMemory>
    ensures { IfOk result (λ work. work
        ≡ Work.Digest ready.now reply.now method.now target.now digest_realm.now) }
{
    let (method, target) = (method.copy(alloc)?, target.copy(alloc)?);
    let (digest_realm, reply) = (digest_realm.copy(alloc)?, reply.copy(alloc)?);
    Ok(Work::Digest(ready.copy(alloc)?, reply, method, target, digest_realm))
}

/// Equal work of a guess.
fn copy_guess(alloc: Global, ready: &Ready, password: &Bytes) -> Result<Work, NoMemory>
    ensures { IfOk result (λ work. work ≡ Work.Guess ready.now password.now) }
{
    let password = password.copy(alloc)?;
    Ok(Work::Guess(ready.copy(alloc)?, password))
}

/// Whether both are equal.
fn same_work(work: &Work, other: &Work) -> bool
    ensures { IsTrue result ↔ (work.now ≡ other.now) }
{
    match (work, other) {
        (Work::Held(ready), Work::Held(other_ready)) => ready.same(other_ready),
        (
            Work::Derive(place, row, mech, params),
            Work::Derive(other_place, other_row, other_mech, other_params),
        ) => {
            mech == other_mech
                && place.same(other_place)
                && row.same(other_row)
                && params.same(other_params)
        }
        (
            Work::Scram(ready, first, nonce, server_first, last),
            Work::Scram(other_ready, other_first, other_nonce, other_server_first, other_last),
        ) => {
            same(nonce.bytes(), other_nonce.bytes())
                && same(server_first.bytes(), other_server_first.bytes())
                && last.same(other_last)
                && first.same(other_first)
                && ready.same(other_ready)
        }
        (
            Work::Digest(ready, reply, method, target, digest_realm),
            Work::Digest(other_ready, other_reply, other_method, other_target, other_realm),
        ) => {
            same(method.bytes(), other_method.bytes())
                && same(target.bytes(), other_target.bytes())
                && same(digest_realm.bytes(), other_realm.bytes())
                && reply.same(other_reply)
                && ready.same(other_ready)
        }
        (Work::Guess(ready, password), Work::Guess(other_ready, other_password)) => {
            same(password.bytes(), other_password.bytes()) && ready.same(other_ready)
        }
        _ => false,
    }
}
