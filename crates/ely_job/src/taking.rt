//! Taking what came of a job, by those who know which job it should be of. None of it takes memory, and what came of another
//! job is let go.

ghost use Rattle.std.specs.Prelude.{◌≡◌, ◌↔◌, Some, IsTrue, IsSome, IfSome};
ghost use Rattle.std.specs.Option.{option_map, option_copied};
ghost use Rattle.ely_cred.specs.Guesses.{proves};
ghost use Rattle.ely_cred.specs.Keys.{ready_of};
ghost use Rattle.ely_scram.specs.Judgement.{judgement_of};
ghost use Rattle.ely_job.specs.Digests.{digest_hash, digest_verdict};
ghost use Rattle.ely_job.specs.Dones.{verdict_in};
ghost use Rattle.ely_job.specs.Jobs.{finished_of, judged_by, password_verdict, scram_verdict};
ghost use Rattle.ely_job.specs.declared.job.Work.TheVariants as works;

use crate::done::Done;
use crate::job::{Job, Work};
use crate::verdict::{Finished, Verdict};
use ely_base::{Bytes, discard};
use ely_cred::Ready;
use ely_digest_msg::DigestReply;
use ely_hash::same;
use ely_pipeline::Place;
use ely_row::{Mech, Params, SharedRow};
use ely_scram_msg::{ClientFirst, ClientLast};

/// Whether the job is the derivation of this row's key.
fn is_derivation(job: &Job, place: &Place, row: &SharedRow, mech: Mech, params: &Params) -> bool
    ensures { IsTrue result ↔ (job.now ≡ works.Derive place.now row.now mech params.now) }
{
    match job.work() {
        Work::Derive(own_place, own_row, own_mech, own_params) => {
            *own_mech == mech
                && own_place.same(place)
                && own_row.same(row)
                && own_params.same(params)
        }
        _ => false,
    }
}

/// Whether the job is the judgement of this password.
fn is_guess(job: &Job, ready: &Ready, password: &Bytes) -> bool
    ensures { IsTrue result ↔ (job.now ≡ works.Guess ready.now password.now) }
{
    match job.work() {
        Work::Guess(own_ready, own_password) => {
            same(own_password.bytes(), password.bytes()) && own_ready.same(ready)
        }
        _ => false,
    }
}

/// Whether the job is the judgement of this message.
fn is_judgement(
    job: &Job,
    ready: &Ready,
    first: &ClientFirst,
    nonce: &Bytes,
    server_first: &Bytes,
    last: &ClientLast,
) -> bool
    ensures { IsTrue result ↔ (job.now
        ≡ works.Scram ready.now first.now nonce.now server_first.now last.now) }
{
    match job.work() {
        Work::Scram(own_ready, own_first, own_nonce, own_text, own_last) => {
            same(own_nonce.bytes(), nonce.bytes())
                && same(own_text.bytes(), server_first.bytes())
                && own_last.same(last)
                && own_first.same(first)
                && own_ready.same(ready)
        }
        _ => false,
    }
}

/// Whether the job is the judgement of this header.
fn is_header(
    job: &Job,
    ready: &Ready,
    reply: &DigestReply,
    method: &Bytes,
    target: &Bytes,
    digest_realm: &Bytes,
) -> bool
    ensures { IsTrue result ↔ (job.now
        ≡ works.Digest ready.now reply.now method.now target.now digest_realm.now) }
{
    match job.work() {
        Work::Digest(own_ready, own_reply, own_method, own_target, own_realm) => {
            same(own_method.bytes(), method.bytes())
                && same(own_target.bytes(), target.bytes())
                && same(own_realm.bytes(), digest_realm.bytes())
                && own_reply.same(reply)
                && own_ready.same(ready)
        }
        _ => false,
    }
}

/// The result without its job.
fn result_of(done: Done) -> Finished
    ensures value { result ≡ done.finished }
    ensures defined { finished_of done.job ≡ Some result }
{
    let (job, finished) = done.parts();
    discard(job);
    finished
}

/// The verdict that a result is.
fn verdict_in(done: Done) -> Option<Verdict>
    ensures value { result ≡ verdict_in done.finished }
    ensures defined { finished_of done.job ≡ Some done.finished }
{
    match result_of(done) {
        Finished::Verdict(verdict) => Some(verdict),
        Finished::Ready(ready) => {
            discard(ready);
            None
        }
    }
}

impl Done {
    /// The key that came of the derivation of this row's key; none where this is of another job.
    pub fn into_key(
        self,
        place: &Place,
        row: &SharedRow,
        mech: Mech,
        params: &Params,
    ) -> Option<Ready>
        ensures exact { IsSome result
            ↔ (self.job ≡ works.Derive place.now row.now mech params.now) }
        ensures value { IfSome result (λ ready. Some ready
            ≡ ready_of params.now place.now.realm place.now.name mech row.now) }
    {
        if !self
            .unheld()
            .is_some_and(|job| is_derivation(job, place, row, mech, params))
        {
            discard(self);
            return None;
        }
        match result_of(self) {
            Finished::Ready(ready) => Some(ready),
            Finished::Verdict(_) => None,
        }
    }

    /// The verdict that came of the judgement of this password; none where this is of another job.
    pub fn into_guess(self, ready: &Ready, password: &Bytes) -> Option<Verdict>
        ensures exact { IsSome result ↔ (self.job ≡ works.Guess ready.now password.now) }
        ensures value { IfSome result (λ verdict. verdict
            ≡ password_verdict (proves ready.now.name ready.now.cred password.now)) }
    {
        if !self
            .unheld()
            .is_some_and(|job| is_guess(job, ready, password))
        {
            discard(self);
            return None;
        }
        verdict_in(self)
    }

    /// The verdict that came of the judgement of this message; none where this is of another job.
    pub fn into_judgement(
        self,
        ready: &Ready,
        first: &ClientFirst,
        nonce: &Bytes,
        server_first: &Bytes,
        last: &ClientLast,
    ) -> Option<Verdict>
        ensures exact { IsSome result ↔ (self.job
            ≡ works.Scram ready.now first.now nonce.now server_first.now last.now) }
        ensures value { IfSome result (λ verdict. Some verdict ≡ option_map
            (λ by. scram_verdict (judgement_of by.0 by.1 first.now nonce.now server_first.now last.now))
            (judged_by ready.now.mech ready.now.key)) }
    {
        let is_of_it = self.unheld().is_some_and(|job| {
            is_judgement(job, ready, first, nonce, server_first, last)
        });
        if !is_of_it {
            discard(self);
            return None;
        }
        verdict_in(self)
    }

    /// The verdict that came of the judgement of this header; none where this is of another job.
    pub fn into_digest(
        self,
        ready: &Ready,
        reply: &DigestReply,
        method: &Bytes,
        target: &Bytes,
        digest_realm: &Bytes,
    ) -> Option<Verdict>
        ensures exact { IsSome result ↔ (self.job
            ≡ works.Digest ready.now reply.now method.now target.now digest_realm.now) }
        ensures value { IfSome result (λ verdict. Some verdict ≡ option_map
            (λ hash. digest_verdict hash ready.now.key reply.now method.now target.now digest_realm.now)
            (digest_hash ready.now.mech)) }
    {
        let is_of_it = self.unheld().is_some_and(|job| {
            is_header(job, ready, reply, method, target, digest_realm)
        });
        if !is_of_it {
            discard(self);
            return None;
        }
        verdict_in(self)
    }
}
