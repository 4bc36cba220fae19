//! Running a job.

ghost use Rattle.std.specs.Prelude.{◌≡◌, ◌+◌, Some, IsFalse, IsOk, IfOk, MatchResult};
ghost use Rattle.ely_cred.specs.Guesses.{proves, guess_cost};
ghost use Rattle.ely_job.specs.Jobs.{is_held, takes_memory, password_verdict, finished_of, job_cost};

use crate::digest::digest_judgement;
use crate::done::Done;
use crate::job::{Job, Work};
use crate::scram::scram_verdict;
use crate::verdict::{Finished, Verdict};
use ely_base::NoMemory;
use ely_cred::{Ready, derive, guess};
use ely_hash::Steps;
use ely_row::Mech;
use std::alloc::Global;
use std::sync::ledger::Ledger;

/// The verdict on a password by a key.
pub fn password_verdict<L: Ledger>(ready: &Ready, password: &[u8], steps: &mut Steps<L>) -> Verdict
    requires { ready.now.mech ≡ Mech.Plain }
    ensures value { result
        ≡ password_verdict (proves ready.now.name ready.now.cred password.now) }
    ensures cost { steps.new ≡ steps.old + guess_cost ready.now.cred }
{
    if guess::<L>(ready, password, steps) {
        Verdict::Proved(None)
    } else {
        Verdict::Password
    }
}

/// The result of a job that holds none.
fn finished<L: Ledger>(alloc: Global, job: &Job, steps: &mut Steps<L>) -> Result<Finished, NoMemory>
    requires { IsFalse (is_held job.now) }
    ensures finished { IfOk result (λ finished. finished_of job.now ≡ Some finished) }
    ensures cost { MatchResult result
        (λ _. steps.new ≡ steps.old + job_cost job.now) (λ _. steps.new ≡ steps.old) }
    ensures takes_no_memory { IsFalse (takes_memory job.now) → IsOk result }
{
    match job.work() {
        Work::Held(_) => unreachable!(),
        Work::Derive(place, row, mech, params) => {
            let (realm, name) = (&place.realm, &place.name);
            let ready = derive::<L>(alloc, realm, name, row.row(), *mech, params, steps)?;
            Ok(Finished::Ready(ready))
        }
        Work::Scram(ready, first, nonce, server_first, last) => {
            let (nonce, server_first) = (nonce.bytes(), server_first.bytes());
            let verdict = scram_verdict::<L>(ready, first, nonce, server_first, last, steps);
            Ok(Finished::Verdict(verdict))
        }
        Work::Digest(ready, reply, method, target, digest_realm) => {
            let (method, target) = (method.bytes(), target.bytes());
            let verdict = digest_judgement(ready, reply, method, target, digest_realm.bytes());
            Ok(Finished::Verdict(verdict))
        }
        Work::Guess(ready, password) => {
            let verdict = password_verdict::<L>(ready, password.bytes(), steps);
            Ok(Finished::Verdict(verdict))
        }
    }
}

impl Job {
    /// Runs the job: a key that is held is the result, and else a key is derived, or evidence judged. Each HMAC computation
    /// is one step, and none is taken where memory runs out. Only a derivation takes memory.
    pub fn run<L: Ledger>(self, alloc: Global, steps: &mut Steps<L>) -> Result<Done, NoMemory>
        ensures done { IfOk result (λ done. done.job ≡ self) }
        ensures finished { IfOk result (λ done. finished_of self ≡ Some done.finished) }
        ensures cost { MatchResult result
            (λ _. steps.new ≡ steps.old + job_cost self) (λ _. steps.new ≡ steps.old) }
        ensures takes_no_memory { IsFalse (takes_memory self) → IsOk result }
    {
        match self.into_held() {
            Ok(ready) => Ok(Done::held(ready)),
            Err(job) => {
                let finished = finished::<L>(alloc, &job, steps)?;
                Ok(Done::of(job, finished))
            }
        }
    }
}
