//! A job that is done, with its result.

ghost use Rattle.std.specs.Prelude.{◌≡◌, ◌↔◌, Some, IsTrue, IsFalse};
ghost use Rattle.std.specs.Option.{option_copied};
ghost use Rattle.ely_job.specs.Jobs.{is_held, finished_of};
ghost use Rattle.ely_job.specs.Dones.{unheld};

use crate::job::{Job, Work};
use crate::verdict::Finished;
use ely_cred::Ready;
use std::marker::Model;

/// A job and its result; a key that is held is both.
#[derive(Drop)]
enum Kept {
    Held(Ready),
    Run { job: Job, finished: Finished },
}

/// A job that is done, seen as the job and its result, which is what comes of that job and of no other.
#[derive(Drop)]
pub struct Done {
    kept: Kept,
}

impl Model for Done {
    ghost use Rattle.ely_job.specs.Dones.{Done, done_of, IsKept};

    ghost Value = { Done };

    ghost view = { λ d. done_of d.kept };

    ghost invariant = { λ d. IsKept d.kept };
}

impl Done {
    /// The job of a key that is held. It takes no memory.
    pub(crate) fn held(ready: Ready) -> Done
        ensures { result ≡ record { job = Work.Held ready; finished = Finished.Ready ready } }
    {
        Done {
            kept: Kept::Held(ready),
        }
    }

    /// Another job with its result. It takes no memory.
    pub(crate) fn of(job: Job, finished: Finished) -> Done
        requires unheld { IsFalse (is_held job) }
        requires finished { finished_of job ≡ Some finished }
        ensures { result ≡ record { job = job; finished = finished } }
    {
        Done {
            kept: Kept::Run { job, finished },
        }
    }

    /// Whether it is of this job.
    pub fn is_for(&self, job: &Job) -> bool
        ensures { IsTrue result ↔ (self.now.job ≡ job.now) }
    {
        match &self.kept {
            Kept::Held(ready) => is_held_by(job, ready),
            Kept::Run { job: own, .. } => own.same(job),
        }
    }

    /// Its job, but for that of a key that is held.
    pub(crate) fn unheld(&self) -> Option<&Job>
        ensures { option_copied result ≡ unheld self.now.job }
    {
        match &self.kept {
            Kept::Held(_) => None,
            Kept::Run { job, .. } => Some(job),
        }
    }

    /// The job and the result. Where a key is held there is no job beside it.
    pub fn parts(self) -> (Option<Job>, Finished)
        ensures job { result.0 ≡ unheld self.job }
        ensures finished { result.1 ≡ self.finished }
        ensures defined { finished_of self.job ≡ Some result.1 }
    {
        match self.kept {
            Kept::Held(ready) => (None, Finished::Ready(ready)),
            Kept::Run { job, finished } => (Some(job), finished),
        }
    }
}

/// Whether the job holds this key.
fn is_held_by(job: &Job, ready: &Ready) -> bool
    ensures { IsTrue result ↔ (Work.Held ready.now ≡ job.now) }
{
    match job.work() {
        Work::Held(own) => ready.same(own),
        _ => false,
    }
}
