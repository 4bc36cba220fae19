//! The work of a login that is done while nobody else waits: a job is copied out, run elsewhere, and its result comes back
//! together with the job that it is of, so that nobody brings a result of another job.
//!
//! It stands on `ely_cred` for keys and passwords, on `ely_scram` for the judgement of SCRAM and on `ely_digest` for the
//! formula of Digest, and knows no login.
#![tactic(auto)]

mod digest;
mod done;
mod job;
mod run;
mod scram;
mod taking;
mod verdict;

pub use digest::{digest_judgement, digest_verdict};
pub use done::Done;
pub use job::Job;
pub use run::password_verdict;
pub use scram::scram_verdict;
pub use verdict::{Finished, Verdict};
