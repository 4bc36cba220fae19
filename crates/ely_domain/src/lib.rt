//! The security domain: a machine over a journal of edits and the logins that are live. Its definitions say what each step
//! answers, computed anew from the list of edits. It keeps tables, pinned rows and derived keys beside that, on which no outcome
//! depends. It takes events, and knows no line that asks for one.
#![tactic(auto)]

mod caching;
mod checking;
mod domain;
mod event;
mod granting;
mod handouts;
mod jobs;
mod loading;
mod login_step;
mod naming;
mod nonce;
mod opening;
mod planned;
mod prepared;

pub use domain::{Domain, JOURNAL_LIMIT};
pub use event::{Answer, Event};
