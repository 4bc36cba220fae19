//! The steps of the domain, and its answers.

ghost use Rattle.std.specs.Prelude.{◌≡◌};
ghost use Rattle.ely_domain.specs.Events.{edit_word, word_of};
ghost use Rattle.ely_domain.specs.Serials.{carrier};
ghost use Rattle.ely_domain.specs.Steps.{carried, is_carried, not_there};

use ely_base::{Bytes, CtxId, Serial, discard};
use ely_job::{Done, Job};
use ely_login::{BadLine, CacheWord, Claim, Evidence, Outcome, StateWord, StepWord};
use ely_row::{Edit, Mech};

/// One step of the domain.
#[derive(Drop)]
pub enum Event {
    /// A line that can't be read.
    Bad {
        bad: BadLine,
    },
    Change {
        edit: Edit,
    },
    /// A login is opened, with the nonce that the line brings.
    Begin {
        ctx: CtxId,
        mech: Mech,
        nonce: Option<Bytes>,
    },
    Name1 {
        ctx: CtxId,
        claim: Claim,
    },
    /// The key of what was pinned is due; with what came of its job, where that was done elsewhere.
    Name2 {
        ctx: CtxId,
        serial: Serial,
        done: Option<Done>,
    },
    /// What a login shows; with the serial of its line's own name1, where it has one.
    Check1 {
        ctx: CtxId,
        serial: Option<Serial>,
        evidence: Evidence,
    },
    /// The verdict on what was shown is due; with what came of its job, where that was done elsewhere.
    Check2 {
        ctx: CtxId,
        serial: Serial,
        done: Option<Done>,
    },
    Authorize {
        ctx: CtxId,
    },
    Allows {
        ctx: CtxId,
        wanted: Bytes,
    },
    Succeed {
        ctx: CtxId,
    },
    Fail {
        ctx: CtxId,
    },
    Close {
        ctx: CtxId,
    },
}

/// What the domain answers to a step: the outcome, the word of what is kept, the login's serial where an accepted open, name1
/// or check1 gives it to its line, and the job that an accepted name1 or check1 hands out.
#[derive(Drop)]
pub struct Answer {
    pub outcome: Outcome,
    pub cache: CacheWord,
    pub serial: Option<Serial>,
    pub job: Option<Job>,
}

impl Answer {
    /// The same answer with this job in place of its own.
    pub(crate) fn with_job(self, job: Option<Job>) -> Answer
        ensures outcome { result.outcome ≡ self.outcome }
        ensures cache { result.cache ≡ self.cache }
        ensures serial { result.serial ≡ self.serial }
        ensures job { result.job ≡ job }
    {
        discard(self.job);
        Answer {
            outcome: self.outcome,
            cache: self.cache,
            serial: self.serial,
            job,
        }
    }
}

/// The word of an edit.
fn edit_word(edit: &Edit) -> StepWord
    ensures { result ≡ edit_word edit.now }
{
    match edit {
        Edit::Add { .. } => StepWord::Add,
        Edit::Remove { .. } => StepWord::Remove,
        Edit::SetCred { .. } => StepWord::SetCred,
        Edit::DropCred { .. } => StepWord::DropCred,
        Edit::SetAttr { .. } => StepWord::SetAttr,
        Edit::DropAttr { .. } => StepWord::DropAttr,
        Edit::Reload { .. } => StepWord::Reload,
    }
}

impl Event {
    /// The word by which the step is printed.
    pub fn word(&self) -> StepWord
        ensures { result ≡ word_of self.now }
    {
        match self {
            Event::Bad { .. } => StepWord::BadLine,
            Event::Change { edit } => edit_word(edit),
            Event::Begin { .. } => StepWord::Begin,
            Event::Name1 { .. } => StepWord::Name1,
            Event::Name2 { .. } => StepWord::Name2,
            Event::Check1 { .. } => StepWord::Check1,
            Event::Check2 { .. } => StepWord::Check2,
            Event::Authorize { .. } => StepWord::Authorize,
            Event::Allows { .. } => StepWord::Allows,
            Event::Succeed { .. } => StepWord::Succeed,
            Event::Fail { .. } => StepWord::Fail,
            Event::Close { .. } => StepWord::Close,
        }
    }

    /// The login whose serial an accepted step of it gives to its line.
    pub(crate) fn carrier(&self) -> Option<CtxId>
        ensures { result ≡ carrier self.now }
    {
        match self {
            Event::Name1 { ctx, .. } => Some(*ctx),
            Event::Check1 { ctx, .. } => Some(*ctx),
            _ => None,
        }
    }

    /// The serial that the step carries: it is one of the open with that serial.
    pub(crate) fn carried(&self) -> Option<Serial>
        ensures { result ≡ carried self.now }
    {
        match self {
            Event::Name2 { serial, .. } => Some(*serial),
            Event::Check1 { serial, .. } => *serial,
            Event::Check2 { serial, .. } => Some(*serial),
            _ => None,
        }
    }

    /// What is answered where there is no login.
    pub(crate) fn not_there(&self) -> Outcome
        ensures { result ≡ not_there self.now }
    {
        if self.carried().is_some() {
            Outcome::Gone
        } else {
            Outcome::State(StateWord::Absent)
        }
    }

    /// Whether this login's serial is the one that the step carries, if it carries one.
    pub(crate) fn is_carried(&self, serial: Serial) -> bool
        ensures { result ≡ is_carried (carried self.now) serial }
    {
        match self.carried() {
            None => true,
            Some(carried) => serial == carried,
        }
    }
}
