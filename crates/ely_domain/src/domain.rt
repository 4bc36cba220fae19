//! The domain: one step of it is one step of the machine that it stands for.

ghost use Rattle.std.specs.Prelude.{◌≡◌, ℕ, ◌<◌, ◌≤◌, ◌^◌, ◌-◌, IfOk, List, OnErr, Option, IsOk, None, Some, length, map, slice_get};
ghost use Rattle.ely_context.specs.Logins.{state_at, with_login, without_login};
ghost use Rattle.ely_domain.specs.Contexts.{IsSound, read_of, seen_live};
ghost use Rattle.ely_domain.specs.Costs.{RoseBy, login_cost, step_cost};
ghost use Rattle.ely_domain.specs.Domains.{IsLoginStep, TakesNoMemory, first_seen};
ghost use Rattle.ely_domain.specs.Given.{loadings, realms};
ghost use Rattle.ely_domain.specs.Jobs.{Brings, BringsResult, job_of, job_behind};
ghost use Rattle.ely_domain.specs.Handing.{job_ahead};
ghost use Rattle.ely_domain.specs.Keeping.{word_due, word_on, kept_after, kept_on, kept_changed, kept_opened, with_founds};
ghost use Rattle.ely_domain.specs.KeptKeys.{stands_for};
ghost use Rattle.ely_cache.specs.Caches.{untouched_in};
ghost use Rattle.ely_row.specs.declared.edit.Edit.{Edit};
ghost use Rattle.ely_domain.specs.Serials.{carrier, serial_given, serial_at};
ghost use Rattle.ely_domain.specs.declared.event.Event.{Event};
ghost use Rattle.ely_domain.specs.Machine.{change, begin, closed, answered, with_answered, known, step};
ghost use Rattle.ely_table.specs.Faults.{fault};

use crate::event::{Answer, Event};
use crate::handouts::Handouts;
use crate::jobs::{job_ahead, job_of};
use crate::loading::{first_caches, first_tables};
use crate::login_step::login_step;
use crate::nonce::nonce_of;
use crate::opening::{alg_of, challenge, open, opening_fault};
use crate::planned::Planned;
use ely_base::{Bytes, CtxId, NoMemory, Refused, Serial, Version, discard};
use ely_cache::Caches;
use ely_config::Config;
use ely_context::Logins;
use ely_digest::NonceTable;
use ely_hash::Steps;
use ely_job::Job;
use ely_login::{CacheWord, Outcome, StateWord};
use ely_row::{Edit, Mech};
use ely_table::Tables;
use std::alloc::Global;
use std::marker::Model;
use std::sync::ledger::Ledger;

/// The most edits of a journal.
pub const JOURNAL_LIMIT: u32 = 131072;

/// The most nonces of Digest that are known at once; for a further one the oldest is forgotten.
const NONCES_LIMIT: u32 = 4096;

/// The tables of the realms with their journal, the configuration with the plans of its realms, the caches of those that are
/// caching, the logins that are live, the nonces of Digest that were issued, and what the authorized logins hand out.
#[derive(Drop)]
pub struct Domain {
    tables: Tables,
    planned: Planned,
    caches: Caches,
    logins: Logins,
    nonces: NonceTable,
    handouts: Handouts,
    opened: u64,
}

impl Model for Domain {
    ghost use Rattle.std.specs.Coded.{codes};
    ghost use Rattle.ely_pipeline.specs.contracts.rule.Rule as rule;
    ghost use Rattle.ely_roles.specs.contracts.mapper.RoleMapper as mapper;
    ghost use Rattle.ely_domain.specs.Domains.{Seen};
    ghost use Rattle.std.specs.Prelude.{◌≡◌};
    ghost use Rattle.ely_domain.specs.Given.{realms};
    ghost use Rattle.ely_domain.specs.Caches.{AreCurrent, kept_in};
    ghost use Rattle.ely_domain.specs.Contexts.{IsSound, read_of, seen_live};

    ghost Value = { Seen };

    ghost coded = { Prim.hlevel (codes, rule.the_row.coded, mapper.the_row.coded) };

    ghost view = { λ d. record {
      given = record { config = d.planned; limit = d.tables.limit };
      machine = record { edits = d.tables.journal; live = seen_live d.logins d.nonces; opened = d.opened };
      kept = kept_in d.caches d.logins;
    } };

    ghost invariant = { λ d. (d.tables.realms ≡ realms (record { config = d.planned; limit = d.tables.limit }))
        × IsSound (read_of d.planned d.tables) d.logins d.handouts
        × AreCurrent (read_of d.planned d.tables) d.caches };
}

/// Drops from the caches what the last edit touches.
fn drop_last(tables: &Tables, caches: &mut Caches)
    ensures { (edit : Edit) → slice_get tables.now.journal (length tables.now.journal - 1) ≡ Some edit
        → caches.new ≡ map (untouched_in edit) caches.old }
{
    if let Some(edit) = tables.last() {
        caches.drop_touched(edit);
    }
}

impl Domain {
    /// A domain of this configuration without logins. Its journal takes `journal_limit` edits, from 1 to 131,072, and begins
    /// with one reload of each realm that has texts, for which there has to be room.
    pub fn new(alloc: Global, config: Config, journal_limit: u32) -> Result<Domain, NoMemory>
        requires some { 1 ≤ journal_limit }
        requires most { journal_limit ≤ 131072 }
        requires room { length (loadings config.realms) ≤ journal_limit }
        ensures { IfOk result (λ domain. domain
            ≡ first_seen (record { config = config; limit = journal_limit })) }
    {
        let planned = Planned::of(alloc, config)?;
        let tables = first_tables(alloc, planned.config(), journal_limit)?;
        let caches = first_caches(alloc, planned.config().realms())?;
        let nonces = NonceTable::new(alloc, NONCES_LIMIT)?;
        Ok(Domain {
            tables,
            planned,
            caches,
            logins: Logins::new(alloc),
            nonces,
            handouts: Handouts::new(alloc),
            opened: 0,
        })
    }

    /// How many opens were accepted, which is the serial number of the last of them.
    pub fn opened(&self) -> u64
        ensures { result ≡ self.now.machine.opened }
    {
        self.opened
    }

    /// How many edits were accepted.
    pub fn version(&self) -> Version
        ensures { result ≡ length self.now.machine.edits }
    {
        self.tables.version()
    }

    /// The configuration that the domain was made with.
    pub fn config(&self) -> &Config
        ensures { result.now ≡ self.now.given.config }
    {
        self.planned.config()
    }

    /// The state of the login with this id.
    pub fn state(&self, id: CtxId) -> StateWord
        ensures { result ≡ state_at self.now.machine.live.logins id }
    {
        match self.logins.find(id) {
            None => StateWord::Absent,
            Some(context) => context.state(),
        }
    }

    /// Makes an edit, or refuses it. With an edit that is made the caches lose what it touches.
    fn change(&mut self, alloc: Global, edit: Edit) -> Result<Outcome, NoMemory>
        ensures ok { IfOk result (λ outcome. (outcome, self.new.machine)
            ≡ change self.old.machine edit
            (fault (realms self.old.given) self.old.given.limit self.old.machine.edits edit)) }
        ensures kept { IfOk result (λ outcome. self.new.kept ≡ kept_changed self.old.given self.old.kept edit outcome) }
        ensures given { self.new.given ≡ self.old.given }
        ensures err { OnErr result (self.new ≡ self.old) }
    {
        match self.tables.apply(alloc, edit) {
            Ok(version) => {
                drop_last(&self.tables, &mut self.caches);
                Ok(Outcome::Changed(version))
            }
            Err(Refused::NoMemory) => Err(NoMemory),
            Err(Refused::Fault(fault)) => Ok(Outcome::Refused(fault)),
        }
    }

    /// Opens a login, where its id isn't live and there is room.
    fn begin(
        &mut self,
        alloc: Global,
        id: CtxId,
        mech: Mech,
        brought: Option<Bytes>,
    ) -> Result<Outcome, NoMemory>
        requires { self.old.machine.opened < 2 ^ 64 - 1 }
        ensures ok { IfOk result (λ outcome. (outcome, self.new.machine)
            ≡ begin self.old.given self.old.machine id mech brought) }
        ensures kept { IfOk result (λ outcome. self.new.kept
            ≡ kept_opened self.old.kept (with_login self.old.kept.founds id CacheWord.None) outcome) }
        ensures given { self.new.given ≡ self.old.given }
        ensures err { OnErr result (self.new ≡ self.old) }
    {
        let serial = Serial(self.opened + 1);
        let config = self.planned.config();
        let nonce = nonce_of(alloc, config, mech, self.opened + 1, brought)?;
        let alg = alg_of(mech);
        if let Some(fault) = opening_fault(&self.logins, &self.nonces, id, &nonce, alg) {
            return Ok(fault);
        }
        let challenge = challenge(alloc, config, &nonce, alg)?;
        let (logins, nonces) = (&mut self.logins, &mut self.nonces);
        open(alloc, logins, nonces, id, serial, mech, nonce)?;
        self.opened += 1;
        Ok(Outcome::Opened { serial, challenge })
    }

    /// Closes a login in whatever state it is.
    #[tactic(auto, unfolding(crate::specs::Machine::closed))]
    fn close(&mut self, id: CtxId) -> Outcome
        ensures ok { (result, self.new.machine)
            ≡ with_answered self.old.machine (closed self.old.machine.live id) }
        ensures kept { self.new.kept
            ≡ with_founds self.old.kept (without_login self.old.kept.founds id) }
        ensures given { self.new.given ≡ self.old.given }
    {
        let _ = self.handouts.take(id);
        if self.logins.close(id) {
            Outcome::Fine
        } else {
            Outcome::State(StateWord::Absent)
        }
    }

    /// Makes a step of a login.
    fn step_login<L: Ledger>(
        &mut self,
        alloc: Global,
        id: CtxId,
        event: Event,
        steps: &mut Steps<L>,
    ) -> Result<(Outcome, CacheWord), NoMemory>
        requires { IsLoginStep event }
        ensures ok { IfOk result (λ said. (said.0, self.new.machine)
            ≡ with_answered self.old.machine
            (answered (known self.old.given self.old.machine) self.old.machine.live event id)) }
        ensures word { IfOk result (λ said. stands_for said.1
            ≡ word_on (known self.old.given self.old.machine) self.old.machine.live self.old.kept id event said.0) }
        ensures kept { IfOk result (λ said. self.new.kept
            ≡ kept_on (known self.old.given self.old.machine) self.old.machine.live self.old.kept id event said.0 said.1) }
        ensures given { self.new.given ≡ self.old.given }
        ensures err { OnErr result (self.new ≡ self.old) }
        ensures takes_no_memory { TakesNoMemory event → IsOk result }
        ensures cost { RoseBy steps.old steps.new
            (login_cost (known self.old.given self.old.machine) self.old.kept.founds self.old.machine.live event id) }
        ensures brought { Brings (known self.old.given self.old.machine) self.old.kept.founds
            self.old.machine.live id event → steps.new ≡ steps.old }
    {
        login_step(
            alloc,
            &self.planned,
            &self.tables,
            &mut self.caches,
            &mut self.logins,
            &mut self.nonces,
            &mut self.handouts,
            id,
            event,
            steps,
        )
    }

    /// What the domain answers, with the word of what is kept.
    #[tactic(auto, unfolding(crate::specs::Machine::step, crate::specs::Costs::step_cost))]
    fn answer<L: Ledger>(
        &mut self,
        alloc: Global,
        event: Event,
        steps: &mut Steps<L>,
    ) -> Result<(Outcome, CacheWord), NoMemory>
        requires { self.old.machine.opened < 2 ^ 64 - 1 }
        ensures ok { IfOk result (λ said. (said.0, self.new.machine)
            ≡ step self.old.given self.old.machine event) }
        ensures word { IfOk result (λ said. stands_for said.1
            ≡ word_due self.old.given self.old.machine self.old.kept event said.0) }
        ensures kept { IfOk result (λ said. self.new.kept
            ≡ kept_after self.old.given self.old.machine self.old.kept event said.0 said.1) }
        ensures given { self.new.given ≡ self.old.given }
        ensures err { OnErr result (self.new ≡ self.old) }
        ensures takes_no_memory { TakesNoMemory event → IsOk result }
        ensures cost { RoseBy steps.old steps.new
            (step_cost self.old.given self.old.machine self.old.kept event) }
        ensures brought { BringsResult (known self.old.given self.old.machine) self.old.kept.founds
            self.old.machine.live event → steps.new ≡ steps.old }
    {
        match event {
            Event::Bad { bad } => Ok((Outcome::Bad(bad), CacheWord::None)),
            Event::Change { edit } => match self.change(alloc, edit) {
                Ok(outcome) => Ok((outcome, CacheWord::None)),
                Err(NoMemory) => Err(NoMemory),
            },
            Event::Begin { ctx, mech, nonce } => match self.begin(alloc, ctx, mech, nonce) {
                Ok(outcome) => Ok((outcome, CacheWord::None)),
                Err(NoMemory) => Err(NoMemory),
            },
            Event::Close { ctx } => Ok((self.close(ctx), CacheWord::None)),
            Event::Name1 { ctx, .. }
            | Event::Name2 { ctx, .. }
            | Event::Check1 { ctx, .. }
            | Event::Check2 { ctx, .. }
            | Event::Authorize { ctx }
            | Event::Allows { ctx, .. }
            | Event::Succeed { ctx }
            | Event::Fail { ctx } => self.step_login(alloc, ctx, event, steps),
        }
    }

    /// The job of the login with this id and this serial, where it is loading or checked: what can be done for it elsewhere.
    pub fn job_of(&self, alloc: Global, id: CtxId, serial: Serial) -> Result<Option<Job>, NoMemory>
        ensures { IfOk result (λ job. job
            ≡ job_of (known self.now.given self.now.machine) self.now.kept.founds self.now.machine.live id serial) }
    {
        job_of(
            alloc,
            self.planned.config(),
            &self.tables,
            &self.logins,
            id,
            serial,
        )
    }

    /// The serial of the login with this id.
    fn serial_at(&self, id: CtxId) -> Option<Serial>
        ensures { result ≡ serial_at self.now.machine.live id }
    {
        let context = self.logins.find(id)?;
        Some(context.serial())
    }

    /// The serial that an answer gives to its line.
    fn serial_given(&self, of_login: Option<CtxId>, outcome: &Outcome) -> Option<Serial>
        ensures { result ≡ serial_given of_login outcome.now self.now.machine.live }
    {
        match (of_login, outcome) {
            (_, Outcome::Opened { serial, .. }) => Some(*serial),
            (Some(id), Outcome::Pinned(_)) => self.serial_at(id),
            (Some(id), Outcome::Fine) => self.serial_at(id),
            _ => None,
        }
    }

    /// The job that a step will hand out.
    fn job_ahead(&self, alloc: Global, event: &Event) -> Result<Option<Job>, NoMemory>
        ensures job { IfOk result (λ job. job
            ≡ job_ahead (known self.now.given self.now.machine) self.now.kept.lists self.now.machine.live event.now) }
        ensures takes_no_memory { TakesNoMemory event.now → IsOk result }
    {
        job_ahead(
            alloc,
            &self.planned,
            &self.tables,
            &self.caches,
            &self.logins,
            &self.nonces,
            event,
        )
    }

    /// One step: the answer is the machine's, and the domain stands for the machine after it. The counter rises by what the
    /// step costs at most: a naming derives its key, and a check judges what was shown; any other step costs nothing, and none
    /// does with which the result of its login's job is brought. An accepted name1 or check1 hands out the job that its login
    /// has then, for those who do it elsewhere.
    pub fn step<L: Ledger>(
        &mut self,
        alloc: Global,
        event: Event,
        steps: &mut Steps<L>,
    ) -> Result<Answer, NoMemory>
        requires { self.old.machine.opened < 2 ^ 64 - 1 }
        ensures answer { IfOk result (λ answer. (answer.outcome, self.new.machine)
            ≡ step self.old.given self.old.machine event) }
        ensures word { IfOk result (λ answer. stands_for answer.cache
            ≡ word_due self.old.given self.old.machine self.old.kept event answer.outcome) }
        ensures kept { IfOk result (λ answer. self.new.kept
            ≡ kept_after self.old.given self.old.machine self.old.kept event answer.outcome answer.cache) }
        ensures serial { IfOk result (λ answer. answer.serial
            ≡ serial_given (carrier event) answer.outcome self.new.machine.live) }
        ensures job { IfOk result (λ answer. answer.job
            ≡ job_behind self.old.given self.old.machine self.old.kept event) }
        ensures given { self.new.given ≡ self.old.given }
        ensures err { OnErr result (self.new ≡ self.old) }
        ensures takes_no_memory { TakesNoMemory event → IsOk result }
        ensures cost { RoseBy steps.old steps.new
            (step_cost self.old.given self.old.machine self.old.kept event) }
        ensures brought { BringsResult (known self.old.given self.old.machine) self.old.kept.founds
            self.old.machine.live event → steps.new ≡ steps.old }
    {
        match self.job_ahead(alloc, &event) {
            Err(NoMemory) => {
                discard(event);
                Err(NoMemory)
            }
            Ok(job) => match self.step_here(alloc, event, steps) {
                Err(NoMemory) => {
                    discard(job);
                    Err(NoMemory)
                }
                Ok(answer) => Ok(answer.with_job(job)),
            },
        }
    }

    /// The same step for those who do its job here: none is handed out.
    pub fn step_here<L: Ledger>(
        &mut self,
        alloc: Global,
        event: Event,
        steps: &mut Steps<L>,
    ) -> Result<Answer, NoMemory>
        requires { self.old.machine.opened < 2 ^ 64 - 1 }
        ensures answer { IfOk result (λ answer. (answer.outcome, self.new.machine)
            ≡ step self.old.given self.old.machine event) }
        ensures word { IfOk result (λ answer. stands_for answer.cache
            ≡ word_due self.old.given self.old.machine self.old.kept event answer.outcome) }
        ensures kept { IfOk result (λ answer. self.new.kept
            ≡ kept_after self.old.given self.old.machine self.old.kept event answer.outcome answer.cache) }
        ensures serial { IfOk result (λ answer. answer.serial
            ≡ serial_given (carrier event) answer.outcome self.new.machine.live) }
        ensures no_job { IfOk result (λ answer. answer.job ≡ None) }
        ensures given { self.new.given ≡ self.old.given }
        ensures err { OnErr result (self.new ≡ self.old) }
        ensures takes_no_memory { TakesNoMemory event → IsOk result }
        ensures cost { RoseBy steps.old steps.new
            (step_cost self.old.given self.old.machine self.old.kept event) }
        ensures brought { BringsResult (known self.old.given self.old.machine) self.old.kept.founds
            self.old.machine.live event → steps.new ≡ steps.old }
    {
        let of_login = event.carrier();
        let (outcome, cache) = self.answer(alloc, event, steps)?;
        let serial = self.serial_given(of_login, &outcome);
        Ok(Answer {
            outcome,
            cache,
            serial,
            job: None,
        })
    }
}
