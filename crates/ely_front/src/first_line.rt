//! The first line of a script, which is the configuration.

ghost use Rattle.std.specs.Prelude.{◌≡◌, ◌≤◌, ℕ, IfOk, OnOk, IfErr, Err};
ghost use Rattle.std.specs.Str.{bytes_eq};
ghost use Rattle.ely_io.specs.Causes.{Rose};
ghost use Rattle.ely_front.specs.Moments.{at};
ghost use Rattle.ely_base.specs.Refused.{Gives};
ghost use Rattle.ely_domain.specs.Domains.{first_seen};
ghost use Rattle.ely_front.specs.FirstLine.{given_by, conf, or_refused, first_of, first_text, first_ending, IsBegun};
ghost use Rattle.ely_config_text.specs.Texts.{fault_text};
ghost use Rattle.ely_front.specs.Ending.{EndsAs, Refuses};

use crate::ending::{CONFIG_LIMIT_TEXT, Ending, close, stop};
use crate::mode::Mode;
use ely_base::{NoMemory, Refused, refused_as};
use ely_config::Config;
use ely_config_text::{TextFault, push_fault, read_config};
use ely_domain::{Domain, JOURNAL_LIMIT};
use ely_io::{Line, LineReader, Sink, Source};
use std::alloc::Global;
use std::marker::Model;

/// The most bytes of the first line.
const CONFIG_LIMIT: usize = 1048576;

/// What a first line gives: the configuration, and the most edits that the journal takes, with room for those
/// with which it begins.
#[derive(Drop)]
pub struct Setup {
    config: Config,
    journal_limit: u32,
}

impl Model for Setup {
    ghost use Rattle.std.specs.Coded.{codes};
    ghost use Rattle.std.specs.Prelude.{◌≤◌, length};
    ghost use Rattle.ely_pipeline.specs.contracts.rule.Rule as rule;
    ghost use Rattle.ely_roles.specs.contracts.mapper.RoleMapper as mapper;
    ghost use Rattle.ely_domain.specs.Given.{Given, loadings};

    ghost Value = { Given };

    ghost coded = { Prim.hlevel (codes, rule.the_row.coded, mapper.the_row.coded) };

    ghost view = { λ s. record { config = s.config; limit = s.journal_limit } };

    ghost invariant = { λ s. (1 ≤ s.journal_limit) × (s.journal_limit ≤ 131072)
        × (length (loadings s.config.realms) ≤ s.journal_limit) };
}

/// Why a first line is refused.
#[derive(Drop)]
pub(crate) enum FirstFault {
    /// It is no configuration.
    Config(TextFault),
    /// It has too many bytes.
    Long,
}

/// A script whose first line was read.
#[derive(Drop)]
pub(crate) struct Begun {
    pub(crate) setup: Setup,
    pub(crate) reader: LineReader,
}

impl Setup {
    /// What a configuration gives in every mode. A journal of this limit has room for the edits with which it
    /// begins.
    pub(crate) fn of(config: Config) -> Setup
        ensures { result ≡ given_by config }
    {
        let _realms = config.realms();
        Setup {
            config,
            journal_limit: JOURNAL_LIMIT,
        }
    }

    /// A domain of this configuration, without logins.
    pub fn domain(self, alloc: Global) -> Result<Domain, NoMemory>
        ensures { IfOk result (λ domain. domain ≡ first_seen self) }
    {
        Domain::new(alloc, self.config, self.journal_limit)
    }
}

/// Reads the configuration, or says why the line is none.
fn read_setup(alloc: Global, line: &[u8]) -> Result<Setup, Refused<TextFault>>
    ensures { Gives result (conf line.now) }
{
    match read_config(alloc, line) {
        Ok(config) => Ok(Setup::of(config)),
        Err(Refused::Fault(fault)) => Err(Refused::Fault(fault)),
        Err(Refused::NoMemory) => Err(Refused::NoMemory),
    }
}

/// What a line is as the first one.
fn judge_text(alloc: Global, line: &[u8]) -> Result<Setup, Refused<FirstFault>>
    ensures { Gives result (or_refused (conf line.now)) }
{
    refused_as(read_setup(alloc, line), |fault| FirstFault::Config(fault))
}

/// The same where there may be no line, or one that is too long. An input without a line has the empty one.
fn judge_first(alloc: Global, line: Line) -> Result<Setup, Refused<FirstFault>>
    ensures { Gives result (first_of line) }
{
    match line {
        Line::TooLong => Err(Refused::Fault(FirstFault::Long)),
        Line::End => judge_text(alloc, b""),
        Line::Text(text) => judge_text(alloc, text.bytes()),
    }
}

/// Writes why the first line is no configuration.
fn refuse_config<K: Sink>(alloc: Global, sink: &mut K, fault: &TextFault) -> Ending
    ensures ends { Refuses (K.seen sink.old) (K.seen sink.new) (fault_text fault.now) Ending.Config result }
    ensures write { result ≡ Ending.Write
        → Rose (K.seen sink.old).faults (K.seen sink.new).faults }
{
    let mut text = Vec::new(alloc);
    match push_fault(&mut text, fault) {
        Ok(()) => close(sink, &text, Ending::Config),
        Err(NoMemory) => Ending::NoMemory,
    }
}

/// Writes why the first line is refused.
fn refuse_first<K: Sink>(alloc: Global, sink: &mut K, fault: &FirstFault) -> Ending
    ensures ends { Refuses (K.seen sink.old) (K.seen sink.new)
        (first_text fault.now) (first_ending fault.now) result }
    ensures write { result ≡ Ending.Write
        → Rose (K.seen sink.old).faults (K.seen sink.new).faults }
{
    match fault {
        FirstFault::Config(fault) => refuse_config(alloc, sink, fault),
        FirstFault::Long => close(sink, &CONFIG_LIMIT_TEXT, Ending::ConfigLimit),
    }
}

/// Reads the first line of the script that the source gives. Where it is no configuration that is written,
/// and the answer is how the mode ends.
pub(crate) fn read_first_line<M: Mode, S: Source, K: Sink>(
    alloc: Global,
    source: &mut S,
    sink: &mut K,
) -> Result<Begun, Ending>
    ensures begun { IfOk result (λ begun.
        IsBegun (S.seen source.old) (S.seen source.new) begun.reader begun.setup) }
    ensures unwritten { OnOk result (sink.new ≡ sink.old) }
    ensures ended { IfErr result (λ ending. (steps : ℕ) → EndsAs M.told M.at_end
        (at (S.seen source.old) (K.seen sink.old) steps)
        (at (S.seen source.new) (K.seen sink.new) steps) ending) }
    ensures read { result ≡ Err Ending.Read
        → Rose (S.seen source.old).faults (S.seen source.new).faults }
    ensures write { result ≡ Err Ending.Write
        → Rose (K.seen sink.old).faults (K.seen sink.new).faults }
    ensures later { (S.seen source.old).faults ≤ (S.seen source.new).faults }
{
    let mut reader = match LineReader::new(alloc) {
        Ok(reader) => reader,
        Err(_) => return Err(Ending::NoMemory),
    };
    let line = match reader.next(alloc, source, CONFIG_LIMIT) {
        Ok(line) => line,
        Err(refused) => return Err(stop(sink, b"", refused)),
    };
    match judge_first(alloc, line) {
        Ok(setup) => Ok(Begun { setup, reader }),
        Err(Refused::Fault(fault)) => Err(refuse_first(alloc, sink, &fault)),
        Err(Refused::NoMemory) => Err(Ending::NoMemory),
    }
}
