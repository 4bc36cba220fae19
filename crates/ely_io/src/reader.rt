//! A reader of lines with a buffer of 4,096 bytes. A line ends at an LF; the last line needs none.

ghost use Rattle.std.specs.Prelude.{◌≡◌, ℕ, ◌+◌, ◌≤◌, List, [], None, false, IfOk, IsSome, length};
ghost use Rattle.std.specs.Io.KnownBytes.{Consumes};
ghost use Rattle.ely_io.specs.Lines.{has_lf};
ghost use Rattle.ely_io.specs.Reading.{Reader, new_reader, Next, Answers, Counts};

use crate::line::{Line, LineFault};
use crate::source::Source;
use crate::window::{end_input, end_line, first_lf, read_some, set_aside};
use ely_base::{Bytes, NoMemory, Refused};
use std::alloc::Global;
use std::marker::Model;

/// The length of the buffer, in bytes.
const BUFFER: usize = 4096;

/// Reads a source line by line.
#[derive(Drop)]
pub struct LineReader {
    buffer: Vec<u8>,
    /// What of the buffer is taken and not given.
    start: usize,
    end: usize,
    /// What stands before it: a prefix of a line.
    kept: Vec<u8>,
    taken: u64,
    given: u64,
    mark: Option<LineFault>,
    ended: bool,
}

impl Model for LineReader {
    ghost use Rattle.ely_io.specs.Reading.{Reader};

    ghost Value = { Reader };

    ghost use Rattle.ely_io.specs.View.{reader_of, IsReader};

    ghost view = { reader_of };

    ghost invariant = { IsReader };
}

impl LineReader {
    /// A reader that has taken nothing.
    pub fn new(alloc: Global) -> Result<LineReader, NoMemory>
        ensures { IfOk result (λ reader. reader ≡ new_reader) }
    {
        Ok(LineReader {
            buffer: vec![in alloc; 0; BUFFER]?,
            start: 0,
            end: 0,
            kept: Vec::new(alloc),
            taken: 0,
            given: 0,
            mark: None,
            ended: false,
        })
    }

    /// How many bytes of the input stand up to the end of the last line given, each LF and the lines that were too long counted.
    pub fn given(&self) -> u64
        ensures { result ≡ self.now.given }
    {
        self.given
    }

    /// Whether the last call met the end of the input. A later call would read again.
    pub fn ended(&self) -> bool
        ensures { result ≡ self.now.ended }
    {
        self.ended
    }

    /// Whether it holds a whole line, so that the next call gives that one without a call of the source.
    pub fn has_line(&self) -> bool
        ensures { result ≡ has_lf self.now.held }
    {
        first_lf(&self.buffer[self.start..self.end]).is_some()
    }

    /// Takes back the memory of a line that was given, for a later one.
    pub fn reuse(&mut self, line: Bytes)
        ensures { self.new ≡ self.old }
    {
        if self.kept.is_empty() {
            let mut list = line.into_list();
            list.clear();
            self.kept = list;
        }
    }

    /// The next line. A fault is answered again from then on, without a call of the source; after want of memory a later
    /// call goes on from the same bytes.
    pub fn next<S: Source>(
        &mut self,
        alloc: Global,
        source: &mut S,
        limit: usize,
    ) -> Result<Line, Refused<LineFault>>
        requires { 1 ≤ limit }
        ensures line { self.old.mark ≡ None →
            Next limit self.old self.new (S.seen source.old) (S.seen source.new) result }
        ensures marked { Answers self.old.mark self.old self.new result }
        ensures unread { IsSome self.old.mark → source.new ≡ source.old }
        ensures counts { Counts self.new }
        ensures later { (S.seen source.old).faults ≤ (S.seen source.new).faults }
    {
        if let Some(fault) = self.mark {
            return Err(Refused::Fault(fault));
        }
        self.ended = false;
        let mut long = false;
        loop {
            let window = &self.buffer[self.start..self.end];
            match first_lf(window) {
                Some(offset) => {
                    let line = end_line(alloc, &mut self.kept, &window[..offset], long, limit)?;
                    self.start += offset + 1;
                    self.given = self.taken - (self.end - self.start) as u64;
                    return Ok(line);
                }
                None => long = set_aside(&mut self.kept, window, long, limit)?,
            }
            self.start = 0;
            self.end = 0;
            match read_some(source, &mut self.buffer, self.taken) {
                Ok(0) => {
                    self.ended = true;
                    self.given = self.taken;
                    return Ok(end_input(alloc, &mut self.kept, long));
                }
                Ok(count) => {
                    self.end = count;
                    self.taken += count as u64;
                }
                Err(fault) => {
                    self.mark = Some(fault);
                    return Err(Refused::Fault(fault));
                }
            }
        }
    }
}
