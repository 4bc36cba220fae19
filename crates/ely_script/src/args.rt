//! The words of a line behind its verb, taken from left to right.

ghost use Rattle.std.specs.Prelude.{◌≡◌, ◌-◌, ◌^◌, ◌≤◌, IsTrue, IfOk};
ghost use Rattle.std.specs.Option.{option_map};
ghost use Rattle.ely_base.specs.Refused.{Gives};
ghost use Rattle.ely_row.specs.Attributes.{is_values};
ghost use Rattle.ely_script.specs.Arguments.{first_of, last_of, none_of, one_of, two_of, three_of, five_of, some_of, rest_of, number_at, ctx_at, raw_at, base64_at, text_at, coded_at, name_at, names_at, place_at};

use ely_base::{
    Bytes, CtxId, Name, Refused, count_of, cut_at, or_fault, read_base64, read_number, read_word,
};
use ely_login::BadLine;
use ely_row::Values;
use std::alloc::Global;
use std::marker::Model;

/// A word of a line, or all that is left of it.
#[derive(Drop)]
pub(crate) struct Word<'a> {
    pub(crate) bytes: &'a [u8],
}

impl<'a> Model for Word<'a> {
    ghost use Rattle.std.specs.Prelude.{ℕ, List};

    ghost Value = { List ℕ };

    ghost view = { λ w. w.bytes.now };
}

/// The words that are left of a line: those of what stands behind a space.
#[derive(Drop)]
pub(crate) struct Args<'a> {
    rest: Option<&'a [u8]>,
}

impl<'a> Model for Args<'a> {
    ghost use Rattle.std.specs.Prelude.{ℕ, List};
    ghost use Rattle.std.specs.Option.{option_map};
    ghost use Rattle.ely_base.specs.Parts.{parts_left};

    ghost Value = { List (List ℕ) };

    ghost view = { λ a. parts_left 32 (option_map (λ rest. rest.now) a.rest) };
}

impl<'a> Args<'a> {
    ghost use Rattle.ely_base.specs.Parts.{parts_left};

    /// The words of what stands behind a space, where one stood.
    pub(crate) fn of(rest: Option<&'a [u8]>) -> Args<'a>
        ensures { result ≡ parts_left 32 (option_map (λ bytes. bytes.now) rest.entry) }
    {
        Args { rest }
    }

    /// The next word and those behind it.
    pub(crate) fn first(self) -> Result<(Word<'a>, Args<'a>), BadLine>
        ensures { result ≡ first_of self.entry }
    {
        match self.rest {
            None => Err(BadLine::Arity),
            Some(bytes) => {
                let (word, rest) = cut_at(bytes, b' ');
                Ok((Word { bytes: word }, Args { rest }))
            }
        }
    }

    /// That no word is left.
    pub(crate) fn none(self) -> Result<(), BadLine>
        ensures { result ≡ none_of self.entry }
    {
        match self.first() {
            Ok(_) => Err(BadLine::Arity),
            Err(_) => Ok(()),
        }
    }

    /// The last word, where one is left.
    pub(crate) fn last(self) -> Result<Option<Word<'a>>, BadLine>
        ensures { result ≡ last_of self.entry }
    {
        match self.first() {
            Err(_) => Ok(None),
            Ok((word, rest)) => {
                rest.none()?;
                Ok(Some(word))
            }
        }
    }

    /// Exactly one word.
    pub(crate) fn one(self) -> Result<Word<'a>, BadLine>
        ensures { result ≡ one_of self.entry }
    {
        let (word, rest) = self.first()?;
        rest.none()?;
        Ok(word)
    }

    /// Exactly two words.
    pub(crate) fn two(self) -> Result<(Word<'a>, Word<'a>), BadLine>
        ensures { result ≡ two_of self.entry }
    {
        let (first, rest) = self.first()?;
        let second = rest.one()?;
        Ok((first, second))
    }

    /// Exactly three words.
    pub(crate) fn three(self) -> Result<(Word<'a>, Word<'a>, Word<'a>), BadLine>
        ensures { result ≡ three_of self.entry }
    {
        let (first, rest) = self.first()?;
        let (second, third) = rest.two()?;
        Ok((first, second, third))
    }

    /// Exactly five words.
    pub(crate) fn five(self) -> Result<(Word<'a>, Word<'a>, Word<'a>, Word<'a>, Word<'a>), BadLine>
        ensures { result ≡ five_of self.entry }
    {
        let (first, rest) = self.first()?;
        let (second, rest) = rest.first()?;
        let (third, rest) = rest.first()?;
        let (fourth, fifth) = rest.two()?;
        Ok((first, second, third, fourth, fifth))
    }

    /// The words, where they are 1 to 64.
    pub(crate) fn some(self) -> Result<Args<'a>, BadLine>
        ensures { result ≡ some_of self.entry }
    {
        match self.rest {
            Some(bytes) if count_of(bytes, b' ') < 64 => Ok(Args { rest: Some(bytes) }),
            _ => Err(BadLine::Arity),
        }
    }

    /// The rest of the line, with its spaces. At least the space before it must stand there.
    #[tactic(auto, using(crate::proofs::RestLemmas::rest_of_parts))]
    pub(crate) fn rest(self) -> Result<Word<'a>, BadLine>
        ensures { result ≡ rest_of self.entry }
    {
        match self.rest {
            None => Err(BadLine::Arity),
            Some(bytes) => Ok(Word { bytes }),
        }
    }

    /// The names that the words stand for, the first of which is the sixth of its line.
    pub(crate) fn values(self, alloc: Global) -> Result<Values, Refused<BadLine>>
        requires { IsTrue (is_values self) }
        ensures { Gives result (names_at 6 self.entry) }
    {
        let mut names = Vec::new(alloc);
        let mut number = 6;
        let mut left = self.rest;
        while let Some(bytes) = left {
            let (word, behind) = cut_at(bytes, b' ');
            let name = Word { bytes: word }.name(alloc, number)?;
            names.push(name)?;
            number += 1;
            left = behind;
        }
        match Values::read(names) {
            Ok(values) => Ok(values),
            Err(_) => Err(Refused::Fault(BadLine::Arity)),
        }
    }
}

impl<'a> Word<'a> {
    /// The number up to `max` that the word of this number is.
    pub(crate) fn number(&self, max: u64, number: u32) -> Result<u64, BadLine>
        ensures value { result ≡ number_at max number self.now }
        ensures within { IfOk result (λ n. n ≤ max) }
    {
        read_number(self.bytes, max).ok_or(BadLine::Number(number))
    }

    /// The login that the word of this number names.
    pub(crate) fn ctx(&self, number: u32) -> Result<CtxId, BadLine>
        ensures { result ≡ ctx_at number self.now }
    {
        let id = self.number(u64::from(u32::MAX), number)?;
        Ok(CtxId(id as u32))
    }

    /// The word of this number as it stands, of at least one byte.
    pub(crate) fn raw(self, number: u32) -> Result<Word<'a>, BadLine>
        ensures { result ≡ raw_at number self.entry }
    {
        if self.bytes.len() >= 1 {
            Ok(self)
        } else {
            Err(BadLine::Word(number))
        }
    }

    /// The bytes whose base64 text the word of this number is.
    pub(crate) fn base64(&self, alloc: Global, number: u32) -> Result<Bytes, Refused<BadLine>>
        ensures { Gives result (base64_at number self.now) }
    {
        or_fault(read_base64(alloc, self.bytes), BadLine::Word(number))
    }

    /// The text that the word of this number stands for: in base64, or `-` for the empty one.
    pub(crate) fn text(&self, alloc: Global, number: u32) -> Result<Bytes, Refused<BadLine>>
        ensures { Gives result (text_at number self.now) }
    {
        if self.bytes == b"-".as_slice() {
            return Ok(Bytes::of(Vec::new(alloc)));
        }
        self.base64(alloc, number)
    }

    /// The bytes that the coded word of this number stands for.
    pub(crate) fn coded(&self, alloc: Global, number: u32) -> Result<Bytes, Refused<BadLine>>
        ensures { Gives result (coded_at number self.now) }
    {
        or_fault(read_word(alloc, self.bytes), BadLine::Word(number))
    }

    /// The name that the coded word of this number stands for.
    pub(crate) fn name(&self, alloc: Global, number: u32) -> Result<Name, Refused<BadLine>>
        ensures { Gives result (name_at number self.now) }
    {
        or_fault(Name::read_word(alloc, self.bytes), BadLine::Word(number))
    }
}

/// A place: the realm and the name of an identity, the third and the fourth word.
pub(crate) fn read_place(
    alloc: Global,
    realm: Word,
    name: Word,
) -> Result<(Name, Name), Refused<BadLine>>
    ensures { Gives result (place_at realm.entry name.entry) }
{
    let realm = realm.name(alloc, 3)?;
    let name = name.name(alloc, 4)?;
    Ok((realm, name))
}
