//! The values of the known names, as they are given in a header.

ghost use Rattle.std.specs.Prelude.{◌≡◌, ◌<◌};
ghost use Rattle.std.specs.Option.{is_some};
ghost use Rattle.ely_digest_msg.specs.Fields.{index_of, first_named, known, given, with_value, nothing};

use crate::fault::DigestField;
use crate::parts::same_word;
use crate::quoted::Quoted;
use std::marker::Model;

/// The value of each field that was given, seen as the list of them.
#[derive(Debug, Drop)]
pub(crate) struct Table<'a> {
    raws: [Option<&'a [u8]>; 11],
}

impl<'a> Model for Table<'a> {
    ghost use Rattle.std.specs.Prelude.{◌≡◌, length};
    ghost use Rattle.ely_digest_msg.specs.Fields.{Values, values_of};

    ghost Value = { Values };

    ghost view = { λ t. values_of t.raws };

    ghost invariant = { λ t. length t.raws ≡ 11 };
}

/// All fields.
const FIELDS: [DigestField; 11] = [
    DigestField::Username,
    DigestField::Realm,
    DigestField::Nonce,
    DigestField::Uri,
    DigestField::Response,
    DigestField::Nc,
    DigestField::Cnonce,
    DigestField::Qop,
    DigestField::Algorithm,
    DigestField::Opaque,
    DigestField::Userhash,
];

/// The index of a field among the values.
fn index_of(field: DigestField) -> usize
    ensures value { result ≡ index_of field }
    ensures small { result < 11 }
{
    match field {
        DigestField::Username => 0,
        DigestField::Realm => 1,
        DigestField::Nonce => 2,
        DigestField::Uri => 3,
        DigestField::Response => 4,
        DigestField::Nc => 5,
        DigestField::Cnonce => 6,
        DigestField::Qop => 7,
        DigestField::Algorithm => 8,
        DigestField::Opaque => 9,
        DigestField::Userhash => 10,
    }
}

/// The first of some fields that a name means, in any case.
fn first_named(name: &[u8], fields: &[DigestField]) -> Option<DigestField>
    ensures { result ≡ first_named name.now fields.now }
{
    fields
        .iter()
        .find(|field| same_word(name, field.text().as_bytes()))
        .copied()
}

/// The field that a name means, in any case.
pub(crate) fn known(name: &[u8]) -> Option<DigestField>
    ensures { result ≡ known name.now }
{
    first_named(name, &FIELDS)
}

impl<'a> Table<'a> {
    /// No field is given.
    pub(crate) fn new() -> Table<'a>
        ensures { result ≡ nothing }
    {
        Table { raws: [None; 11] }
    }

    /// The value of a field, if it was given.
    pub(crate) fn get(&self, field: DigestField) -> Option<Quoted<'a>>
        ensures { result ≡ given field self.now }
    {
        match self.raws[index_of(field)] {
            None => None,
            Some(raw) => Some(Quoted::of(raw)),
        }
    }

    /// Whether a field was given.
    pub(crate) fn has(&self, field: DigestField) -> bool
        ensures { result ≡ is_some (given field self.now) }
    {
        self.get(field).is_some()
    }

    /// With the value of a field.
    pub(crate) fn with(self, field: DigestField, value: Quoted<'a>) -> Table<'a>
        ensures { result ≡ with_value field value.entry self.entry }
    {
        let mut raws = self.raws;
        raws[index_of(field)] = Some(value.raw());
        Table { raws }
    }
}
