//! The parts of a text between the bytes of one value, one after another.

ghost use Rattle.std.specs.Prelude.{◌≡◌, ◌==◌, [], ◌∷◌, length, MatchOption};
ghost use Rattle.ely_base.specs.Parts.{parts_at};

use crate::part::Part;
use ely_base::cut_at;
use std::marker::Model;

/// The parts of a text that are still to come, seen as their list.
#[derive(Debug, Drop)]
pub struct Parts<'a> {
    mark: u8,
    rest: Option<&'a [u8]>,
}

impl<'a> Model for Parts<'a> {
    ghost use Rattle.std.specs.Prelude.{ℕ, List};
    ghost use Rattle.std.specs.Option.{option_copied};
    ghost use Rattle.ely_base.specs.Parts.{parts_left};

    ghost Value = { List (List ℕ) };

    ghost view = { λ p. parts_left p.mark (option_copied p.rest) };
}

impl<'a> Parts<'a> {
    /// The parts of a text between its bytes of that value.
    pub fn of(text: &'a [u8], mark: u8) -> Parts<'a>
        ensures { result ≡ parts_at mark text.now }
    {
        Parts {
            mark,
            rest: Some(text),
        }
    }

    /// Whether no part is to come.
    pub fn is_empty(&self) -> bool
        ensures { result ≡ (length self.now == 0) }
    {
        self.rest.is_none()
    }

    /// The next part, unless there is none.
    pub fn next(&mut self) -> Option<Part<'a>>
        ensures { MatchOption result (self.old ≡ []) (λ part. self.old ≡ part ∷ self.new) }
    {
        let Some(rest) = self.rest else {
            return None;
        };
        let (part, after) = cut_at(rest, self.mark);
        self.rest = after;
        Some(Part::of(part))
    }
}
