//! How the answers of rows are taken together.

ghost use Rattle.std.specs.Prelude.{◌≡◌, List, ◌∷◌, Bool};
ghost use Rattle.ely_perm.specs.Modes.{decided};

/// How the answers of the rows that match, in their order, are taken together. Without such a row nothing is granted.
#[derive(Clone, Copy, Debug, PartialEq, Eq)]
pub enum Mode {
    /// The first row grants.
    First,
    /// All rows grant.
    And,
    /// At least one row grants.
    Or,
    /// An odd number of rows grants.
    Xor,
    /// The first row grants and none of the others.
    Unless,
}

impl Mode {
    /// The one answer that stands for two, the first before the second, whichever answers follow.
    pub(crate) fn taken(self, first: bool, second: bool) -> bool
        ensures { (others : List Bool)
            → decided self (result ∷ others) ≡ decided self (first ∷ second ∷ others) }
    {
        match self {
            Mode::First => first,
            Mode::And => first && second,
            Mode::Or => first || second,
            Mode::Xor => first != second,
            Mode::Unless => first && !second,
        }
    }
}
