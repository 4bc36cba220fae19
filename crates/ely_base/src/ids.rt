//! The numbers that name a login, an open and a state of the journal. Contracts see each as its number.

ghost use Rattle.std.specs.Prelude.{ℕ};

use std::marker::Model;

/// The number by which script lines name a login.
#[derive(Clone, Copy, Debug, PartialEq, Eq, PartialOrd, Ord)]
pub struct CtxId(pub u32);

impl Model for CtxId {
    ghost Value = { ℕ };

    ghost view = { λ id. id.0 };

    ghost inverse = { λ n. record { 0 = n } };
}

/// Which accepted open a login comes from, counted from 1.
#[derive(Clone, Copy, Debug, PartialEq, Eq)]
pub struct Serial(pub u64);

impl Model for Serial {
    ghost Value = { ℕ };

    ghost view = { λ serial. serial.0 };

    ghost inverse = { λ n. record { 0 = n } };
}

/// How many edits the journal holds.
#[derive(Clone, Copy, Debug, PartialEq, Eq)]
pub struct Version(pub u64);

impl Model for Version {
    ghost Value = { ℕ };

    ghost view = { λ version. version.0 };

    ghost inverse = { λ n. record { 0 = n } };
}
