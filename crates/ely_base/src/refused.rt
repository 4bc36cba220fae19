//! Answers of calls that take memory: want of it is apart from every fault of the input.

ghost use Rattle.std.specs.Prelude.{◌≡◌, IfErr};
ghost use Rattle.ely_base.specs.Refused.{IsAnswerAs, answer_as, without_fault, IsWithoutFault};
ghost use Rattle.ely_base.specs.declared.refused.Refused.TheVariants.{NoMemory as OutOfMemory};

use std::alloc::{AllocError, AllocFailed};

/// Memory ran out.
#[derive(Clone, Copy, Debug, PartialEq, Eq)]
pub struct NoMemory;

/// Why a call that takes memory gave no value: a fault of its own, or memory ran out.
#[derive(Clone, Copy, Debug, PartialEq, Eq)]
pub enum Refused<F> {
    /// The call's own fault.
    Fault(F),
    /// Memory ran out.
    NoMemory,
}

impl From<AllocError> for NoMemory {
    fn from(_error: AllocError) -> NoMemory {
        NoMemory
    }
}

impl<T: Drop> From<AllocFailed<T>> for NoMemory {
    fn from(_error: AllocFailed<T>) -> NoMemory {
        NoMemory
    }
}

impl<F> From<AllocError> for Refused<F> {
    ghost from_gives = { λ _ e. e ≡ OutOfMemory };

    fn from(_error: AllocError) -> Refused<F> {
        Refused::NoMemory
    }
}

impl<F, T: Drop> From<AllocFailed<T>> for Refused<F> {
    ghost from_gives = { λ _ e. e ≡ OutOfMemory };

    fn from(_error: AllocFailed<T>) -> Refused<F> {
        Refused::NoMemory
    }
}

impl<F> From<NoMemory> for Refused<F> {
    ghost from_gives = { λ _ e. e ≡ OutOfMemory };

    fn from(_error: NoMemory) -> Refused<F> {
        Refused::NoMemory
    }
}

/// The same answer, with a fault as one of another kind.
pub fn refused_as<T, F, G, K: FnOnce(F) -> G + Drop>(
    answer: Result<T, Refused<F>>,
    kind: K,
) -> Result<T, Refused<G>>
    requires { K.IsAlwaysCallable kind }
    ensures { IsAnswerAs (K.post kind) answer result }
{
    match answer {
        Ok(value) => Ok(value),
        Err(Refused::Fault(fault)) => Err(Refused::Fault(kind(fault))),
        Err(Refused::NoMemory) => Err(Refused::NoMemory),
    }
}

/// The same answer, with this fault in place of any other.
pub fn or_fault<T, F: Drop, G: Drop>(
    answer: Result<T, Refused<F>>,
    fault: G,
) -> Result<T, Refused<G>>
    ensures { result ≡ answer_as (λ _. fault) answer }
{
    match answer {
        Ok(value) => Ok(value),
        Err(Refused::Fault(_)) => Err(Refused::Fault(fault)),
        Err(Refused::NoMemory) => Err(Refused::NoMemory),
    }
}

/// The same answer of a call that finds no fault.
pub fn or_no_memory<T, F: Drop>(answer: Result<T, Refused<F>>) -> Result<T, NoMemory>
    requires { IsWithoutFault answer }
    ensures { result ≡ without_fault answer }
{
    match answer {
        Ok(value) => Ok(value),
        Err(_) => Err(NoMemory),
    }
}
