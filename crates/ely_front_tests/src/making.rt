//! What tests make of parts: where memory runs out for one, the others are let go here, since the prover looks into each drop
//! wherever it stands.

use ely_base::NoMemory;

/// What is there, with what was made beside it.
pub(crate) fn beside<A: Drop, B>(there: A, made: Result<B, NoMemory>) -> Result<(A, B), NoMemory> {
    match made {
        Ok(made) => Ok((there, made)),
        Err(NoMemory) => Err(NoMemory),
    }
}

/// The list, with what was made behind it.
pub(crate) fn behind<T: Drop>(list: Vec<T>, made: Result<T, NoMemory>) -> Result<Vec<T>, NoMemory> {
    let (mut list, made) = beside(list, made)?;
    list.push(made)?;
    Ok(list)
}

/// Puts the value in the place of the one that is there.
pub(crate) fn put<T: Drop>(place: &mut T, value: T) {
    *place = value;
}
