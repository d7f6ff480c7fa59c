//! Values of which several are wanted, or none. What isn't used is dropped as a value of some type,
//! which costs a proof less than by its fields, and there is no exit between them.
ghost use Rattle.std.specs.Prelude.{◌≡◌, ◌⊎◌, Ok, Err, IsOk, IfOk, IfErr};

/// Both values, or why one isn't there: the first reason, where there are two.
pub fn both<A: Drop, B: Drop, E: Drop>(
    first: Result<A, E>,
    second: Result<B, E>,
) -> Result<(A, B), E>
    ensures both { IfOk result (λ pair. (first ≡ Ok pair.0) × (second ≡ Ok pair.1)) }
    ensures refused { IfErr result
        (λ why. (first ≡ Err why) ⊎ (IsOk first × (second ≡ Err why))) }
{
    match first {
        Ok(first) => match second {
            Ok(second) => Ok((first, second)),
            Err(why) => {
                drop(first);
                Err(why)
            }
        },
        Err(why) => {
            drop(second);
            Err(why)
        }
    }
}

/// What was made, if all went well that was done with it.
pub fn whole<T: Drop, E>(made: T, done: Result<(), E>) -> Result<T, E>
    ensures whole { IfOk result (λ value. (value ≡ made) × IsOk done) }
    ensures refused { IfErr result (λ why. done ≡ Err why) }
{
    match done {
        Ok(()) => Ok(made),
        Err(why) => {
            drop(made);
            Err(why)
        }
    }
}
