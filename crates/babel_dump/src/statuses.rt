//! The statuses of what is asked, each 0 or 1.
ghost use Rattle.std.specs.Prelude.{◌≡◌, ◌∷◌, [], IfOk};
ghost use Rattle.babel_dump.specs.RunText.{status_of_all};
ghost use Rattle.babel_dump.specs.ToldSenders.{lesser};

use std::alloc::{AllocError, Global};

/// That of one thing that is asked.
pub(crate) fn one_status(alloc: Global, status: u8) -> Result<Vec<u8>, AllocError>
    ensures { IfOk result (λ statuses. statuses.items ≡ status ∷ []) }
{
    let mut statuses = Vec::new(alloc);
    statuses.push(status)?;
    Ok(statuses)
}

/// 0 where none of these is 1.
pub(crate) fn status_of_all(statuses: &[u8]) -> u8
    ensures { result ≡ status_of_all statuses.now }
{
    let mut of_all = 0;
    for status in statuses {
        if *status == 1 {
            of_all = 1;
        }
    }
    of_all
}

/// The lesser of two of each thing that is asked.
pub(crate) fn lesser(alloc: Global, before: &[u8], statuses: &[u8]) -> Result<Vec<u8>, AllocError>
    ensures { IfOk result (λ least. least.items ≡ lesser before.now statuses.now) }
{
    before
        .iter()
        .zip(statuses)
        .map(|two| (*two.0).min(*two.1))
        .collect(alloc)
}
