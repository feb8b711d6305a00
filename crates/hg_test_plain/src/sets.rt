//! Sets of numbers.

ghost use Rattle.std.specs.Prelude.{◌≡◌, IfOk};
ghost use Rattle.hg_model.specs.Sets as sets;

use std::alloc::{AllocError, Global};

/// The set with this number added, if it is absent.
pub fn with_member(alloc: Global, set: &[u16], number: u16) -> Result<Vec<u16>, AllocError>
    ensures { IfOk result (λ v. v.items ≡ sets.with_member set.now number) }
{
    let Some((first, others)) = set.split_first() else {
        let mut one = Vec::new(alloc);
        one.push(number)?;
        return Ok(one);
    };
    if number < *first {
        let mut more = set.to_vec(alloc)?;
        more.insert(0, number)?;
        return Ok(more);
    }
    if number == *first {
        return Ok(set.to_vec(alloc)?);
    }
    let mut more = with_member(alloc, others, number)?;
    more.insert(0, *first)?;
    Ok(more)
}

pub fn contains(set: &[u16], number: u16) -> bool
    ensures { result ≡ sets.contains set.now number }
{
    set.iter().any(|x| *x == number)
}
