//! Allocations that are made for their number alone.
use std::alloc::{AllocError, Global};

/// Makes so many allocations, and gives them back.
pub fn spend(alloc: Global, count: usize) -> Result<(), AllocError> {
    if count == 0 {
        return Ok(());
    }
    let mut held: Vec<Vec<u8>> = Vec::with_capacity(alloc, count)?;
    for _ in 1..count {
        held.push(Vec::with_capacity(alloc, 1)?)?;
    }
    Ok(())
}

/// How many allocations are made before one is refused, of so many at most.
pub fn made_of(alloc: Global, most: usize) -> usize {
    if most == 0 {
        return 0;
    }
    let Ok(mut held): Result<Vec<Vec<u8>>, AllocError> = Vec::with_capacity(alloc, most) else {
        return 0;
    };
    for made in 1..most {
        let Ok(one) = Vec::with_capacity(alloc, 1) else {
            return made;
        };
        if held.push(one).is_err() {
            return made;
        }
    }
    most
}
