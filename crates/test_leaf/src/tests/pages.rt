//! A pool of two pages: each call with ample memory, and the refusal where no page is free.

use kr_pages::Pages;
use std::test::Fail;

/// Whether two pages of a pool of two are taken, a third is refused, the two are written and given
/// back, and one of them is zero where it is taken again.
fn are_taken_and_given_back(pool: &mut Pages) -> bool {
    let Ok(first) = pool.take() else {
        return false;
    };
    let Ok(second) = pool.take() else {
        pool.give(first);
        return false;
    };
    if let Ok(third) = pool.take() {
        pool.give(first);
        pool.give(second);
        pool.give(third);
        return false;
    }
    let taken = pool.free() == 0 && pool.taken_count() == 2;

    pool.words_mut(&first)[59] = 7;
    let written = pool.words(&first)[59] == 7 && *pool.words(&second) == [0; 60];

    pool.give(first);
    let given = pool.free() == 1 && pool.taken_count() == 1;
    let Ok(third) = pool.take() else {
        pool.give(second);
        return false;
    };
    let zeroed = *pool.words(&third) == [0; 60];
    pool.give(second);
    pool.give(third);
    taken && written && given && zeroed && pool.taken_count() == 0
}

#[test]
fn pages_are_taken_and_given_back(rt: HostRuntime) -> Result<(), Fail> {
    let mut pool = Pages::new(rt.alloc(), 2)?;
    let is = are_taken_and_given_back(&mut pool);
    drop(pool);
    assert!(rt; is);
    Ok(())
}
