//! The law of when a store is full. The function does nothing.
ghost use Rattle.kr_history.specs.SizeLaws.{FullIsExact};

/// An event that would write a row is answered that the store is full exactly where the file with
/// that row passes the limit, and then with the file's size; want of memory aside.
pub fn full_is_exact()
    ensures { FullIsExact }
{}
