// A page as the one above sees it.

/// A page by its place, counted from 0 without the page of the locks, and the last rowid under it.
#[derive(Clone, Copy)]
pub struct Child {
    pub place: u64,
    pub last: u64,
}
