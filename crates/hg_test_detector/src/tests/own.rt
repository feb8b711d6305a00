/// A value that owns much. It has a `drop` of its own, so that a test lets it go by one call at each of its ends.
pub struct Own<T: Drop> {
    pub it: T,
}

impl<T: Drop> Drop for Own<T> {
    fn drop(self) {
        let Own { it } = self;
        drop(it);
    }
}
