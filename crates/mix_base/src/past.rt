// What has happened to an object, as a list that only contracts read. It takes no bytes, and its calls do
// nothing at run time. `push` adds an entry behind the others.
ghost use Rattle.std.specs.Prelude.{◌≡◌, List, [], ◌∷◌, ◌++◌};
ghost use Rattle.std.specs.Borrow.{ftrue};

use std::marker::{Model, PhantomData};

/// A list of past values that contracts read as `items`, oldest first. It is empty of data: nothing of the
/// values is kept, so it may hold what can't be copied and grow where no memory may be taken.
pub struct History<T> {
    of: PhantomData<T>,
    pub ghost items: { List T },
}

impl<T> Model for History<T> {
    ghost also_owns = { λ _. ftrue };
}

// It owns nothing, so any thread may have it or look at it.
unsafe impl<T> Send for History<T> {}

unsafe impl<T> Sync for History<T> {}

impl<T> History<T> {
    /// The history of an object to which nothing has happened.
    pub fn new() -> History<T>
        ensures { result.items ≡ [] }
    {
        History { of: PhantomData }
    }

    /// Adds an entry behind the others.
    pub fn push(&mut self, entry: &T)
        ensures { self.new.items ≡ self.old.items ++ entry.now ∷ [] }
    {
        *self = self.with(entry);
    }

    fn with(&self, entry: &T) -> History<T>
        ensures { result.items ≡ self.now.items ++ entry.now ∷ [] }
    {
        let _ = entry;
        History { of: PhantomData }
    }
}

impl<T> Drop for History<T> {
    fn drop(self) {
        let History { of: _ } = self;
    }
}

#[cfg(test)]
mod tests {
    use super::*;
    use std::mem::size_of;
    use std::test::Fail;

    #[test]
    fn a_history_takes_no_bytes(rt: HostRuntime) -> Result<(), Fail> {
        let mut picks = History::new();
        picks.push(&3u64);
        picks.push(&4u64);
        assert_eq!(rt; size_of::<History<u64>>(), 0);
        Ok(())
    }
}
