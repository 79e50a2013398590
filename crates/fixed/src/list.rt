ghost use Rattle.std.specs.Prelude.{◌≡◌, min, length, take};
ghost use Rattle.fixed.specs.Lists.{filled, list_of};

// A list of at most N elements: the first `count` places of a table. Where a list is made here, blanks stand behind it.
// A count beyond the table stands for all of it. A table of its own, since sheets and records are copied and ArrayVec is not.
#[derive(Clone, Copy)]
pub struct FixedList<T, const N: usize> {
    pub count: u64,
    pub places: [T; N],
}

impl<T: Copy, const N: usize> FixedList<T, N> {
    // The first N elements of a list.
    pub fn of(blank: T, list: &[T]) -> FixedList<T, N>
        ensures { result ≡ filled N blank (take N list.now) }
    {
        let kept = &list[..N.min(list.len())];
        let mut places = [blank; N];
        places[..kept.len()].copy_from_slice(kept);
        FixedList {
            count: kept.len() as u64,
            places,
        }
    }

    // The elements.
    pub fn as_slice(&self) -> &[T]
        ensures elements { result.now ≡ list_of self.now }
        ensures counted { length result.now ≡ min self.now.count N }
    {
        &self.places[..N.min(self.count as usize)]
    }
}
