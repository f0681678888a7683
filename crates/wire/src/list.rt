// Lists that keep the first elements put into them, in order, and mark an overrun when one more comes.
// The places stand in the memory of whoever holds the list, for every type of element and every number of places.
ghost use Rattle.std.specs.Prelude.{◌≡◌, ◌≤◌, ⊤, length};
ghost use Rattle.wire.specs.Kept.{empty, put, front, firsts, placed, counted, placed_all, counted_all, KeepsTheFirst};

use std::alloc::AllocError;

// The first N elements, in order, and whether one more came. A mark and no `Result`: the elements are kept with it and without it.
// An array and no `Vec`, since the unit allocates nothing; and no `ArrayVec`, which is not `Copy`.
// A ghost field, no `impl Model`: a model of a `Copy` type has to give back all fields (`inverse`), unused places too, which is no plainer.
// The mark stands before the count: behind a few bytes it then takes no word of its own.
#[derive(Copy)]
pub struct KeptList<T, const N: usize> {
    cells: [T; N],
    overrun: bool,
    used: usize,
    ghost within: { used ≤ N },
}

// Written by hand: tried, and `Clone` is not derived for a generic type with a ghost field.
impl<T: Copy, const N: usize> Clone for KeptList<T, N> {
    ghost is_clone = { λ a b. b ≡ a };

    ghost is_infallible = { λ _. ⊤ };

    fn clone(&self) -> Result<Self, AllocError> {
        Ok(*self)
    }
}

// An empty list.
impl<T: Copy + Default, const N: usize> Default for KeptList<T, N> {
    ghost use Rattle.wire.specs.Lists.{kept};

    ghost is_default = { λ l. kept l ≡ empty };

    fn default() -> Self {
        KeptList::new()
    }
}

impl<T: Copy + Default, const N: usize> KeptList<T, N> {
    ghost use Rattle.wire.specs.Lists.{kept};

    pub fn new() -> Self
        ensures { kept result ≡ empty }
    {
        KeptList {
            cells: Default::default(),
            used: 0,
            overrun: false,
        }
    }

    // The first N of `items`, marked if there are more.
    // No `From`, which would lose the elements beyond N without a word.
    pub fn of(items: &[T]) -> Self
        ensures { kept result ≡ firsts N items.now }
    {
        let mut cells: [T; N] = Default::default();
        let (used, overrun) = keep_all(&mut cells, items);
        KeptList {
            cells,
            used,
            overrun,
        }
    }
}

impl<T: Copy, const N: usize> KeptList<T, N> {
    ghost use Rattle.wire.specs.Lists.{kept};

    pub fn put(&mut self, x: T)
        ensures { kept self.new ≡ put N (kept self.old) x }
    {
        (self.used, self.overrun) = keep(&mut self.cells, self.used, self.overrun, x);
    }

    pub fn clear(&mut self)
        ensures { kept self.new ≡ empty }
    {
        self.used = 0;
        self.overrun = false;
    }

    // The elements that are kept, in order.
    pub fn as_slice(&self) -> &[T]
        ensures value { result.now ≡ (kept self.now).items }
        ensures few { length result.now ≤ N }
    {
        &self.cells[..self.used]
    }

    // Whether more elements came than are kept.
    pub fn is_overrun(&self) -> bool
        ensures { result ≡ (kept self.now).overrun }
    {
        self.overrun
    }
}

// Puts `x` behind the first `used` places, if there is room; else marks an overrun.
// Returns how many places are used then, and the mark.
// A function over a slice, and no method of a list: docs/DECISIONS.md fixes this form.
pub fn keep<T: Drop>(places: &mut [T], used: usize, overrun: bool, x: T) -> (usize, bool)
    ensures answer { result ≡ counted places.old used overrun }
    ensures after { places.new ≡ placed places.old used x }
    ensures kept { front places.new result.0 result.1 ≡ put (length places.old) (front places.old used overrun) x }
{
    if used < places.len() {
        places[used] = x;
        (used + 1, overrun)
    } else {
        (used, true)
    }
}

// Keeps as many of `xs` as there are places, from the first place on.
// Returns how many are kept, and whether one more came.
pub fn keep_all<T: Copy>(places: &mut [T], xs: &[T]) -> (usize, bool)
    ensures answer { result ≡ counted_all places.old xs.now }
    ensures after { places.new ≡ placed_all places.old xs.now }
    ensures kept { front places.new result.0 result.1 ≡ firsts (length places.old) xs.now }
{
    let mut used = 0;
    let mut overrun = false;
    for x in xs {
        (used, overrun) = keep(places, used, overrun, *x);
    }
    (used, overrun)
}

// The law of such lists, for every type of element.
pub fn keeps_the_first<T>()
    ensures { KeepsTheFirst T }
{}
