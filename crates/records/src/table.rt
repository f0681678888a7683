// A value for each of the numbers from 1 on.
ghost use Rattle.std.specs.Prelude.{◌≡◌, ◌-◌, cond, Some, None, ⊤};
ghost use Rattle.fabric.specs.Meaning.{within};

use std::alloc::AllocError;

// An array and no Vec: the unit allocates nothing.
#[derive(Copy)]
pub struct Table<T, const N: usize> {
    cells: [T; N],
}

// Written by hand: tried, and a derived `Clone` promises of each value only what `T`'s own does, where this one promises the same table.
impl<T: Copy, const N: usize> Clone for Table<T, N> {
    ghost is_clone = { λ x y. y ≡ x };

    ghost is_infallible = { λ _. ⊤ };

    fn clone(&self) -> Result<Table<T, N>, AllocError> {
        Ok(*self)
    }
}

impl<T: Copy, const N: usize> Table<T, N> {
    ghost use Rattle.records.specs.Tables.{value_at, put_within};

    // The value at every number from 1 to N.
    pub fn of(value: T) -> Table<T, N>
        ensures { value_at result ≡ (λ k. cond (within k N) (Some value) None) }
    {
        Table { cells: [value; N] }
    }

    // The cell of a number, if it is one of 1 to N.
    fn cell(number: u16) -> Option<usize>
        ensures { result ≡ cond (within number N) (Some (number - 1)) None }
    {
        let place = usize::from(number).checked_sub(1)?;
        (place < N).then_some(place)
    }

    // Outside 1 to N there is no value.
    pub fn get(&self, number: u16) -> Option<T>
        ensures { result ≡ value_at self.now number }
    {
        Some(self.cells[Self::cell(number)?])
    }

    // Outside 1 to N nothing is changed.
    pub fn set(&mut self, number: u16, value: T)
        ensures { value_at self.new ≡ put_within N (value_at self.old) number (Some value) }
    {
        if let Some(cell) = Self::cell(number) {
            self.cells[cell] = value;
        }
    }
}
