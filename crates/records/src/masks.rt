// The group masks of the outputs, by output number.
ghost use Rattle.std.specs.Prelude.{◌≡◌, true, ◌&&◌};
ghost use Rattle.fabric.specs.Meaning.{within};
ghost use Rattle.rules.specs.State.{byte_of};
ghost use Rattle.records.specs.Tables.{put_bit_within, is_other_within};

use crate::MOST_OUTPUTS;
use crate::table::Table;

// One bit of a mask for each group, that of group 8 the highest.
const MOST_GROUPS: u8 = 8;

// The mask with the bit of every group.
const EVERY_GROUP: u8 = 0xFF;

// The mask of each output.
#[derive(Clone, Copy)]
pub struct Masks {
    masks: Table<u8, MOST_OUTPUTS>,
}

// Whether a mask has a bit for the group.
fn is_group(group: u8) -> bool
    ensures { result ≡ within group 8 }
{
    (1..=MOST_GROUPS).contains(&group)
}

// Whether there is a bit for the output and the group.
fn has_bit(output: u16, group: u8) -> bool
    ensures { result ≡ (within output 256 && within group 8) }
{
    (1..=MOST_OUTPUTS).contains(&usize::from(output)) && is_group(group)
}

impl Masks {
    ghost use Rattle.records.specs.Records.{mask_at, masks_of};

    // Every bit is set.
    pub fn new() -> Masks
        ensures { masks_of result ≡ (λ o g. true) }
    {
        Masks {
            masks: Table::of(EVERY_GROUP),
        }
    }

    // The mask of an output, as its bits say. Outside 1 to 256 every bit counts as set.
    pub fn byte(&self, output: u16) -> u8
        ensures mask { result ≡ mask_at self.now output }
        ensures bits { result ≡ byte_of (masks_of self.now output) }
    {
        self.masks.get(output).unwrap_or(EVERY_GROUP)
    }

    // Outside the outputs and the groups a bit counts as set.
    pub fn bit(&self, output: u16, group: u8) -> bool
        ensures { result ≡ masks_of self.now output group }
    {
        !is_group(group) || (self.byte(output) >> (group - 1)) & 1 == 1
    }

    // Sets or clears a bit, and says whether it was another. Outside the outputs and the groups nothing is changed.
    pub fn set(&mut self, output: u16, group: u8, bit: bool) -> bool
        ensures answer { result ≡ is_other_within 256 8 (masks_of self.old) output group bit }
        ensures after { masks_of self.new ≡ put_bit_within 256 8 (masks_of self.old) output group bit }
    {
        if !has_bit(output, group) || self.bit(output, group) == bit {
            return false;
        }
        let mask = self.byte(output) ^ (1 << (group - 1));
        self.masks.set(output, mask);
        true
    }
}
