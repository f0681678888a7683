// How many inputs and outputs a fabric has: at least one of each, and no more than its kind may have.
ghost use Rattle.std.specs.Prelude.{◌≡◌, ◌≤◌, ◌&&◌};
ghost use Rattle.fabric.specs.Meaning.{within};
ghost use Rattle.fabric.specs.Cards.{nearest};

use crate::is_within;

#[derive(Clone, Copy, PartialEq, Eq, Debug)]
pub(crate) struct Size<const MOST_INPUTS: u16, const MOST_OUTPUTS: u16> {
    pub(crate) inputs: u16,
    pub(crate) outputs: u16,
    ghost some_inputs: { 1 ≤ inputs },
    ghost few_inputs: { inputs ≤ MOST_INPUTS },
    ghost some_outputs: { 1 ≤ outputs },
    ghost few_outputs: { outputs ≤ MOST_OUTPUTS },
}

impl<const MOST_INPUTS: u16, const MOST_OUTPUTS: u16> Size<MOST_INPUTS, MOST_OUTPUTS> {
    // A count outside the limits is taken as the nearest limit.
    pub(crate) fn nearest(inputs: u16, outputs: u16) -> Self
        requires inputs { 1 ≤ MOST_INPUTS }
        requires outputs { 1 ≤ MOST_OUTPUTS }
        ensures inputs { result.inputs ≡ nearest inputs MOST_INPUTS }
        ensures outputs { result.outputs ≡ nearest outputs MOST_OUTPUTS }
    {
        Size {
            inputs: inputs.clamp(1, MOST_INPUTS),
            outputs: outputs.clamp(1, MOST_OUTPUTS),
        }
    }

    pub(crate) fn has_output(&self, output: u16) -> bool
        ensures { result ≡ within output self.now.outputs }
    {
        is_within(output, self.outputs)
    }

    pub(crate) fn has_pair(&self, output: u16, input: u16) -> bool
        ensures { result ≡ (within output self.now.outputs && within input self.now.inputs) }
    {
        self.has_output(output) && is_within(input, self.inputs)
    }
}
