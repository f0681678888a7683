// Two fabrics as one: the inputs of the first, then those of the second.
ghost use Rattle.std.specs.Prelude.{◌≡◌, true};
ghost use Rattle.fabric.specs.Meaning.{most_outputs, within, answer};
ghost use Rattle.fabric.specs.Joins.{fits as both_fit, covers, new_join, selecting, first_after, second_after, selected_after};
ghost use Rattle.fabric.specs.Kinds.{is_second, side_of, chosen, join_meaning};
ghost use Rattle.fabric.specs.Laws.{InputsBehaveAsInTheirFabrics};
ghost use Rattle.fabric.specs.Soundness.{join_sound};

use crate::{Fabric, MOST_INPUTS, MOST_OUTPUTS, RouteFault, is_within};

#[derive(Clone, Copy, PartialEq, Eq, Debug)]
pub enum Side {
    First,
    Second,
}

// With more inputs than one fabric may have, it is the first alone, cut to the smaller count of outputs.
#[derive(Drop)]
pub struct Join<F, G> {
    first: F,
    second: G,
    // Which of the two is selected for output 1, 2 and so on.
    selected: [Side; MOST_OUTPUTS as usize],
}

impl<F: Fabric, G: Fabric> Join<F, G> {
    // The first fabric is selected for every output.
    #[tactic(auto, using(crate::proofs::Sides::first_selected))]
    pub fn new(first: F, second: G) -> Join<F, G>
        ensures meaning { join_meaning F.Fabric.meaning G.Fabric.meaning result ≡ new_join (F.Fabric.meaning first) (G.Fabric.meaning second) }
        ensures first { F.Fabric.meaning result.first ≡ F.Fabric.meaning first }
        ensures second { G.Fabric.meaning result.second ≡ G.Fabric.meaning second }
    {
        Join {
            first,
            second,
            selected: [Side::First; MOST_OUTPUTS as usize],
        }
    }

    // How many of the inputs are those of the first fabric; any others are those of the second.
    pub fn first_inputs(&self) -> u16
        ensures answer { result ≡ (F.Fabric.meaning self.now.first).inputs }
        ensures law { InputsBehaveAsInTheirFabrics F.Fabric.meaning G.Fabric.meaning self.now }
    {
        self.first.inputs()
    }

    // Whether the inputs of both are few enough for one fabric.
    fn fits(&self) -> bool
        ensures { result ≡ both_fit (F.Fabric.meaning self.now.first) (G.Fabric.meaning self.now.second) }
    {
        self.first.inputs() + self.second.inputs() <= MOST_INPUTS
    }

    // Whether an output and an input are inside the counts of both as one.
    fn has_pair(&self, output: u16, input: u16) -> bool
        ensures answer { result ≡ covers (F.Fabric.meaning self.now.first) (G.Fabric.meaning self.now.second) output input }
        ensures outputs { result ≡ true → within output most_outputs ≡ true }
    {
        is_within(output, self.outputs()) && is_within(input, self.inputs())
    }

    // The fabric that has an input.
    fn side_of(&self, input: u16) -> Side
        ensures { result ≡ side_of (F.Fabric.meaning self.now.first) input }
    {
        if input <= self.first.inputs() {
            Side::First
        } else {
            Side::Second
        }
    }

    // Routes in the fabric that has the input, and selects it for the output if it accepts. The other fabric stays as it is.
    // Apart from the trait's `route`: one function is no plainer, since the trait's promise cannot speak of the two fabrics.
    pub fn route_in_part(&mut self, output: u16, input: u16) -> Result<(), RouteFault>
        ensures answer { result ≡ answer (join_meaning F.Fabric.meaning G.Fabric.meaning self.old) output input }
        ensures first { F.Fabric.meaning self.new.first ≡ first_after (F.Fabric.meaning self.old.first) (G.Fabric.meaning self.old.second) output input }
        ensures second { G.Fabric.meaning self.new.second ≡ second_after (F.Fabric.meaning self.old.first) (G.Fabric.meaning self.old.second) output input }
        ensures selected { chosen self.new.selected ≡ selected_after (F.Fabric.meaning self.old.first) (G.Fabric.meaning self.old.second) (chosen self.old.selected) output input }
    {
        if !self.has_pair(output, input) {
            return Err(RouteFault::OutOfRange);
        }
        let side = self.side_of(input);
        self.route_below(output, input)?;
        self.select(output, side);
        Ok(())
    }

    // The same without selecting. The match of `can_make` again: one function is no plainer, since one changes a part and the other asks it.
    fn route_below(&mut self, output: u16, input: u16) -> Result<(), RouteFault>
        requires { covers (F.Fabric.meaning self.old.first) (G.Fabric.meaning self.old.second) output input ≡ true }
        ensures answer { result ≡ answer (join_meaning F.Fabric.meaning G.Fabric.meaning self.old) output input }
        ensures first { F.Fabric.meaning self.new.first ≡ first_after (F.Fabric.meaning self.old.first) (G.Fabric.meaning self.old.second) output input }
        ensures second { G.Fabric.meaning self.new.second ≡ second_after (F.Fabric.meaning self.old.first) (G.Fabric.meaning self.old.second) output input }
        ensures selected { self.new.selected ≡ self.old.selected }
    {
        match self.side_of(input) {
            Side::First => self.first.route(output, input),
            Side::Second => self.second.route(output, input - self.first.inputs()),
        }
    }

    fn select(&mut self, output: u16, side: Side)
        requires { within output most_outputs ≡ true }
        ensures first { self.new.first ≡ self.old.first }
        ensures second { self.new.second ≡ self.old.second }
        ensures selected { chosen self.new.selected ≡ selecting (chosen self.old.selected) output (is_second side) }
    {
        self.selected[output as usize - 1] = side;
    }
}

impl<F: Fabric, G: Fabric> Fabric for Join<F, G> {
    ghost meaning = { join_meaning F.Fabric.meaning G.Fabric.meaning };

    ghost sound = { λ x.
        join_sound (F.Fabric.meaning x.first) (G.Fabric.meaning x.second) (chosen x.selected)
        (F.Fabric.sound x.first) (G.Fabric.sound x.second) };

    fn inputs(&self) -> u16 {
        let first = self.first.inputs();
        if self.fits() {
            first + self.second.inputs()
        } else {
            first
        }
    }

    fn outputs(&self) -> u16 {
        self.first.outputs().min(self.second.outputs())
    }

    fn feeding(&self, output: u16) -> u16 {
        if !is_within(output, self.outputs()) {
            return 0;
        }
        let side = self.selected[output as usize - 1];
        match side {
            Side::Second if self.fits() => self.first.inputs() + self.second.feeding(output),
            _ => self.first.feeding(output),
        }
    }

    fn can_make(&self, output: u16, input: u16) -> bool {
        if !self.has_pair(output, input) {
            return false;
        }
        match self.side_of(input) {
            Side::First => self.first.can_make(output, input),
            Side::Second => self.second.can_make(output, input - self.first.inputs()),
        }
    }

    fn route(&mut self, output: u16, input: u16) -> Result<(), RouteFault> {
        self.route_in_part(output, input)
    }
}
