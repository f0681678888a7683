// The three ports, and one value for each of them.
ghost use Rattle.rules.specs.PerPort.{port_of, number_of, at, set_at};
ghost use Rattle.rules.specs.contracts.port.PerPort.{the_row};
ghost use Rattle.rules.specs.declared.refusal.Refusal.TheVariants.{NoSuchPort};
ghost use Rattle.std.specs.Borrow.{follows, sem};
ghost use Rattle.std.specs.Prelude.{◌≡◌, ok_or};

use crate::refusal::Refusal;

// Ports 1 and 3 are serial, port 2 is Ethernet.
#[derive(Clone, Copy, PartialEq, Eq, Debug)]
pub enum Port {
    One = 1,
    Two = 2,
    Three = 3,
}

// The port that a number names: 1, 2 and 3 name one.
impl TryFrom<u8> for Port {
    type Error = Refusal;

    ghost try_from_gives = { λ number r. r ≡ ok_or (port_of number) NoSuchPort };

    fn try_from(number: u8) -> Result<Port, Refusal> {
        match number {
            1 => Ok(Port::One),
            2 => Ok(Port::Two),
            3 => Ok(Port::Three),
            _ => Err(Refusal::NoSuchPort),
        }
    }
}

// The number of the port.
impl From<Port> for u8 {
    ghost from_gives = { λ port number. number ≡ number_of port };

    fn from(port: Port) -> u8 {
        port as u8
    }
}

// One value for each port. Three fields and no array, which would be no plainer: a name needs no index, and each value is lent by itself.
#[derive(Drop)]
pub struct PerPort<R> {
    pub one: R,
    pub two: R,
    pub three: R,
}

impl<R> PerPort<R> {
    // The value at a port, lent to be changed in place.
    pub fn of(&mut self, port: Port) -> &mut R
        ensures* follows { sem 𝓛 (follows (the_row R.row) R.row self.entry.ghost_name result.ghost_name (set_at self.old port)) }
        ensures value { result.now ≡ at self.old port }
    {
        match port {
            Port::One => &mut self.one,
            Port::Two => &mut self.two,
            Port::Three => &mut self.three,
        }
    }

    // The value at a port, to be read. Beside `of`: one is lent to be changed and one to be read, which one function cannot do.
    pub fn at(&self, port: Port) -> &R
        ensures { result.now ≡ at self.now port }
    {
        match port {
            Port::One => &self.one,
            Port::Two => &self.two,
            Port::Three => &self.three,
        }
    }
}
