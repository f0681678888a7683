// A row of relays: those of one output.
ghost use Rattle.std.specs.Prelude.{◌≡◌, ◌-◌, ◌^◌, true};
ghost use Rattle.fabric.specs.Meaning.{within};
ghost use Rattle.fabric.specs.Banks.{most_relays, OneClosed, closed};

// The relay of input j is bit j - 1, which is set in `closed` where it is closed, and in `bad` where it is marked bad.
#[derive(Clone, Copy, PartialEq, Eq, Debug)]
pub struct RelayRow {
    pub(super) closed: u16,
    pub(super) bad: u16,
}

// The row in which only the relay of `input` is set.
pub(super) fn relay(input: u16) -> u16
    requires { within input most_relays ≡ true }
    ensures answer { result ≡ 2 ^ (input - 1) }
    ensures law { (closed result ≡ input) × (OneClosed input result) }
{
    1 << (input - 1)
}
