// Why a call was refused.
ghost use Rattle.rules.specs.Calls.{refusal_number};
ghost use Rattle.std.specs.Prelude.{◌≡◌};

// The causes, in the order in which they are looked for.
#[derive(Clone, Copy, PartialEq, Eq, Debug)]
pub enum Refusal {
    // A byte call brought a reply buffer of fewer than 64 bytes.
    ShortBuffer = 1,
    // The port is none of 1 to 3.
    NoSuchPort = 2,
    // The output is outside the count.
    NoSuchOutput = 3,
    // The input is outside the count.
    NoSuchInput = 4,
    // The keypad is locked.
    KeypadLocked = 5,
    // The output is locked.
    OutputLocked = 6,
    // The output cannot be put on the input.
    CannotBeMade = 7,
    // The number, the name or the password of a user is not allowed.
    WrongUser = 8,
}

impl Refusal {
    // The number that the cause is known by. A method: callers are told the number and need no conversion back, so From is no plainer.
    pub fn number(self) -> u8
        ensures { result ≡ refusal_number self }
    {
        self as u8
    }
}
