// The calls of a unit as values.
use rules::refusal::Refusal;

// A call with its arguments. A byte call brings the buffer for its reply.
#[derive(Drop)]
pub enum Call {
    Byte {
        port: u8,
        byte: u8,
        reply: Vec<u8>,
    },
    Gap {
        port: u8,
    },
    HangUp {
        port: u8,
    },
    PanelSet {
        output: u16,
        input: u16,
    },
    PanelLock {
        output: u16,
        input: u16,
    },
    PanelUnlock {
        output: u16,
        input: u16,
    },
    EnterUser {
        number: u8,
        name: Vec<u8>,
        password: Vec<u8>,
    },
}

// A call of a list, and its answer once it was made.
#[derive(Drop)]
pub struct ListedCall {
    pub call: Call,
    pub answer: Option<Result<usize, Refusal>>,
}
