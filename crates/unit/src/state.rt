// What a unit keeps.
use records::locks::Locks;
use records::masks::Masks;
use records::record::PortRecord;
use records::users::Users;
use replies::text::ShortText;
use rules::port::PerPort;

// A unit in service over a fabric. The table of its port records is a plain struct, of which one record at a time is lent.
// No Model: its Value would be the rules' State, which holds functions (locks, masks, the fabric's meaning), and a model's value has to be data.
// Every call answers with the length of its reply, 0 for none: the interface of the calls fixes one number.
#[derive(Drop)]
pub struct Unit<F> {
    pub(crate) fabric: F,
    pub(crate) address: u8,
    // Access control is on.
    pub(crate) access: bool,
    pub(crate) locks: Locks,
    pub(crate) masks: Masks,
    pub(crate) keypad_locked: bool,
    pub(crate) ethernet_locked: bool,
    pub(crate) password: ShortText,
    pub(crate) users: Users,
    pub(crate) ports: PerPort<PortRecord>,
}
