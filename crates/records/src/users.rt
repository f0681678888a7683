// The users that may log in, by number.
ghost use Rattle.std.specs.Prelude.{◌≡◌, true, []};
ghost use Rattle.rules.specs.Commands.{is_user, user_with};
ghost use Rattle.records.specs.UserNumbers.{is_user_number};
ghost use Rattle.records.specs.Tables.{put_within};

use crate::MOST_USERS;
use crate::table::Table;
use replies::text::ShortText;

// The places of a table of all users.
const PLACES: usize = MOST_USERS as usize;

#[derive(Clone, Copy)]
pub struct User {
    pub name: ShortText,
    pub password: ShortText,
}

// A user without a name and a password.
impl Default for User {
    ghost use Rattle.records.specs.Records.{user_of};

    ghost is_default = { λ user. user_of user ≡ record { name = []; password = [] } };

    fn default() -> User {
        User {
            name: ShortText::default(),
            password: ShortText::default(),
        }
    }
}

#[derive(Clone, Copy)]
pub struct Users {
    users: Table<User, PLACES>,
}

impl Users {
    ghost use Rattle.records.specs.Records.{user_of, users_of};

    // No user has a name or a password.
    pub fn new() -> Users
        ensures { users_of result ≡ (λ u. record { name = []; password = [] }) }
    {
        Users {
            users: Table::of(User::default()),
        }
    }

    // Outside 1 to 8 a user has no name and no password.
    pub fn get(&self, number: u8) -> User
        ensures { user_of result ≡ users_of self.now number }
    {
        self.users.get(u16::from(number)).unwrap_or_default()
    }

    // Outside 1 to 8 nothing is changed.
    pub fn enter(&mut self, number: u8, user: User)
        ensures { users_of self.new ≡ put_within 8 (users_of self.old) number (user_of user) }
    {
        self.users.set(u16::from(number), user);
    }

    // Whether the user has this name and password.
    // Name and password stay two slices: the calls bring two, and a struct of slices would be made only to be taken apart.
    fn is_user(&self, number: u8, name: &[u8], password: &[u8]) -> bool
        ensures { result ≡ is_user (users_of self.now) name.now password.now number }
    {
        let user = self.get(number);
        name == user.name.as_slice() && password == user.password.as_slice()
    }

    // The smallest user with this name and password.
    // No type for user numbers, which would be no plainer: lines and panel bring any byte, and only two results keep the fact.
    pub fn find(&self, name: &[u8], password: &[u8]) -> Option<u8>
        ensures answer { result ≡ user_with (users_of self.now) name.now password.now }
        ensures user { is_user_number result ≡ true }
    {
        (1..=MOST_USERS).find(|&number| self.is_user(number, name, password))
    }
}
