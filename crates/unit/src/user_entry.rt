// The entry of users.
ghost use Rattle.std.specs.Prelude.{◌≡◌, true};
ghost use Rattle.fabric.specs.Meaning.{within};
ghost use Rattle.rules.specs.Calls.{enter_user, step, next};
ghost use Rattle.rules.specs.Laws.{KeepsTheLaws};
ghost use Rattle.rules.specs.State.{with_user};
ghost use Rattle.records.specs.Records.{user_of};
ghost use Rattle.unit.specs.Units.{state_of};
ghost use Rattle.unit.specs.Calling.{plain_event};

use crate::state::Unit;
use fabric::Fabric;
use records::names::may_enter;
use records::users::User;
use replies::text::ShortText;
use rules::refusal::Refusal;

impl<F: Fabric> Unit<F> {
    // Enters a user by number, with the keypad locked or not. Logins stay.
    pub fn enter_user(&mut self, number: u8, name: &[u8], password: &[u8]) -> Result<usize, Refusal>
        ensures answer { result ≡ (step (state_of F.meaning self.old) (enter_user number name.now password.now)).answer.result }
        ensures after { state_of F.meaning self.new ≡ next (state_of F.meaning self.old) (enter_user number name.now password.now) }
        ensures law { KeepsTheLaws (state_of F.meaning self.old) (plain_event (enter_user number name.now password.now) result) (state_of F.meaning self.new) }
    {
        if !may_enter(number, name, password) {
            return Err(Refusal::WrongUser);
        }
        let user = User {
            name: ShortText::try_from(name).unwrap(),
            password: ShortText::try_from(password).unwrap(),
        };
        self.put_user(number, user);
        Ok(0)
    }

    fn put_user(&mut self, number: u8, user: User)
        requires { within number 8 ≡ true }
        ensures { state_of F.meaning self.new ≡ with_user number (user_of user) (state_of F.meaning self.old) }
    {
        self.users.enter(number, user);
    }
}
