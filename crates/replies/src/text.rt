// Names and passwords.
ghost use Rattle.std.specs.Prelude.{◌≡◌, ◌≤◌, [], length, Some, None, MatchResult};
ghost use Rattle.wire.specs.Fields.{short_text, most_text};

use wire::fields::MOST_TEXT;
use wire::list::KeptList;

// There were more than ten bytes.
#[derive(Clone, Copy, PartialEq, Eq, Debug)]
pub struct TooLong;

// Up to ten bytes.
// No `impl Model`: a model of a `Copy` type has to give the fields back (`inverse`), the bytes of unused places too,
// which is no plainer.
#[derive(Clone, Copy)]
pub struct ShortText {
    bytes: KeptList<u8, MOST_TEXT>,
}

// No bytes.
impl Default for ShortText {
    ghost use Rattle.replies.specs.Queues.{text};

    ghost is_default = { λ t. text t ≡ [] };

    fn default() -> Self {
        ShortText {
            bytes: KeptList::new(),
        }
    }
}

// A copy of all of the bytes.
impl TryFrom<&[u8]> for ShortText {
    ghost use Rattle.replies.specs.Queues.{text};

    type Error = TooLong;

    ghost try_from_gives = { λ bytes r. MatchResult r (λ t. Some (text t) ≡ short_text bytes.now) (λ _. None ≡ short_text bytes.now) };

    fn try_from(bytes: &[u8]) -> Result<Self, TooLong> {
        let bytes = KeptList::of(bytes);
        if bytes.is_overrun() {
            return Err(TooLong);
        }
        Ok(ShortText { bytes })
    }
}

impl ShortText {
    ghost use Rattle.replies.specs.Queues.{text};

    pub fn as_slice(&self) -> &[u8]
        ensures value { result.now ≡ text self.now }
        ensures few { length result.now ≤ most_text }
    {
        self.bytes.as_slice()
    }
}
