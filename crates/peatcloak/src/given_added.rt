// What a build is told of what the Rust's record lacks. It does not come from the table's own lists, where the hand before may still stand. One more number
// there is one more line in each of these.
ghost use Rattle.std.specs.Prelude.{◌≡◌};
ghost use Rattle.peatcloak.specs.GivenAdded.{added_given, added_given_fits, key_given};

use keys::HandKey;
use layout::{places, words};
use table::added::Added;

// Whether each word is in the range of what it stands for.
pub fn fits(given: &[u32]) -> bool
    ensures { result ≡ added_given_fits given.now }
{
    words::is_below(given, places::GIVEN_KEY, 2)
        & (words::is_below(given, places::GIVEN_KEY_CODE, 65536)
            & words::is_below(given, places::GIVEN_KEY_YEAR, 65536))
}

// A key that is not given is none.
fn key_of(given: &[u32]) -> HandKey
    ensures { result ≡ key_given given.now }
{
    if words::flag_at(given, places::GIVEN_KEY) {
        return HandKey {
            code: words::set_at(given, places::GIVEN_KEY_CODE),
            year: words::set_at(given, places::GIVEN_KEY_YEAR),
            hand: words::word_at(given, places::GIVEN_KEY_HAND),
        };
    }
    keys::NONE
}

pub fn of(given: &[u32]) -> Added
    ensures { result ≡ added_given given.now }
{
    let key = key_of(given);
    Added { key }
}
