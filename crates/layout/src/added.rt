// The places of what the Rust's record lacks, from `places::ADDED` on. One more number there is one more line in each of these.
ghost use Rattle.std.specs.Prelude.{◌≡◌};
ghost use Rattle.layout.specs.Added.{added_at, added_fits, laid_added, AddedFit};

use crate::{places, words};
use keys::HandKey;
use table::added::Added;

// Whether each word is in the range of what it stands for.
pub fn fits(numbers: &[u32]) -> bool
    ensures { result ≡ added_fits numbers.now }
{
    words::is_below(numbers, places::KEY_CODE, 65536)
        & words::is_below(numbers, places::KEY_YEAR, 65536)
}

pub fn at(numbers: &[u32]) -> Added
    ensures { result ≡ added_at numbers.now }
{
    Added {
        key: HandKey {
            code: words::set_at(numbers, places::KEY_CODE),
            year: words::set_at(numbers, places::KEY_YEAR),
            hand: words::word_at(numbers, places::KEY_HAND),
        },
    }
}

pub fn lay(numbers: &mut [u32], a: Added)
    ensures fits { AddedFit a }
    ensures numbers_after { numbers.new ≡ laid_added a numbers.old }
{
    let key = a.key;
    let list = [
        words::word_of_set(key.code),
        words::word_of_set(key.year),
        key.hand,
    ];
    commons::copying::copy(numbers, places::ADDED, &list, 0, 3);
}
