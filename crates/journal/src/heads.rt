// What stands in the first bytes of a block.
ghost use Rattle.std.specs.Prelude.{◌≡◌, ◌≤◌, length};
ghost use Rattle.journal.specs.Block.{title_at};

use crate::block::Title;
use crate::words;
use keys::HandKey;

// The title that stands in the first bytes.
pub fn title_at(bytes: &[u8]) -> Title
    requires { 512 ≤ length bytes.now }
    ensures { result ≡ title_at bytes.now }
{
    let key = HandKey {
        code: words::two_at(bytes, 0),
        year: words::two_at(bytes, 2),
        hand: words::four_at(bytes, 4),
    };
    Title {
        key,
        edition: bytes[11],
    }
}
