// What the Rust's record lacks stands together, so that every step carries it whole and one more number is one more field here: the key of the hand.
ghost use Rattle.std.specs.Prelude.{◌≡◌};
ghost use Rattle.table.specs.Added.{good_added};

use keys::HandKey;

#[derive(Clone, Copy)]
pub struct Added {
    pub key: HandKey,
}

// Nothing is added.
pub const NONE: Added = Added { key: keys::NONE };

impl Added {
    // Its part of soundness.
    pub fn is_good(self) -> bool
        ensures { result ≡ good_added self }
    {
        let key = self.key;
        key.is_good()
    }
}
