// Which hand a table is at: table code, year and hand number. Hand numbers restart each January, so the year is part of the key.
#![tactic(auto)]

ghost use Rattle.std.specs.Prelude.{◌≡◌};
ghost use Rattle.keys.specs.Keys.{is_key, is_good, is_same, is_before};

// The order is by code, then by year, then by hand, as the fields stand.
#[derive(Clone, Copy, PartialEq, Eq, PartialOrd, Ord)]
pub struct HandKey {
    pub code: u16,
    pub year: u16,
    pub hand: u32,
}

// No key.
pub const NONE: HandKey = HandKey {
    code: 0,
    year: 0,
    hand: 0,
};

impl HandKey {
    // Whether it names a hand.
    pub fn is_key(self) -> bool
        ensures { result ≡ is_key self }
    {
        self.year != 0
    }

    // A key, or none: beside year 0 nothing else may stand.
    pub fn is_good(self) -> bool
        ensures { result ≡ is_good self }
    {
        (self.year != 0) | ((self.code == 0) & (self.hand == 0))
    }

    pub fn is_same(self, other: HandKey) -> bool
        ensures { result ≡ is_same self other }
    {
        self == other
    }

    // By code, then by year, then by hand.
    pub fn is_before(self, other: HandKey) -> bool
        ensures { result ≡ is_before self other }
    {
        self < other
    }
}
