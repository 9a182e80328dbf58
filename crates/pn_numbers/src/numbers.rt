// A proof number and a disproof number.
ghost use Rattle.std.specs.Prelude.{◌≡◌, ◌≤◌, ◌↔◌, ◌⊎◌, IsTrue};

/// The greatest proof or disproof number of a node that is neither proved nor disproved.
pub const CAP: u32 = 100_000_000;

/// The number of what can't be done: the disproof number of a proved node, the proof number of a
/// disproved one, and a threshold that no unsolved node reaches.
pub const INFINITE: u32 = 100_000_001;

/// The proof and the disproof number of a node: estimates of how many positions below it have to be
/// looked at before it is proved (the attacker mates) or disproved (he can't). Two thresholds are
/// such a pair too. (Nagai 2002.)
///
/// A proved node has 0 and [`INFINITE`], a disproved one [`INFINITE`] and 0, every other one two
/// numbers from 1 to [`CAP`].
#[derive(Clone, Copy, PartialEq, Eq, Debug)]
pub struct Numbers {
    /// The proof number.
    pub pn: u32,
    /// The disproof number.
    pub dn: u32,
}

impl Numbers {
    /// Of a proved node.
    pub const PROVED: Numbers = Numbers {
        pn: 0,
        dn: INFINITE,
    };
    /// Of a disproved node.
    pub const DISPROVED: Numbers = Numbers {
        pn: INFINITE,
        dn: 0,
    };
    /// Of the problem, when its search begins.
    pub const ONE: Numbers = Numbers { pn: 1, dn: 1 };

    /// Whether one of the numbers has come to its threshold, so that the visit of the node ends.
    /// (Nagai 2002.)
    pub fn reaches(self, thresholds: Numbers) -> bool
        ensures { IsTrue result ↔ ((thresholds.pn ≤ self.pn) ⊎ (thresholds.dn ≤ self.dn)) }
    {
        self.pn >= thresholds.pn || self.dn >= thresholds.dn
    }
}
