// The gains that a column has noted.
ghost use Rattle.std.specs.Prelude.{◌≡◌, ◌+◌, ◌*◌, ◌≤◌};
ghost use Rattle.pseudo_cost.specs.SideGains.{with_gain, average, IsWithinLimits};
ghost use Rattle.pseudo_cost.specs.ColumnGains.{noted_on, score, AreWithinLimits};
ghost use Rattle.pseudo_cost.specs.Gains.{largest_gain};

use crate::side::Side;

/// The most gains that a side takes: 2^32.
const MOST_NOTES: u64 = 1 << 32;

/// The gains that one side of a column has noted.
#[derive(Clone, Copy)]
pub struct SideGains {
    /// How many there are.
    pub count: u64,
    /// Their sum.
    pub sum: u64,
}

impl SideGains {
    ghost use Rattle.pseudo_cost.specs.SideGains.{no_gains};

    /// No gain yet.
    pub fn none() -> SideGains
        ensures { result ≡ no_gains }
    {
        SideGains { count: 0, sum: 0 }
    }

    /// These gains and one more. A side that has 2^32 takes no more.
    pub fn with(self, gain: u32) -> SideGains
        requires limits { IsWithinLimits self }
        requires held { gain ≤ largest_gain }
        ensures value { result ≡ with_gain gain self }
        ensures limits { IsWithinLimits result }
    {
        if self.count >= MOST_NOTES {
            return self;
        }
        SideGains {
            count: self.count + 1,
            sum: self.sum + u64::from(gain),
        }
    }

    /// The average gain, rounded down; 0 where there is none.
    pub fn average(self) -> u64
        requires { IsWithinLimits self }
        ensures value { result ≡ average self }
        ensures bounded { result ≤ largest_gain }
    {
        if self.count == 0 {
            return 0;
        }
        self.sum / self.count
    }
}

/// The gains that the two sides of a column have noted.
#[derive(Clone, Copy)]
pub struct ColumnGains {
    /// Those of the children down.
    pub down: SideGains,
    /// Those of the children up.
    pub up: SideGains,
}

const _: () = prove!(size_of::<ColumnGains>() == 32);

impl ColumnGains {
    ghost use Rattle.pseudo_cost.specs.ColumnGains.{no_column_gains};

    /// No gain on either side yet.
    pub fn none() -> ColumnGains
        ensures { result ≡ no_column_gains }
    {
        ColumnGains {
            down: SideGains::none(),
            up: SideGains::none(),
        }
    }

    /// These gains and one more on a side.
    pub fn with(self, side: Side, gain: u32) -> ColumnGains
        requires limits { AreWithinLimits self }
        requires held { gain ≤ largest_gain }
        ensures value { result ≡ noted_on side gain self }
        ensures limits { AreWithinLimits result }
    {
        match side {
            Side::Down => ColumnGains {
                down: self.down.with(gain),
                up: self.up,
            },
            Side::Up => ColumnGains {
                down: self.down,
                up: self.up.with(gain),
            },
        }
    }

    /// The score: the product of the two averages, each raised by 1.
    pub fn score(self) -> u128
        requires { AreWithinLimits self }
        ensures { result ≡ score self }
    {
        u128::from(self.down.average() + 1) * u128::from(self.up.average() + 1)
    }
}
