// The lowest free position of an availability byte, by a constant table, and the number free, counted.
ghost use Rattle.std.specs.Prelude.{◌≡◌, ◌<◌};
ghost use Rattle.geometry.specs.Tables.{lowest_free, lowest_table, number_free};

use crate::lowest::LOWEST;

// The table: a caller makes it once and lends it to what it calls.
#[derive(Clone, Copy)]
pub struct LowestTable {
    positions: [u8; 256],
    ghost tabulated: { positions ≡ lowest_table },
}

impl LowestTable {
    pub fn new() -> LowestTable {
        LowestTable::of(LOWEST)
    }

    // A table that a caller has already.
    pub fn of(positions: [u8; 256]) -> LowestTable
        requires { positions ≡ lowest_table }
    {
        LowestTable { positions }
    }

    // The lowest free position, 8 if none, as document 01's table has it.
    pub fn lowest(&self, availability: u64) -> u64
        requires { availability < 256 }
        ensures { result ≡ lowest_free availability }
    {
        u64::from(self.positions[availability as usize])
    }
}

// The number free.
pub fn number(availability: u64) -> u64
    requires { availability < 256 }
    ensures { result ≡ number_free availability }
{
    u64::from(u64::count_ones(availability))
}
