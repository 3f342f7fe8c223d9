// Plain values: what tables hold and calls carry. Nothing is known of their ranges.

// A unit cost in hundredths, with the commodity that it is counted in.
#[derive(Clone, Copy, PartialEq, Eq, Debug, Default)]
pub struct Cost {
    pub number: u32,
    pub commodity: u8,
}

// What tells one open lot from another.
#[derive(Clone, Copy, PartialEq, Eq, Debug, Default)]
pub struct Key {
    pub account: u16,
    pub commodity: u8,
    pub cost: Cost,
    pub date: u32,
}

// A lot as a table keeps it. Units are hundredths; the serial counts opened lots from 1.
#[derive(Clone, Copy, PartialEq, Eq, Debug, Default)]
pub struct LotRow {
    pub key: Key,
    pub units: u32,
    pub serial: u32,
}
