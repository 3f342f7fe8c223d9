#![tactic(auto)]

// Lots bought, drawn and refused: examples whose answers were worked out by hand from docs/BOOKING.md.
#[cfg(test)]
mod dearest;
#[cfg(test)]
mod shelf;
#[cfg(test)]
mod tests;
