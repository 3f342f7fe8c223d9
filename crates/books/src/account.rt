// An account as the ledger keeps it: its name, the number of its own commodity or none, and whether it is open still.
use crate::name::Name;

#[derive(Clone, Copy)]
pub struct Account {
    pub name: Name,
    pub own: Option<u8>,
    pub is_open: bool,
}
