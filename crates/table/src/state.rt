// The words of the state.

// The key, the last number given, the next nonce and the total of free numbers. They travel whole; what a request is judged by
// and what it writes are functions over them and the table.
#[derive(Clone, Copy)]
pub struct StateWords {
    pub key0: u64,
    pub key1: u64,
    pub last: u64,
    pub next: u64,
    pub total: u64,
}
