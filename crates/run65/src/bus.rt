//! What the CPU is connected to.

/// Two values that form an address.
#[derive(Clone, Copy)]
pub struct Word<V> {
    pub low: V,
    pub high: V,
}

/// What an address is formed for.
#[derive(Clone, Copy, PartialEq, Eq)]
pub enum Purpose {
    /// A byte is read there.
    Read,
    /// A byte is written there.
    Write,
    /// A byte is read there, and another one written in its place.
    Change,
    /// The address of a jump stands there.
    Pointer,
    /// Code goes on there.
    Jump,
    /// Code goes on there, and comes back.
    Call,
    /// Code goes back there, to the address after this one.
    Return,
}

/// What the CPU is connected to. A place is an address, or `None` if nobody knows which.
pub trait Bus<V> {
    /// The place at a word, and so many bytes after it as the index says.
    fn place(&mut self, word: Word<V>, index: V, purpose: Purpose) -> Option<u16>;

    /// What is read at a place.
    fn read(&mut self, place: Option<u16>) -> V;

    /// Writes a value to a place.
    fn write(&mut self, place: Option<u16>, value: V);

    /// The two bytes of an address of the code, as a call pushes them.
    fn read_word(&mut self, address: u16) -> Word<V>;

    /// Whether a branch is taken if the flag is 1, or if it is 0.
    fn takes(&mut self, flag: V, wanted: bool) -> bool;
}
