// A slot of a hash store: an address with its value, or none.
pub type Slot<V> = Option<(u32, V)>;
