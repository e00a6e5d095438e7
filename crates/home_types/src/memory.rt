/// Want of memory. It is the one refusal that may come at any call which takes an allocator.
#[derive(Clone, Copy, Debug, PartialEq, Eq)]
pub struct NoMemory;
