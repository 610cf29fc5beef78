use ssh_fields::{ListOf, Text};

/// A name and its value: a variable of the environment, or a path and the bytes of its file.
#[derive(Drop)]
pub struct Pair {
    pub name: Text,
    pub value: Text,
}

/// Pairs in order.
pub type Pairs = ListOf<Pair>;
