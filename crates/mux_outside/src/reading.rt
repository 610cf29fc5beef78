use ssh_fields::{ListOf, Text};

/// A call of `read`: the path and how many bytes it asked for.
#[derive(Drop)]
pub struct Reading {
    pub path: Text,
    pub most: usize,
}

/// Calls of `read`, in their order.
pub type Readings = ListOf<Reading>;
