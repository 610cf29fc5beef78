use ssh_fields::{ListOf, Text};

/// How a list of patterns matches a name.
#[derive(Clone, Copy, Drop, PartialEq, Eq)]
pub enum ListAnswer {
    Yes,
    No,
    /// A negated pattern matches.
    Denied,
}

/// A criterion's name.
#[derive(Clone, Copy, Drop, PartialEq, Eq)]
pub enum Kind {
    All,
    Canonical,
    Final,
    Exec,
    Host,
    OriginalHost,
    Tagged,
    User,
    LocalUser,
}

/// What a criterion's name is.
#[derive(Clone, Copy, Drop, PartialEq, Eq)]
pub enum Named {
    /// It has a value.
    Valued(Kind),
    /// It has none.
    Plain(Kind),
    /// It needs facts that aren't known.
    NotSupported,
    /// It is no criterion's name.
    NoName,
}

/// A criterion of `Match`. The value is empty if the criterion has none.
#[derive(Drop)]
pub struct Criterion {
    pub negated: bool,
    pub kind: Kind,
    pub value: Text,
}

/// Criteria in order.
pub type Criteria = ListOf<Criterion>;
