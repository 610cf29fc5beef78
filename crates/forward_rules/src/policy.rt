ghost use Rattle.std.specs.Prelude.{◌≡◌};
ghost use Rattle.mux_history.specs.Policy.{permits};
ghost use Rattle.forward_rules.specs.Allows.{error_in, read_policy, ReadsPolicyAs};
ghost use Rattle.conn_messages.specs.Keys.{key_of};

use crate::entry::Allowed;
use crate::reading::{ListFault, read_list};
use conn_messages::Key;
use ssh_fields::Texts;
use std::alloc::Global;
use std::marker::Model;
use thiserror::Error;

/// Why permission lists are not read.
#[derive(Clone, Copy, Debug, PartialEq, Eq, Error)]
pub enum PolicyError {
    /// The first text that is no entry, those of the list for opens before those of the list for
    /// forwardings; `at` is its place in its list, counted from 0.
    #[error("text {at} of a permission list is no entry, for opens: {for_open}")]
    BadEntry { for_open: bool, at: usize },
    #[error("out of memory")]
    OutOfMemory,
}

/// What clients may open, what they may have listened on, and whether they may start sessions.
#[derive(Drop)]
pub struct Policy {
    opens: Allowed,
    listens: Allowed,
    sessions: bool,
}

impl Model for Policy {
    ghost use Rattle.mux_history.specs.Policy as history;
    ghost use Rattle.forward_rules.specs.Allows.{allow_of};

    ghost Value = { history.Policy };

    ghost view = { λ a. record {
      opens = allow_of a.opens;
      listens = allow_of a.listens;
      sessions = a.sessions;
    } };
}

// The list in which the first bad text stands, and its place there.
fn bad_in(for_open: bool, fault: ListFault) -> PolicyError
    ensures { result ≡ error_in for_open fault }
{
    match fault {
        ListFault::Bad { at } => PolicyError::BadEntry { for_open, at },
        ListFault::OutOfMemory => PolicyError::OutOfMemory,
    }
}

impl Policy {
    /// Reads the texts of `--permit-open` and of `--permit-listen`: `any`, `none`, or entries
    /// `/path`, `host:port`, `[address]:port` and `port`, with `*` for host or port. A list without
    /// texts permits all. Whether sessions are permitted was read before.
    pub fn read(
        alloc: Global,
        opens: &Texts,
        listens: &Texts,
        sessions: bool,
    ) -> Result<Policy, PolicyError>
        ensures { ReadsPolicyAs result (read_policy opens.now listens.now sessions) }
    {
        let opens = match read_list(alloc, opens.as_slice()) {
            Ok(allowed) => allowed,
            Err(fault) => return Err(bad_in(true, fault)),
        };
        let listens = match read_list(alloc, listens.as_slice()) {
            Ok(allowed) => allowed,
            Err(fault) => return Err(bad_in(false, fault)),
        };
        Ok(Policy {
            opens,
            listens,
            sessions,
        })
    }

    /// Whether a session may be started.
    pub fn permits_sessions(&self) -> bool
        ensures { result ≡ self.now.sessions }
    {
        self.sessions
    }

    /// Whether a channel may be opened to this key.
    pub fn permits_open_to(&self, key: Key<'_>) -> bool
        ensures { result ≡ permits self.now.opens (key_of key.entry) }
    {
        self.opens.permits(key)
    }

    /// Whether this key may be listened on.
    pub fn permits_listen_on(&self, key: Key<'_>) -> bool
        ensures { result ≡ permits self.now.listens (key_of key.entry) }
    {
        self.listens.permits(key)
    }
}
