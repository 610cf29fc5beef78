//! Permission lists: what is read, and the place of the first text that is none.

ghost use Rattle.std.specs.Prelude.{◌≡◌, [], ◌∷◌, codes, Ok, Err};
ghost use Rattle.mux_history.specs.Policy.{read_list, Anything, Entries};
ghost use Rattle.mux_history.specs.WorkedPolicy.{texts, entries};

/// An entry names a host and a port, or a port alone, or a path.
pub fn entries_name_hosts_and_ports()
    ensures { read_list texts ≡ Ok entries }
{}

/// A list without entries permits all, and so does `any`; `none` permits nothing.
pub fn any_and_none_stand_alone()
    ensures empty { read_list [] ≡ Ok Anything }
    ensures any { read_list (codes "any" ∷ []) ≡ Ok Anything }
    ensures none { read_list (codes "none" ∷ []) ≡ Ok (Entries []) }
    ensures after { read_list (codes "any" ∷ codes "80" ∷ []) ≡ Err 1 }
    ensures before { read_list (codes "80" ∷ codes "none" ∷ []) ≡ Err 1 }
{}

/// What is no entry is named by its place.
pub fn a_bad_entry_is_named_by_its_place()
    ensures port { read_list (codes "80" ∷ codes "db:65536" ∷ []) ≡ Err 1 }
    ensures host { read_list (codes ":80" ∷ []) ≡ Err 0 }
    ensures colons { read_list (codes "fe80::1:22" ∷ []) ≡ Err 0 }
    ensures address { read_list (codes "[]:22" ∷ []) ≡ Err 0 }
    ensures slash { read_list (codes "[/run/s]:80" ∷ []) ≡ Err 0 }
    ensures bare { read_list (codes "db" ∷ []) ≡ Err 0 }
    ensures nothing { read_list ([] ∷ []) ≡ Err 0 }
{}
