//! Small configurations, computed by the definitions alone.
#![tactic(auto, unfolding(crate::specs::Numbers::digits_of, crate::specs::Heads::lines_of, crate::specs::Heads::head_of, crate::specs::Heads::uncommented, crate::specs::Heads::sent_at, crate::specs::Heads::after_keyword, crate::specs::Words::words_from, crate::specs::Words::move_of, crate::specs::Patterns::matches, crate::specs::Patterns::answer_of, crate::specs::Globs::pieces_take, crate::specs::Globs::component_takes, crate::specs::Globs::pieces_from, crate::specs::Keys::key_of, crate::specs::Keywords::meaning_of, crate::specs::Keywords::unchecked, crate::specs::Kinds::default_of, crate::specs::Values::values_of, crate::specs::Values::value_of, crate::specs::Times::seconds_from, crate::specs::Tokens::expand_from, crate::specs::Tokens::name_expanded, crate::specs::Tokens::meaning, crate::specs::Criteria::criteria_from, crate::specs::Evaluation::verdict, crate::specs::Includes::included_files, crate::specs::Includes::globbed, crate::specs::Sources::lines_in, crate::specs::Sources::file_lines, crate::specs::Sources::included, crate::specs::Sources::all_lines, crate::specs::Sources::size_limit, crate::specs::Sources::is_opening, crate::specs::Rows::values, crate::specs::Resolution::view_at, crate::specs::Resolution::line_limit, crate::specs::Resolution::row_of, crate::specs::Resolution::rows_from, crate::specs::Resolution::rows_by, crate::specs::Resolution::rows_behind, crate::specs::Resolution::all_rows, crate::specs::Entries::entry_of, crate::specs::Listing::shown, crate::specs::Listing::listing_over, crate::specs::Listing::control_path_at, crate::specs::Options::forward_words, crate::specs::CommandLine::steps_from, crate::specs::CommandLine::walk_from, crate::specs::CommandLine::command_of, crate::specs::Reading::reading, crate::specs::Reading::drill_of, crate::specs::Reading::seed_limit, crate::specs::Diagnostics::text_of, crate::specs::Diagnostics::line_of))]

ghost use Rattle.std.specs.Prelude.{◌≡◌, List, [], ◌∷◌, codes, length, true, false};
ghost use Rattle.conf_rules.specs.Heads.{lines_of};
ghost use Rattle.conf_rules.specs.Memory.{Pair};
ghost use Rattle.conf_rules.specs.CommandOutcome.{outcome, ran_for, Opens, Drills};
ghost use Rattle.conf_rules.specs.Samples.{text_of_lines, file, ann, at_home, machine, machine_without_files, with_f, with_root_f, list_file, written, listed_values, error_line, full_machine, full_listing, exec_machine};

/// Every kind of line that a first configuration has, with an included file.
pub fn a_listing_in_full()
    ensures { written (outcome full_machine (codes "-G" ∷ codes "db.example" ∷ [])) ≡ full_listing }
{}

/// A negated pattern alone applies to nothing; criteria see the host name set so far; a last line
/// may lack its line feed.
pub fn blocks_and_ends()
    ensures denied { listed_values (codes "port")
        (outcome (with_f (codes "Host !a" ∷ codes "Port 5" ∷ []))
        (list_file (codes "f") (codes "b"))) ≡ codes "22" ∷ [] }
    ensures criteria { listed_values (codes "port")
        (outcome (with_f (codes "Hostname %h.example" ∷ codes "Match host db.example"
        ∷ codes "Port 7" ∷ codes "Match originalhost db.example" ∷ codes "Port 8" ∷ []))
        (list_file (codes "f") (codes "db"))) ≡ codes "7" ∷ [] }
    ensures empty { listed_values (codes "port")
        (outcome (with_f []) (list_file (codes "f") (codes "b"))) ≡ codes "22" ∷ [] }
    ensures unended { listed_values (codes "port")
        (outcome (machine ann (record { name = codes "f"; value = codes "Port 5" } ∷ []))
        (list_file (codes "f") (codes "b"))) ≡ codes "5" ∷ [] }
{}

/// A command runs only where the criteria before it hold.
pub fn commands_reached()
    ensures port { listed_values (codes "port")
        (outcome exec_machine (list_file (codes "f") (codes "db"))) ≡ codes "2" ∷ [] }
    ensures ran { ran_for exec_machine (list_file (codes "f") (codes "db")) ≡ codes "ok db" ∷ [] }
{}

/// A file that includes itself ends at the depth that is too much; one that isn't there is skipped.
pub fn including_itself()
    ensures deep { written
        (outcome (with_root_f (codes "Include /f" ∷ []) []) (list_file (codes "/f") (codes "x")))
        ≡ error_line (codes "/f line 1: includes are too deep") }
    ensures skipped { listed_values (codes "port")
        (outcome (with_root_f (codes "Include /none" ∷ []) []) (list_file (codes "/f") (codes "x")))
        ≡ codes "22" ∷ [] }
    ensures token { written
        (outcome (with_root_f (codes "Include /a %x" ∷ [])
        (file (codes "/a") (codes "Porp 1" ∷ []) ∷ [])) (list_file (codes "/f") (codes "x")))
        ≡ error_line (codes "/f line 1: not a token here") }
{}

/// Lines that are refused, and one with a keyword that IgnoreUnknown names.
pub fn refused_lines()
    ensures equals { written
        (outcome (with_f (codes "Port = = 2" ∷ [])) (list_file (codes "f") (codes "x")))
        ≡ error_line (codes "f line 1: two equals signs") }
    ensures unknown { written
        (outcome (with_f (codes "Porp 2" ∷ [])) (list_file (codes "f") (codes "x")))
        ≡ error_line (codes "f line 1: unknown keyword porp") }
    ensures ignored { listed_values (codes "port")
        (outcome (with_f (codes "IgnoreUnknown porp*" ∷ codes "Porp 2" ∷ []))
        (list_file (codes "f") (codes "x"))) ≡ codes "22" ∷ [] }
    ensures quote { written
        (outcome (with_f (codes "Host \"a" ∷ [])) (list_file (codes "f") (codes "x")))
        ≡ error_line (codes "f line 1: a quote is not closed") }
{}

/// What is missing on the command line.
pub fn missing_words()
    ensures destination { written (outcome machine_without_files (codes "-G" ∷ []))
        ≡ error_line (codes "word 2: a destination is missing") }
    ensures value { written
        (outcome machine_without_files (codes "-G" ∷ codes "-F" ∷ codes "none" ∷ codes "x" ∷ codes "-p" ∷ []))
        ≡ error_line (codes "word 5: a value is missing") }
    ensures transport { written
        (outcome machine_without_files (codes "-M" ∷ codes "-F" ∷ codes "none" ∷ codes "-S" ∷ codes "/c"
        ∷ codes "x" ∷ [])) ≡ error_line (codes "word 7: --transport is missing") }
{}

/// The master needs a control path.
pub fn control_path_of_the_master()
    ensures unset { written
        (outcome machine_without_files (codes "-M" ∷ codes "-F" ∷ codes "none" ∷ codes "--transport" ∷ codes "/t"
        ∷ codes "x" ∷ [])) ≡ error_line (codes "controlpath: not set") }
    ensures opened { outcome machine_without_files (codes "-M" ∷ codes "-F" ∷ codes "none" ∷ codes "--transport"
        ∷ codes "/t" ∷ codes "-S" ∷ codes "/c" ∷ codes "x" ∷ [])
        ≡ Opens (codes "/c") (codes "/t") (record { opens = []; listens = []; sessions = true; here = [] }) }
{}

/// Sessions are permitted unless the last `--permit-session` is `none`; only a master has it.
pub fn sessions_of_the_master()
    ensures none { outcome machine_without_files (codes "-M" ∷ codes "-F" ∷ codes "none" ∷ codes "--transport"
        ∷ codes "/t" ∷ codes "-S" ∷ codes "/c" ∷ codes "--permit-session" ∷ codes "any"
        ∷ codes "--permit-session" ∷ codes "none" ∷ codes "x" ∷ [])
        ≡ Opens (codes "/c") (codes "/t") (record { opens = []; listens = []; sessions = false; here = [] }) }
    ensures bad { written (outcome machine_without_files (codes "-M" ∷ codes "--permit-session" ∷ codes "80" ∷ []))
        ≡ error_line (codes "word 3: not a permission") }
    ensures listing { written (outcome machine_without_files (codes "-G" ∷ codes "--permit-session" ∷ codes "80"
        ∷ [])) ≡ error_line (codes "word 2: only for -M") }
{}

/// Where the master's own forwardings may listen: the entries of several options are one list, and
/// a bad one is refused at its word, the earliest first over all lists.
pub fn listening_of_the_master()
    ensures two { outcome machine_without_files (codes "-M" ∷ codes "-F" ∷ codes "none" ∷ codes "--transport"
        ∷ codes "/t" ∷ codes "-S" ∷ codes "/c" ∷ codes "--permit-here" ∷ codes "127.0.0.1:*"
        ∷ codes "--permit-here" ∷ codes "80" ∷ codes "x" ∷ [])
        ≡ Opens (codes "/c") (codes "/t") (record {
          opens = [];
          listens = [];
          sessions = true;
          here = codes "127.0.0.1:*" ∷ codes "80" ∷ [];
        }) }
    ensures bad { written (outcome machine_without_files (codes "-M" ∷ codes "-F" ∷ codes "none"
        ∷ codes "--transport" ∷ codes "/t" ∷ codes "-S" ∷ codes "/c" ∷ codes "--permit-here"
        ∷ codes "a:b" ∷ codes "--permit-listen" ∷ codes "a:b" ∷ codes "x" ∷ []))
        ≡ error_line (codes "word 9: not a permission") }
    ensures listing { written (outcome machine_without_files (codes "-G" ∷ codes "--permit-here" ∷ codes "a:b"
        ∷ codes "x" ∷ [])) ≡ error_line (codes "word 2: only for -M") }
{}

/// A drill is read from three numbers in their ranges.
pub fn words_of_a_drill()
    ensures read { outcome machine_without_files (codes "--drill" ∷ codes "0" ∷ codes "1" ∷ codes "1" ∷ [])
        ≡ Drills 0 1 1 }
    ensures refused { written
        (outcome machine_without_files (codes "--drill" ∷ codes "1" ∷ codes "65" ∷ codes "0" ∷ []))
        ≡ error_line (codes "word 3: not a drill number") }
{}

/// Of two hosts' blocks one applies.
pub fn one_host()
    ensures host { listed_values (codes "host")
        (outcome (with_f (codes "# one host" ∷ codes "Host db" ∷ codes "Hostname 10.0.0.5"
        ∷ codes "Port = 2222" ∷ codes "User ann" ∷ codes "Host other" ∷ codes "Port 9" ∷ []))
        (list_file (codes "f") (codes "db"))) ≡ codes "db" ∷ [] }
    ensures user { listed_values (codes "user")
        (outcome (with_f (codes "# one host" ∷ codes "Host db" ∷ codes "Hostname 10.0.0.5"
        ∷ codes "Port = 2222" ∷ codes "User ann" ∷ codes "Host other" ∷ codes "Port 9" ∷ []))
        (list_file (codes "f") (codes "db"))) ≡ codes "ann" ∷ [] }
    ensures hostname { listed_values (codes "hostname")
        (outcome (with_f (codes "# one host" ∷ codes "Host db" ∷ codes "Hostname 10.0.0.5"
        ∷ codes "Port = 2222" ∷ codes "User ann" ∷ codes "Host other" ∷ codes "Port 9" ∷ []))
        (list_file (codes "f") (codes "db"))) ≡ codes "10.0.0.5" ∷ [] }
    ensures port { listed_values (codes "port")
        (outcome (with_f (codes "# one host" ∷ codes "Host db" ∷ codes "Hostname 10.0.0.5"
        ∷ codes "Port = 2222" ∷ codes "User ann" ∷ codes "Host other" ∷ codes "Port 9" ∷ []))
        (list_file (codes "f") (codes "db"))) ≡ codes "2222" ∷ [] }
    ensures all { length (lines_of
        (written (outcome (with_f (codes "# one host" ∷ codes "Host db" ∷ codes "Hostname 10.0.0.5"
        ∷ codes "Port = 2222" ∷ codes "User ann" ∷ codes "Host other" ∷ codes "Port 9" ∷ []))
        (list_file (codes "f") (codes "db"))))) ≡ 29 }
{}

/// The first value counts.
pub fn first_value_wins()
    ensures { listed_values (codes "port")
        (outcome (with_f (codes "Port 1" ∷ codes "Port 2" ∷ codes "User a" ∷ []))
        (list_file (codes "f") (codes "x"))) ≡ codes "1" ∷ [] }
{}

/// A pattern of SendEnv that follows a dash removes the earlier ones that it matches.
pub fn removed_patterns()
    ensures { listed_values (codes "sendenv")
        (outcome (with_f (codes "SendEnv LANG LC_*" ∷ codes "SendEnv -LC_?" ∷ codes "SendEnv -L*G X"
        ∷ codes "User a" ∷ [])) (list_file (codes "f") (codes "x"))) ≡ codes "X" ∷ [] }
{}

/// Times are seconds, `off` is `no`, and a proxy command `none` leaves no place for a jump.
pub fn values_as_listed()
    ensures interval { listed_values (codes "serveraliveinterval")
        (outcome (with_f (codes "ServerAliveInterval 1m30" ∷ codes "StrictHostKeyChecking OFF"
        ∷ codes "ProxyCommand none" ∷ codes "ProxyJump gate" ∷ codes "User a" ∷ []))
        (list_file (codes "f") (codes "x"))) ≡ codes "90" ∷ [] }
    ensures strict { listed_values (codes "stricthostkeychecking")
        (outcome (with_f (codes "ServerAliveInterval 1m30" ∷ codes "StrictHostKeyChecking OFF"
        ∷ codes "ProxyCommand none" ∷ codes "ProxyJump gate" ∷ codes "User a" ∷ []))
        (list_file (codes "f") (codes "x"))) ≡ codes "no" ∷ [] }
    ensures command { listed_values (codes "proxycommand")
        (outcome (with_f (codes "ServerAliveInterval 1m30" ∷ codes "StrictHostKeyChecking OFF"
        ∷ codes "ProxyCommand none" ∷ codes "ProxyJump gate" ∷ codes "User a" ∷ []))
        (list_file (codes "f") (codes "x"))) ≡ [] }
    ensures jump { listed_values (codes "proxyjump")
        (outcome (with_f (codes "ServerAliveInterval 1m30" ∷ codes "StrictHostKeyChecking OFF"
        ∷ codes "ProxyCommand none" ∷ codes "ProxyJump gate" ∷ codes "User a" ∷ []))
        (list_file (codes "f") (codes "x"))) ≡ [] }
{}

/// Tokens of a control path, and one whose fact isn't known.
pub fn tokens_of_a_control_path()
    ensures home { listed_values (codes "controlpath")
        (outcome (machine (at_home (codes "/h"))
        (file (codes "f") (codes "ControlPath ~/%r%%$" ∷ codes "User a" ∷ []) ∷ []))
        (list_file (codes "f") (codes "x"))) ≡ codes "/h/a%$" ∷ [] }
    ensures missing { written (outcome (with_f (codes "ControlPath /tmp/%i" ∷ codes "User a" ∷ []))
        (list_file (codes "f") (codes "x"))) ≡ error_line (codes "controlpath: fact i is missing") }
{}

/// Criteria that aren't supported, or don't stand alone.
pub fn refused_criteria()
    ensures supported { written
        (outcome (with_f (codes "Match user ann" ∷ codes "Port 1"
        ∷ codes "Match localnetwork 10.0.0.0/8" ∷ [])) (list_file (codes "f") (codes "x")))
        ≡ error_line (codes "f line 3: criterion not supported") }
    ensures alone { written
        (outcome (with_f (codes "Match all host x" ∷ [])) (list_file (codes "f") (codes "x")))
        ≡ error_line (codes "f line 1: all must stand alone") }
{}

/// Letters, lines and a user, in the order of the words.
pub fn letters_in_order()
    ensures host { listed_values (codes "host")
        (outcome machine_without_files (codes "-GF" ∷ codes "none" ∷ codes "-p" ∷ codes "10" ∷ codes "-oPort=9"
        ∷ codes "bob@x" ∷ [])) ≡ codes "x" ∷ [] }
    ensures user { listed_values (codes "user")
        (outcome machine_without_files (codes "-GF" ∷ codes "none" ∷ codes "-p" ∷ codes "10" ∷ codes "-oPort=9"
        ∷ codes "bob@x" ∷ [])) ≡ codes "bob" ∷ [] }
    ensures port { listed_values (codes "port")
        (outcome machine_without_files (codes "-GF" ∷ codes "none" ∷ codes "-p" ∷ codes "10" ∷ codes "-oPort=9"
        ∷ codes "bob@x" ∷ [])) ≡ codes "10" ∷ [] }
    ensures all { length (lines_of
        (written (outcome machine_without_files (codes "-GF" ∷ codes "none" ∷ codes "-p" ∷ codes "10"
        ∷ codes "-oPort=9" ∷ codes "bob@x" ∷ [])))) ≡ 29 }
{}

/// What stands only in files, two modes, options of the master, and two destinations.
pub fn refused_words()
    ensures block { written
        (outcome machine_without_files (codes "-G" ∷ codes "-F" ∷ codes "none" ∷ codes "-o" ∷ codes "Host a"
        ∷ codes "x" ∷ [])) ≡ error_line (codes "command line line 5: not on the command line") }
    ensures modes { written (outcome machine_without_files (codes "-G" ∷ codes "-M" ∷ codes "x" ∷ []))
        ≡ error_line (codes "word 2: only one of -G, -M and -O is taken") }
    ensures master { written
        (outcome machine_without_files (codes "-G" ∷ codes "--transport" ∷ codes "/t" ∷ codes "x" ∷ []))
        ≡ error_line (codes "word 2: only for -M") }
    ensures destinations { written (outcome machine_without_files (codes "-G" ∷ codes "a" ∷ codes "b" ∷ []))
        ≡ error_line (codes "word 3: only one destination is taken") }
{}

/// Requests to a running master: an unknown one, one beside another mode, without a forwarding or a
/// destination, with an option of the master, and two of them.
pub fn words_of_the_client()
    ensures command { written (outcome machine_without_files (codes "-O" ∷ codes "restart" ∷ codes "x" ∷ []))
        ≡ error_line (codes "word 2: not a command") }
    ensures joined { written (outcome machine_without_files (codes "-Orestart" ∷ codes "x" ∷ []))
        ≡ error_line (codes "word 1: not a command") }
    ensures modes { written (outcome machine_without_files (codes "-G" ∷ codes "-O" ∷ codes "check" ∷ codes "x" ∷ []))
        ≡ error_line (codes "word 2: only one of -G, -M and -O is taken") }
    ensures forwarding { written
        (outcome machine_without_files (codes "-O" ∷ codes "forward" ∷ codes "-o" ∷ codes "LocalForward 1 a:2"
        ∷ codes "x" ∷ [])) ≡ error_line (codes "word 6: no forwarding is named") }
    ensures destination { written (outcome machine_without_files (codes "-O" ∷ codes "cancel" ∷ []))
        ≡ error_line (codes "word 3: a destination is missing") }
    ensures master { written
        (outcome machine_without_files (codes "-O" ∷ codes "check" ∷ codes "--transport" ∷ codes "/t" ∷ codes "x" ∷ []))
        ≡ error_line (codes "word 3: only for -M") }
    ensures last { written
        (outcome machine_without_files (codes "-O" ∷ codes "check" ∷ codes "-O" ∷ codes "no" ∷ codes "x" ∷ []))
        ≡ error_line (codes "word 4: not a command") }
    ensures mode { written (outcome machine_without_files (codes "x" ∷ []))
        ≡ error_line (codes "word 2: -G, -M or -O is missing") }
{}

/// Included files are read in the order of their paths; a name with a leading dot isn't matched by
/// a star.
pub fn included_in_order()
    ensures sorted { listed_values (codes "identityfile")
        (outcome (with_root_f (codes "Include /d/*.c" ∷ [])
        (file (codes "/d/b.c") (codes "IdentityFile b" ∷ [])
        ∷ file (codes "/d/a.c") (codes "IdentityFile a" ∷ [])
        ∷ file (codes "/d/.h.c") (codes "IdentityFile h" ∷ [])
        ∷ file (codes "/d/.c") (codes "IdentityFile dot" ∷ []) ∷ []))
        (list_file (codes "/f") (codes "x"))) ≡ codes "a" ∷ codes "b" ∷ [] }
    ensures empty_components { listed_values (codes "identityfile")
        (outcome (with_root_f (codes "Include /d//*.c" ∷ [])
        (file (codes "/d/b.c") (codes "IdentityFile b" ∷ [])
        ∷ file (codes "/d/a.c") (codes "IdentityFile a" ∷ [])
        ∷ file (codes "/d/.h.c") (codes "IdentityFile h" ∷ [])
        ∷ file (codes "/d/.c") (codes "IdentityFile dot" ∷ []) ∷ []))
        (list_file (codes "/f") (codes "x"))) ≡ codes "a" ∷ codes "b" ∷ [] }
{}

/// A path with globs and a slash at its end names directories alone, so no file is read.
pub fn directories_alone()
    ensures slash { listed_values (codes "identityfile")
        (outcome (with_root_f (codes "Include /i/*/" ∷ [])
        (file (codes "/i/a") (codes "IdentityFile a" ∷ [])
        ∷ file (codes "/i/d/b") (codes "IdentityFile b" ∷ []) ∷ []))
        (list_file (codes "/f") (codes "x"))) ≡ [] }
    ensures plain { listed_values (codes "identityfile")
        (outcome (with_root_f (codes "Include /i/*" ∷ [])
        (file (codes "/i/a") (codes "IdentityFile a" ∷ [])
        ∷ file (codes "/i/d/b") (codes "IdentityFile b" ∷ []) ∷ []))
        (list_file (codes "/f") (codes "x"))) ≡ codes "a" ∷ [] }
    ensures inside { listed_values (codes "identityfile")
        (outcome (with_root_f (codes "Include /i//*//b" ∷ [])
        (file (codes "/i/a") (codes "IdentityFile a" ∷ [])
        ∷ file (codes "/i/d/b") (codes "IdentityFile b" ∷ []) ∷ []))
        (list_file (codes "/f") (codes "x"))) ≡ codes "b" ∷ [] }
{}

/// A second pass, if a Match line requests it: its blocks see the host name after the first pass.
pub fn second_pass()
    ensures late { listed_values (codes "user")
        (outcome (with_f (codes "Host 10.*" ∷ codes "Port 9" ∷ codes "Host db"
        ∷ codes "Hostname 10.0.0.5" ∷ codes "Match final" ∷ codes "User late" ∷ []))
        (list_file (codes "f") (codes "db"))) ≡ codes "late" ∷ [] }
    ensures name { listed_values (codes "hostname")
        (outcome (with_f (codes "Host 10.*" ∷ codes "Port 9" ∷ codes "Host db"
        ∷ codes "Hostname 10.0.0.5" ∷ codes "Match final" ∷ codes "User late" ∷ []))
        (list_file (codes "f") (codes "db"))) ≡ codes "10.0.0.5" ∷ [] }
    ensures port { listed_values (codes "port")
        (outcome (with_f (codes "Host 10.*" ∷ codes "Port 9" ∷ codes "Host db"
        ∷ codes "Hostname 10.0.0.5" ∷ codes "Match final" ∷ codes "User late" ∷ []))
        (list_file (codes "f") (codes "db"))) ≡ codes "9" ∷ [] }
    ensures user_without { listed_values (codes "user")
        (outcome (with_f (codes "Host 10.*" ∷ codes "Port 9" ∷ codes "Host db"
        ∷ codes "Hostname 10.0.0.5" ∷ [])) (list_file (codes "f") (codes "db")))
        ≡ codes "ann" ∷ [] }
    ensures port_without { listed_values (codes "port")
        (outcome (with_f (codes "Host 10.*" ∷ codes "Port 9" ∷ codes "Host db"
        ∷ codes "Hostname 10.0.0.5" ∷ [])) (list_file (codes "f") (codes "db"))) ≡ codes "22" ∷ [] }
{}

/// What is collected counts once, and `final` holds in the second pass alone.
pub fn each_pass()
    ensures once { listed_values (codes "identityfile")
        (outcome (with_f (codes "IdentityFile a" ∷ codes "Match final" ∷ codes "IdentityFile b"
        ∷ codes "Match !final" ∷ codes "Port 5" ∷ codes "Match final all" ∷ codes "Port 6"
        ∷ codes "User u" ∷ [])) (list_file (codes "f") (codes "db"))) ≡ codes "a" ∷ codes "b" ∷ [] }
    ensures first { listed_values (codes "port")
        (outcome (with_f (codes "IdentityFile a" ∷ codes "Match final" ∷ codes "IdentityFile b"
        ∷ codes "Match !final" ∷ codes "Port 5" ∷ codes "Match final all" ∷ codes "Port 6"
        ∷ codes "User u" ∷ [])) (list_file (codes "f") (codes "db"))) ≡ codes "5" ∷ [] }
    ensures second { listed_values (codes "user")
        (outcome (with_f (codes "IdentityFile a" ∷ codes "Match final" ∷ codes "IdentityFile b"
        ∷ codes "Match !final" ∷ codes "Port 5" ∷ codes "Match final all" ∷ codes "Port 6"
        ∷ codes "User u" ∷ [])) (list_file (codes "f") (codes "db"))) ≡ codes "u" ∷ [] }
    ensures alone { written
        (outcome (with_f (codes "Match all final" ∷ [])) (list_file (codes "f") (codes "x")))
        ≡ error_line (codes "f line 1: all must stand alone") }
    ensures behind { listed_values (codes "port")
        (outcome (with_f (codes "Match canonical all" ∷ codes "Port 5" ∷ codes "Match all"
        ∷ codes "Port 6" ∷ [])) (list_file (codes "f") (codes "db"))) ≡ codes "6" ∷ [] }
{}

/// A refusal of the second pass counts, and its commands run after those of the first.
pub fn reached_in_the_second_pass()
    ensures refused { written
        (outcome (machine (record ann { local_user = None })
        (file (codes "f") (codes "Match final user ann" ∷ []) ∷ []))
        (list_file (codes "f") (codes "x"))) ≡ error_line (codes "f line 1: fact r is missing") }
    ensures ran { ran_for
        (with_f (codes "Match final exec \"a %h\"" ∷ codes "Match exec \"b %n\"" ∷ []))
        (list_file (codes "f") (codes "x")) ≡ codes "b x" ∷ codes "a x" ∷ codes "b x" ∷ [] }
{}

ghost use Rattle.conf_rules.specs.Tokens.{digest};

/// The digest of a connection.
#[tactic(auto, unfolding(crate::specs::Numbers::digits_of, crate::specs::Heads::lines_of, crate::specs::Heads::head_of, crate::specs::Heads::uncommented, crate::specs::Heads::sent_at, crate::specs::Heads::after_keyword, crate::specs::Words::words_from, crate::specs::Words::move_of, crate::specs::Patterns::matches, crate::specs::Patterns::answer_of, crate::specs::Globs::pieces_take, crate::specs::Globs::component_takes, crate::specs::Globs::pieces_from, crate::specs::Keys::key_of, crate::specs::Keywords::meaning_of, crate::specs::Keywords::unchecked, crate::specs::Kinds::default_of, crate::specs::Values::values_of, crate::specs::Values::value_of, crate::specs::Times::seconds_from, crate::specs::Tokens::expand_from, crate::specs::Tokens::name_expanded, crate::specs::Tokens::meaning, crate::specs::Criteria::criteria_from, crate::specs::Evaluation::verdict, crate::specs::Includes::included_files, crate::specs::Includes::globbed, crate::specs::Sources::lines_in, crate::specs::Sources::file_lines, crate::specs::Sources::included, crate::specs::Sources::all_lines, crate::specs::Sources::size_limit, crate::specs::Sources::is_opening, crate::specs::Rows::values, crate::specs::Resolution::view_at, crate::specs::Resolution::line_limit, crate::specs::Resolution::row_of, crate::specs::Resolution::rows_from, crate::specs::Resolution::rows_by, crate::specs::Resolution::rows_behind, crate::specs::Resolution::all_rows, crate::specs::Entries::entry_of, crate::specs::Listing::shown, crate::specs::Listing::listing_over, crate::specs::Listing::control_path_at, crate::specs::Options::forward_words, crate::specs::CommandLine::steps_from, crate::specs::CommandLine::walk_from, crate::specs::CommandLine::command_of, crate::specs::Reading::reading, crate::specs::Reading::drill_of, crate::specs::Reading::seed_limit, crate::specs::Diagnostics::text_of, crate::specs::Diagnostics::line_of, crate::specs::Tokens::digest, sha1::specs::Sha1::sha1, sha1::specs::Sha1::hash_after, sha1::specs::Sha1::digest_bytes, sha1::specs::Sha1::compress, sha1::specs::Sha1::rounds, sha1::specs::Sha1::schedule, sha1::specs::Sha1::first_words, hex::specs::Hex::encode_with))]
pub fn digest_of_a_connection()
    ensures digest { digest (codes "abc123") ≡ codes "6367c48dd193d56ea7b0baad25b19455e529f5ee" }
    ensures path { listed_values (codes "controlpath")
        (outcome (machine (record ann { host_name = Some (codes "a") })
        (file (codes "f") (codes "Port 1" ∷ codes "User 23" ∷ codes "ControlPath /tmp/%C" ∷ []) ∷
        [])) (list_file (codes "f") (codes "bc")))
        ≡ codes "/tmp/6367c48dd193d56ea7b0baad25b19455e529f5ee" ∷ [] }
{}
