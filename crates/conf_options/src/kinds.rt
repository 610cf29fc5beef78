ghost use Rattle.std.specs.Prelude.{◌≡◌, find};
ghost use Rattle.conf_rules.specs.Texts.{same_word};
ghost use Rattle.conf_rules.specs.Keys.{key_of, keyword};
ghost use Rattle.conf_rules.specs.Keywords.{unchecked, meaning_of};
ghost use Rattle.std.specs.List.{list_any};
ghost use Rattle.conf_options.specs.Lengths.{keys_of_length, texts_of_length};

use conf_rules::{Key, KeyKind};

// The keys whose keywords have so many letters, in the order in which they are listed. (Lengths
// without a key have lines of their own for the proof, which goes over each length.)
fn keys_of_length(length: usize) -> &'static [Key]
    ensures { result.now ≡ keys_of_length length }
{
    match length {
        0 => &[],
        1 => &[],
        2 => &[],
        3 => &[Key::Tag],
        4 => &[Key::User, Key::Port],
        5 => &[],
        6 => &[Key::Tunnel],
        7 => &[Key::SendEnv],
        8 => &[Key::Hostname, Key::LogLevel],
        9 => &[Key::BatchMode, Key::ProxyJump],
        10 => &[Key::ForwardX11, Key::RequestTTY],
        11 => &[
            Key::BindAddress,
            Key::CheckHostIP,
            Key::Compression,
            Key::ControlPath,
        ],
        12 => &[
            Key::ForwardAgent,
            Key::GatewayPorts,
            Key::HostKeyAlias,
            Key::IdentityFile,
            Key::LocalCommand,
            Key::LocalForward,
            Key::ProxyCommand,
            Key::TCPKeepAlive,
        ],
        13 => &[
            Key::AddressFamily,
            Key::BindInterface,
            Key::IdentityAgent,
            Key::IgnoreUnknown,
            Key::RemoteCommand,
            Key::RemoteForward,
            Key::VisualHostKey,
        ],
        14 => &[
            Key::ConnectTimeout,
            Key::DynamicForward,
            Key::HashKnownHosts,
            Key::IdentitiesOnly,
        ],
        15 => &[Key::CertificateFile],
        16 => &[],
        17 => &[],
        18 => &[Key::ConnectionAttempts, Key::PermitLocalCommand],
        19 => &[
            Key::ClearAllForwardings,
            Key::ServerAliveCountMax,
            Key::ServerAliveInterval,
        ],
        20 => &[Key::ExitOnForwardFailure, Key::PubkeyAuthentication],
        21 => &[Key::StrictHostKeyChecking],
        22 => &[Key::PasswordAuthentication],
        23 => &[Key::HostbasedAuthentication, Key::NumberOfPasswordPrompts],
        _ => &[],
    }
}

// Whether a word is one of these, in any case.
fn is_any(word: &[u8], others: &[&[u8]]) -> bool
    ensures { result ≡ list_any (λ other. same_word word.now other.now) others.now }
{
    others.iter().any(|other| word.eq_ignore_ascii_case(other))
}

// Whether a word of so many letters is a keyword whose rest isn't checked. (As above, each length
// has a line of its own for the proof.)
fn is_unchecked_of(length: usize, word: &[u8]) -> bool
    ensures { result ≡ list_any (same_word word.now) (texts_of_length length) }
{
    match length {
        0 => false,
        1 => false,
        2 => false,
        3 => false,
        4 => is_any(word, &[b"macs"]),
        5 => is_any(word, &[b"ipqos"]),
        6 => is_any(word, &[b"cipher", b"setenv"]),
        7 => is_any(word, &[b"ciphers"]),
        8 => is_any(word, &[b"protocol"]),
        9 => is_any(word, &[b"stdinnull"]),
        10 => is_any(
            word,
            &[b"escapechar", b"logverbose", b"rekeylimit", b"useroaming"],
        ),
        11 => is_any(word, &[b"sessiontype"]),
        12 => is_any(word, &[b"tunneldevice"]),
        13 => is_any(
            word,
            &[b"controlmaster", b"kexalgorithms", b"xauthlocation"],
        ),
        14 => is_any(
            word,
            &[
                b"addkeystoagent",
                b"channeltimeout",
                b"controlpersist",
                b"gssapitrustdns",
                b"pkcs11provider",
                b"proxyusefdpass",
                b"syslogfacility",
                b"updatehostkeys",
            ],
        ),
        15 => is_any(
            word,
            &[b"fingerprinthash", b"requiredrsasize", b"revokedhostkeys"],
        ),
        16 => is_any(
            word,
            &[
                b"canonicaldomains",
                b"compressionlevel",
                b"enablesshkeysign",
                b"permitremoteopen",
                b"verifyhostkeydns",
            ],
        ),
        17 => is_any(
            word,
            &[
                b"forwardx11timeout",
                b"forwardx11trusted",
                b"gssapikeyexchange",
                b"hostbasedkeytypes",
                b"hostkeyalgorithms",
                b"knownhostscommand",
                b"rsaauthentication",
                b"useprivilegedport",
            ],
        ),
        18 => is_any(word, &[b"userknownhostsfile"]),
        19 => is_any(
            word,
            &[
                b"canonicalizemaxdots",
                b"gssapikexalgorithms",
                b"securitykeyprovider",
                b"streamlocalbindmask",
            ],
        ),
        20 => is_any(
            word,
            &[
                b"canonicalizehostname",
                b"globalknownhostsfile",
                b"gssapiauthentication",
            ],
        ),
        21 => is_any(
            word,
            &[
                b"casignaturealgorithms",
                b"kbdinteractivedevices",
                b"streamlocalbindunlink",
            ],
        ),
        22 => is_any(
            word,
            &[b"obscurekeystroketiming", b"pubkeyacceptedkeytypes"],
        ),
        23 => is_any(
            word,
            &[
                b"enableescapecommandline",
                b"forkafterauthentication",
                b"rhostsrsaauthentication",
            ],
        ),
        24 => is_any(
            word,
            &[b"preferredauthentications", b"pubkeyacceptedalgorithms"],
        ),
        25 => is_any(
            word,
            &[b"canonicalizefallbacklocal", b"gssapidelegatecredentials"],
        ),
        26 => false,
        27 => is_any(
            word,
            &[
                b"canonicalizepermittedcnames",
                b"hostbasedacceptedalgorithms",
            ],
        ),
        28 => is_any(word, &[b"kbdinteractiveauthentication"]),
        29 => false,
        30 => false,
        31 => is_any(word, &[b"challengeresponseauthentication"]),
        32 => is_any(word, &[b"nohostauthenticationforlocalhost"]),
        _ => false,
    }
}

// The first of these keys that has this keyword, in any case.
fn find_key(keys: &[Key], word: &[u8]) -> Option<Key>
    ensures { result ≡ find (λ key. same_word word.now (keyword key)) keys.now }
{
    keys.iter()
        .copied()
        .find(|key| word.eq_ignore_ascii_case(key.keyword()))
}

// The key of a keyword, in any case.
fn key_of(word: &[u8]) -> Option<Key>
    ensures { result ≡ key_of word.now }
{
    find_key(keys_of_length(word.len()), word)
}

// Whether a word is a keyword whose rest isn't checked, in any case.
fn is_unchecked(word: &[u8]) -> bool
    ensures { result ≡ list_any (same_word word.now) unchecked }
{
    is_unchecked_of(word.len(), word)
}

/// What a keyword is, in any case. It allocates no memory.
#[tactic(auto, unfolding(conf_rules::specs::Keywords::meaning_of))]
pub fn kind_of(keyword: &[u8]) -> KeyKind
    ensures { result ≡ meaning_of keyword.now }
{
    if let Some(key) = key_of(keyword) {
        return KeyKind::Key(key);
    }
    if keyword.eq_ignore_ascii_case(b"host") {
        KeyKind::Host
    } else if keyword.eq_ignore_ascii_case(b"match") {
        KeyKind::Match
    } else if keyword.eq_ignore_ascii_case(b"include") {
        KeyKind::Include
    } else if is_unchecked(keyword) {
        KeyKind::Unchecked
    } else {
        KeyKind::Unknown
    }
}
