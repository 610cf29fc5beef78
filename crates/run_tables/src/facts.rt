//! What a row knows of the machine.
use crate::trouble::Trouble;
use mux_outside::{Facts, Pairs};
use ssh_fields::Text;
use std::alloc::Global;

// What is known of the machine where a row says nothing else, beside its number 42 of the process.
const ANN: [(&str, &[u8]); 4] = [
    ("home", b"/h"),
    ("user", b"ann"),
    ("uid", b"1000"),
    ("host", b"a.b"),
];

/// The user `ann` with the number 1000 and the home `/h`, at the host `a.b`; the process id is 42.
pub fn ann(alloc: Global) -> Result<Facts, Trouble> {
    let mut facts = Facts {
        home: None,
        local_user: None,
        uid: None,
        host_name: None,
        vars: Pairs::new(alloc),
        pid: Some(42),
    };
    know_ann(&mut facts, alloc)?;
    Ok(facts)
}

// Takes what is known of ann.
fn know_ann(facts: &mut Facts, alloc: Global) -> Result<(), Trouble> {
    for (name, value) in &ANN {
        *fact(facts, name)? = Some(Text::copy(alloc, value)?);
    }
    Ok(())
}

/// The fact of a name.
pub fn fact<'a>(facts: &'a mut Facts, name: &str) -> Result<&'a mut Option<Text>, Trouble> {
    match name {
        "home" => Ok(&mut facts.home),
        "user" => Ok(&mut facts.local_user),
        "uid" => Ok(&mut facts.uid),
        "host" => Ok(&mut facts.host_name),
        _ => Err(Trouble::Unread),
    }
}

/// Forgets a fact by its name.
pub fn forget_fact(facts: &mut Facts, name: &str) -> Result<(), Trouble> {
    if name == "pid" {
        facts.pid = None;
    } else {
        *fact(facts, name)? = None;
    }
    Ok(())
}
