ghost use Rattle.std.specs.Prelude.{◌≡◌, ℕ, ◌++◌, OnOk, IfOk};
ghost use Rattle.std.specs.List.{flat_map};
ghost use Rattle.conf_rules.specs.Numbers.{digits_of};
ghost use Rattle.conf_rules.specs.Forwardings.{spelled_end};
ghost use Rattle.conf_rules.specs.Values.{spelled_value};
ghost use Rattle.conf_rules.specs.Listing.{listed_line};
ghost use Rattle.conf_output.specs.Shown.{spelled_forward};

use conf_rules::{End, Forward, Value};
use conf_tokens::put_number;
use ssh_fields::{OutOfMemory, Text, Texts};
use std::alloc::Global;

// An end of a forwarding.
fn put_end(alloc: Global, out: &mut Text, end: &End) -> Result<(), OutOfMemory>
    ensures { OnOk result (out.new ≡ out.old ++ spelled_end end.now) }
{
    match end {
        End::Path(path) => out.add(path.as_bytes()),
        End::Port { host: None, port } => put_number(alloc, out, u64::from(*port)),
        End::Port {
            host: Some(host),
            port,
        } => {
            out.push(b'[')?;
            out.add(host.as_bytes())?;
            out.add(b"]:")?;
            put_number(alloc, out, u64::from(*port))
        }
    }
}

// The text of a forwarding.
fn forward_text(alloc: Global, forward: &Forward) -> Result<Text, OutOfMemory>
    ensures { IfOk result (λ text. text ≡ spelled_forward forward.now) }
{
    let mut text = Text::new(alloc);
    put_end(alloc, &mut text, &forward.listen)?;
    if let Some(connect) = &forward.connect {
        text.push(b' ')?;
        put_end(alloc, &mut text, connect)?;
    }
    Ok(text)
}

/// A line of the listing.
pub fn put_line(out: &mut Text, name: &[u8], text: &[u8]) -> Result<(), OutOfMemory>
    ensures { OnOk result (out.new ≡ out.old ++ listed_line name.now text.now) }
{
    out.add(name)?;
    out.push(b' ')?;
    out.add(text)?;
    out.push(b'\n')
}

// A line with a number.
fn put_number_line(
    alloc: Global,
    out: &mut Text,
    name: &[u8],
    number: u64,
) -> Result<(), OutOfMemory>
    ensures { OnOk result (out.new ≡ out.old ++ listed_line name.now (digits_of number)) }
{
    out.add(name)?;
    out.push(b' ')?;
    put_number(alloc, out, number)?;
    out.push(b'\n')
}

// A line for each name.
fn put_names(out: &mut Text, name: &[u8], names: &[Text]) -> Result<(), OutOfMemory>
    ensures { OnOk result (out.new ≡ out.old ++ flat_map (listed_line name.now) names.now) }
{
    for text in names {
        put_line(out, name, text.as_bytes())?;
    }
    Ok(())
}

/// The lines of a value.
pub fn put_value(
    alloc: Global,
    out: &mut Text,
    name: &[u8],
    value: &Value,
) -> Result<(), OutOfMemory>
    ensures { OnOk result (out.new ≡ out.old ++ flat_map (listed_line name.now) (spelled_value value.now)) }
{
    match value {
        Value::Flag(true) => put_line(out, name, b"yes"),
        Value::Flag(false) => put_line(out, name, b"no"),
        Value::Number(number) => put_number_line(alloc, out, name, *number),
        Value::Seconds(None) => put_line(out, name, b"none"),
        Value::Seconds(Some(seconds)) => put_number_line(alloc, out, name, *seconds),
        Value::Word(text) => put_line(out, name, text.as_bytes()),
        Value::Names(names) => put_names(out, name, names.as_slice()),
        Value::Forward(forward) => {
            let text = forward_text(alloc, forward)?;
            put_line(out, name, text.as_bytes())
        }
    }
}
