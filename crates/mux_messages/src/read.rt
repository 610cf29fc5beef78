ghost use Rattle.std.specs.Prelude.{◌≡◌, ◌<◌, ◌^◌, ℕ, List, length, IfOk, IfErr, OnOk, Ok, Err};
ghost use Rattle.ssh_grammar.specs.Gives.{Gives};
ghost use Rattle.ssh_grammar.specs.ReadControl.{on_pairs, read_id, read_unread, read_hello, read_forward, read_unknown, control_forms, read_control as reading};
ghost use Rattle.ssh_grammar.specs.Tables.{by_number};
ghost use Rattle.ssh_grammar.specs.IsControl.{SpellsControl};
ghost use Rattle.ssh_grammar.specs.Control as grammar;
ghost use Rattle.mux_messages.specs.Control.{GivesControl, Skipped, ArePairs, AreNoPairs, control_of, grammar_ask_of};

use crate::control::Control;
use mux_outside::FwdAsk;
use ssh_fields::FieldReader;
use ssh_grammar::BadControl;
use ssh_grammar::numbers::*;

// An id, and nothing after it.
fn id(fields: &mut FieldReader<'_>) -> Result<u32, BadControl>
    requires { fields.old.at ≡ 4 }
    ensures { (message : ℕ → grammar.Control)
        → Gives message result (read_id message fields.old.cursor) }
{
    let id = fields.take_u32()?;
    fields.end()?;
    Ok(id)
}

// An id; what follows it isn't read.
fn id_alone(fields: &mut FieldReader<'_>) -> Result<u32, BadControl>
    requires { fields.old.at ≡ 4 }
    ensures { (message : ℕ → List ℕ → grammar.Control)
        → Gives (λ id. message id fields.new.cursor) result
        (read_unread message fields.old.cursor) }
{
    let id = fields.take_u32()?;
    Ok(id)
}

// An id, and what is to be forwarded.
fn forward<'a>(fields: &mut FieldReader<'a>) -> Result<(u32, FwdAsk<'a>), BadControl>
    requires { fields.old.at ≡ 4 }
    ensures { (message : ℕ → grammar.ForwardAsk → grammar.Control)
        → Gives (λ x. message x.0 (grammar_ask_of x.1)) result (read_forward message fields.old.cursor) }
{
    let id = fields.take_u32()?;
    let kind = fields.take_u32()?;
    let listen_host = fields.take_string()?;
    let listen_port = fields.take_u32()?;
    let connect_host = fields.take_string()?;
    let connect_port = fields.take_u32()?;
    fields.end()?;
    let what = FwdAsk {
        kind,
        listen_host,
        listen_port,
        connect_host,
        connect_port,
    };
    Ok((id, what))
}

// Pairs of name and value up to the end.
fn skip_extensions(fields: &mut FieldReader<'_>) -> Result<(), BadControl>
    ensures ok { OnOk result (ArePairs fields.old.cursor fields.old.at) }
    ensures err { IfErr result (λ e. AreNoPairs fields.old.cursor fields.old.at e) }
{
    while !fields.cursor.is_empty() {
        fields.take_string()?;
        fields.take_string()?;
    }
    Ok(())
}

// A version, and extensions that are skipped.
fn hello<'a>(fields: &mut FieldReader<'a>) -> Result<Control<'a>, BadControl>
    requires { fields.old.at ≡ 4 }
    ensures { GivesControl result (read_hello fields.old.cursor) }
{
    let version = fields.take_u32()?;
    skip_extensions(fields)?;
    Ok(Control::Hello { version })
}

// A type that no client sends, with the id after it, if there is one.
fn unknown(kind: u32, fields: &mut FieldReader<'_>) -> BadControl
    ensures { read_unknown kind fields.old.cursor ≡ Err result }
{
    let id = fields.take_u32().ok();
    BadControl::Unknown { kind, id }
}

// A control message, by its type.
fn by_type<'a>(kind: u32, fields: &mut FieldReader<'a>) -> Result<Control<'a>, BadControl>
    requires { fields.old.at ≡ 4 }
    ensures { GivesControl result (by_number control_forms kind (read_unknown kind) fields.old.cursor) }
{
    match kind {
        HELLO => hello(fields),
        NEW_SESSION => {
            let id = id_alone(fields)?;
            Ok(Control::NewSession { id })
        }
        ALIVE_CHECK => {
            let id = id(fields)?;
            Ok(Control::Alive { id })
        }
        TERMINATE => {
            let id = id(fields)?;
            Ok(Control::Terminate { id })
        }
        OPEN_FWD => {
            let (id, what) = forward(fields)?;
            Ok(Control::OpenForward { id, what })
        }
        CLOSE_FWD => {
            let (id, what) = forward(fields)?;
            Ok(Control::CloseForward { id, what })
        }
        NEW_STDIO_FWD => {
            let id = id_alone(fields)?;
            Ok(Control::StdioForward { id })
        }
        STOP_LISTENING => {
            let id = id(fields)?;
            Ok(Control::StopListening { id })
        }
        PROXY => {
            let id = id(fields)?;
            Ok(Control::Proxy { id })
        }
        _ => Err(unknown(kind, fields)),
    }
}

fn control(body: &[u8]) -> Result<Control<'_>, BadControl>
    ensures { GivesControl result (reading body.now) }
{
    let mut fields = FieldReader::new(body, 0);
    let kind = fields.take_u32()?;
    by_type(kind, &mut fields)
}

/// The control message that a body is, all of the body; or its first fault from left to right, and
/// the fault's place.
pub fn read_control(body: &[u8]) -> Result<Control<'_>, BadControl>
    // What is read is spelled so.
    ensures spelled { IfOk result (λ c. (skipped : Skipped)
        × SpellsControl (control_of skipped c) body.now) }
    // What is spelled so is read.
    ensures only { (c : grammar.Control) → SpellsControl c body.now → GivesControl result (Ok c) }
    // Which fault it is.
    ensures exact { GivesControl result (reading body.now) }
{
    control(body)
}
