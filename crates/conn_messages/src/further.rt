ghost use Rattle.ssh_grammar.specs.Gives.{Gives};
ghost use Rattle.ssh_grammar.specs.ReadMessage.{read_key, read_path, read_global, read_ends, read_direct_path, read_forwarded_path, read_opens};
ghost use Rattle.ssh_grammar.specs.Messages as grammar;
ghost use Rattle.conn_messages.specs.Keys.{key_of};
ghost use Rattle.conn_messages.specs.Message.{opening_of, grammar_request_of};

use crate::key::Key;
use crate::message::{Opening, Request};
use ssh_fields::FieldReader;
use ssh_grammar::Bad;

const FORWARD: &[u8] = b"tcpip-forward";

pub(crate) const CANCEL: &[u8] = b"cancel-tcpip-forward";

const FORWARD_PATH: &[u8] = b"streamlocal-forward@openssh.com";

pub(crate) const CANCEL_PATH: &[u8] = b"cancel-streamlocal-forward@openssh.com";

const KEEP_ALIVE: &[u8] = b"keepalive@openssh.com";

// An address and a port, and nothing after them.
fn port_key<'a>(fields: &mut FieldReader<'a>) -> Result<Key<'a>, Bad>
    ensures { (what : grammar.Key → grammar.Global)
        → Gives (λ k. what (key_of k)) result (read_key fields.old.cursor fields.old.at what) }
{
    let address = fields.take_string()?;
    let port = fields.take_u32()?;
    fields.end()?;
    Ok(Key::Tcp { address, port })
}

fn forward<'a>(fields: &mut FieldReader<'a>) -> Result<Request<'a>, Bad>
    ensures { Gives grammar_request_of result (read_key fields.old.cursor fields.old.at grammar.Forward) }
{
    let key = port_key(fields)?;
    Ok(Request::Forward(key))
}

fn cancel<'a>(fields: &mut FieldReader<'a>) -> Result<Request<'a>, Bad>
    ensures { Gives grammar_request_of result (read_key fields.old.cursor fields.old.at grammar.Cancel) }
{
    let key = port_key(fields)?;
    Ok(Request::Cancel(key))
}

// A path, and nothing after it.
fn path_key<'a>(fields: &mut FieldReader<'a>) -> Result<Key<'a>, Bad>
    ensures { (what : grammar.Key → grammar.Global)
        → Gives (λ k. what (key_of k)) result (read_path fields.old.cursor fields.old.at what) }
{
    let path = fields.take_string()?;
    fields.end()?;
    Ok(Key::Path(path))
}

fn forward_path<'a>(fields: &mut FieldReader<'a>) -> Result<Request<'a>, Bad>
    ensures { Gives grammar_request_of result (read_path fields.old.cursor fields.old.at grammar.Forward) }
{
    let key = path_key(fields)?;
    Ok(Request::Forward(key))
}

fn cancel_path<'a>(fields: &mut FieldReader<'a>) -> Result<Request<'a>, Bad>
    ensures { Gives grammar_request_of result (read_path fields.old.cursor fields.old.at grammar.Cancel) }
{
    let key = path_key(fields)?;
    Ok(Request::Cancel(key))
}

// A global request's data, by its name.
pub(crate) fn request_data<'a>(
    name: &[u8],
    fields: &mut FieldReader<'a>,
) -> Result<Request<'a>, Bad>
    ensures { Gives grammar_request_of result (read_global name.now fields.old.cursor fields.old.at) }
{
    if name == FORWARD {
        forward(fields)
    } else if name == CANCEL {
        cancel(fields)
    } else if name == FORWARD_PATH {
        forward_path(fields)
    } else if name == CANCEL_PATH {
        cancel_path(fields)
    } else if name == KEEP_ALIVE {
        Ok(Request::KeepAlive)
    } else {
        Ok(Request::Other)
    }
}

const SESSION: &[u8] = b"session";

const DIRECT: &[u8] = b"direct-tcpip";

const FORWARDED: &[u8] = b"forwarded-tcpip";

const DIRECT_PATH: &[u8] = b"direct-streamlocal@openssh.com";

const FORWARDED_PATH: &[u8] = b"forwarded-streamlocal@openssh.com";

// A host and a port, those of the originator, and nothing after them.
fn port_end<'a>(fields: &mut FieldReader<'a>) -> Result<Key<'a>, Bad>
    ensures { (what : grammar.Key → grammar.Opens)
        → Gives (λ k. what (key_of k)) result (read_ends fields.old.cursor fields.old.at what) }
{
    let address = fields.take_string()?;
    let port = fields.take_u32()?;
    fields.take_string()?;
    fields.take_u32()?;
    fields.end()?;
    Ok(Key::Tcp { address, port })
}

fn direct<'a>(fields: &mut FieldReader<'a>) -> Result<Opening<'a>, Bad>
    ensures { Gives opening_of result (read_ends fields.old.cursor fields.old.at grammar.Direct) }
{
    let key = port_end(fields)?;
    Ok(Opening::Direct(key))
}

fn forwarded<'a>(fields: &mut FieldReader<'a>) -> Result<Opening<'a>, Bad>
    ensures { Gives opening_of result
        (read_ends fields.old.cursor fields.old.at grammar.Forwarded) }
{
    let key = port_end(fields)?;
    Ok(Opening::Forwarded(key))
}

// A path, a reserved text and a reserved number, and nothing after them.
fn direct_path<'a>(fields: &mut FieldReader<'a>) -> Result<Opening<'a>, Bad>
    ensures { Gives opening_of result (read_direct_path fields.old.cursor fields.old.at) }
{
    let path = fields.take_string()?;
    fields.take_string()?;
    fields.take_u32()?;
    fields.end()?;
    Ok(Opening::Direct(Key::Path(path)))
}

// A path and a reserved text, and nothing after them.
fn forwarded_path<'a>(fields: &mut FieldReader<'a>) -> Result<Opening<'a>, Bad>
    ensures { Gives opening_of result (read_forwarded_path fields.old.cursor fields.old.at) }
{
    let path = fields.take_string()?;
    fields.take_string()?;
    fields.end()?;
    Ok(Opening::Forwarded(Key::Path(path)))
}

// An open's data, by its type.
pub(crate) fn opening_data<'a>(
    kind: &[u8],
    fields: &mut FieldReader<'a>,
) -> Result<Opening<'a>, Bad>
    ensures { Gives opening_of result (read_opens kind.now fields.old.cursor fields.old.at) }
{
    if kind == SESSION {
        Ok(Opening::Session)
    } else if kind == DIRECT {
        direct(fields)
    } else if kind == FORWARDED {
        forwarded(fields)
    } else if kind == DIRECT_PATH {
        direct_path(fields)
    } else if kind == FORWARDED_PATH {
        forwarded_path(fields)
    } else {
        Ok(Opening::Other)
    }
}
