//! Names of hosts, and the rows that `getent ahosts` writes of one.
ghost use Rattle.std.specs.Prelude.{◌≡◌, ◌==◌, ◌≤◌, ◌-◌, not, length, drop, [], MatchOption, IfOk, OnOk};
ghost use Rattle.std.specs.List.{list_all, prefix_len};
ghost use Rattle.std.specs.declared.net.ip_addr.IpAddr.{IpAddr};
ghost use Rattle.mux_edge.specs.Names.{AddsRow, AddsRows, IsStreamRow, begins_name, is_name, is_name_byte, lines_of};

use std::alloc::{AllocError, Global};
use std::net::IpAddr;

// The longest name of a host.
const LONGEST_NAME: usize = 255;

// What stands in a row after an address for a stream.
const STREAM: &[u8] = b"STREAM";

/// Whether a host may be looked up: it is a name of at most 255 bytes that no program reads as an
/// option.
pub fn is_name(host: &[u8]) -> bool
    ensures { result ≡ is_name host.now }
{
    begins_name(host) && (host.len() <= LONGEST_NAME && is_of_name_bytes(host))
}

// Whether there is a first byte, and it is no dash.
fn begins_name(host: &[u8]) -> bool
    ensures { result ≡ begins_name host.now }
{
    match host {
        [] => false,
        [first, ..] => !(*first == b'-'),
    }
}

// Whether a name may have each of these bytes.
fn is_of_name_bytes(host: &[u8]) -> bool
    ensures { result ≡ list_all is_name_byte host.now }
{
    host.iter().all(|byte| is_name_byte(*byte))
}

// Whether a name may have this byte.
fn is_name_byte(byte: u8) -> bool
    ensures { result ≡ is_name_byte byte }
{
    byte.is_ascii_alphanumeric() || (byte == b'.' || (byte == b'-' || byte == b'_'))
}

/// The addresses of which a look-up wrote that a stream can have them, in their order.
pub fn addresses_of(alloc: Global, output: &[u8]) -> Result<Vec<IpAddr>, AllocError>
    ensures { IfOk result (λ found. AddsRows (lines_of output.now) [] found.items) }
{
    let mut found = Vec::new(alloc);
    let mut rest = output;
    while !rest.is_empty() {
        let (line, behind) = rest.split_at(line_len(rest));
        add_row(&mut found, line)?;
        rest = behind_end(behind);
    }
    Ok(found)
}

// What stands after the end of a line, where it has one.
fn behind_end(behind: &[u8]) -> &[u8]
    ensures rest { result.now ≡ drop 1 behind.now }
    ensures len { length result.now ≡ length behind.now - 1 }
{
    match behind {
        [] => behind,
        [_, rest @ ..] => rest,
    }
}

// Adds the address of a row.
fn add_row(found: &mut Vec<IpAddr>, line: &[u8]) -> Result<(), AllocError>
    ensures { OnOk result (AddsRow line.now found.old.items found.new.items) }
{
    if let Some(address) = address_in(line) {
        found.push(address)?;
    }
    Ok(())
}

// The address that a line is a row of, for a stream.
fn address_in(line: &[u8]) -> Option<IpAddr>
    ensures { MatchOption result ((ip : IpAddr) → ¬ (IsStreamRow line.now ip))
        (IsStreamRow line.now) }
{
    let (column, behind) = line.split_at(column_len(line));
    if !behind[blanks(behind)..].starts_with(STREAM) {
        return None;
    }
    IpAddr::parse_ascii(column).ok()
}

// How many bytes stand before the first end of a line.
fn line_len(bytes: &[u8]) -> usize
    ensures count { result ≡ prefix_len (λ b. not (b == 10)) bytes.now }
    ensures within { result ≤ length bytes.now }
{
    bytes.iter().take_while(|b| !(**b == b'\n')).count()
}

// How many bytes stand before the first blank.
fn column_len(bytes: &[u8]) -> usize
    ensures count { result ≡ prefix_len (λ b. not (b == 32)) bytes.now }
    ensures within { result ≤ length bytes.now }
{
    bytes.iter().take_while(|b| !(**b == b' ')).count()
}

// How many blanks stand at the front.
fn blanks(bytes: &[u8]) -> usize
    ensures count { result ≡ prefix_len (λ b. b == 32) bytes.now }
    ensures within { result ≤ length bytes.now }
{
    bytes.iter().take_while(|b| **b == b' ').count()
}
