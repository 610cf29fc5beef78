//! How an address is written as a host.
ghost use Rattle.std.specs.Prelude.{◌≡◌, ◌+◌, ◌*◌, ◌≤◌, ◌<◌, ◌++◌, length};
ghost use Rattle.socks_dialog.specs.Hosts.{decimal_digit, hex_digit, decimal, hexadecimal, dotted, grouped};

use ssh_fields::Small;

// A decimal digit.
fn digit_of(n: u8) -> u8
    ensures { result ≡ decimal_digit n }
{
    b'0' + n % 10
}

// Adds a byte in decimal.
fn push_decimal(text: &mut Small, byte: u8)
    requires { length text.old + 3 ≤ Small.CAPACITY }
    ensures text { text.new ≡ text.old ++ decimal byte }
    ensures short { length text.new ≤ length text.old + 3 }
{
    if byte >= 100 {
        text.push(&[digit_of(byte / 100)]);
    }
    if byte >= 10 {
        text.push(&[digit_of(byte / 10)]);
    }
    text.push(&[digit_of(byte)]);
}

/// An IPv4 address in dotted decimal.
pub fn dotted_decimal(address: &[u8]) -> Small
    requires { length address.now ≡ 4 }
    ensures { result ≡ dotted address.now }
{
    let mut text = Small::copy(b"");
    push_decimal(&mut text, address[0]);
    for byte in &address[1..] {
        text.push(b".");
        push_decimal(&mut text, *byte);
    }
    text
}

// A hexadecimal digit.
fn hex_digit_of(n: u16) -> u8
    ensures { result ≡ hex_digit n }
{
    let digit = (n % 16) as u8;
    if digit < 10 {
        b'0' + digit
    } else {
        b'a' - 10 + digit
    }
}

// Adds a group in hexadecimal, without leading zeros.
fn push_hexadecimal(text: &mut Small, group: u16)
    requires { length text.old + 4 ≤ Small.CAPACITY }
    ensures text { text.new ≡ text.old ++ hexadecimal group }
    ensures short { length text.new ≤ length text.old + 4 }
{
    if group >= 4096 {
        text.push(&[hex_digit_of(group / 4096)]);
    }
    if group >= 256 {
        text.push(&[hex_digit_of(group / 256)]);
    }
    if group >= 16 {
        text.push(&[hex_digit_of(group / 16)]);
    }
    text.push(&[hex_digit_of(group)]);
}

/// An IPv6 address as eight groups.
pub fn eight_groups(address: &[u8]) -> Small
    requires { length address.now ≡ 16 }
    ensures { result ≡ grouped address.now }
{
    let mut text = Small::copy(b"");
    push_hexadecimal(&mut text, u16::from_be_bytes([address[0], address[1]]));
    for i in 1..8 {
        text.push(b":");
        push_hexadecimal(
            &mut text,
            u16::from_be_bytes([address[2 * i], address[2 * i + 1]]),
        );
    }
    text
}
