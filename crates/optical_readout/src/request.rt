//! Requests and option selects.
ghost use Rattle.std.specs.Prelude.{◌≡◌, ◌≤◌, ◌↔◌, ◌⊎◌, ℕ, List, [], IsTrue, MatchOption};
ghost use Rattle.parts_model.specs.Ranges.{max_serial};
ghost use Rattle.display_model.specs.Display.{eight_digits};
ghost use Rattle.meter_config.specs.Views.{config_view};
ghost use Rattle.optical_model.specs.Requests.{IsAddress, IsDataSelect, IsRequest, is_address_byte, request};
ghost use Rattle.optical_model.specs.Requests as model;

use energy_register::digits_text;
use meter_config::Config;

/// The most bytes of an address.
const MAX_ADDRESS: usize = 32;

/// Acknowledge, the byte that an option select begins with.
const ACK: u8 = 0x06;

/// Whether a message is a request to this meter.
pub(crate) fn is_request(message: &[u8], c: &Config) -> bool
    ensures { IsTrue result ↔ IsRequest (config_view c.now) message.now }
{
    match address_of(message) {
        Some(address) => is_own(address, c.serial),
        None => false,
    }
}

/// Whether a message is an option select for the data message.
pub(crate) fn is_data_select(message: &[u8]) -> bool
    ensures { IsTrue result ↔ IsDataSelect message.now }
{
    matches!(message, [ACK, b'0', b'0'..=b'6', b'0', b'\r', b'\n'])
}

// The address of a request, where the message is one.
fn address_of(message: &[u8]) -> Option<&[u8]>
    ensures { MatchOption result
        ((address : List ℕ) → IsAddress address → message.now ≡ request address → ⊥)
        (λ address. IsAddress address.now × (message.now ≡ request address.now)) }
{
    let address = message.strip_prefix(b"/?")?.strip_suffix(b"!\r\n")?;
    if is_address(address) {
        Some(address)
    } else {
        None
    }
}

fn is_address(text: &[u8]) -> bool
    ensures { IsTrue result ↔ IsAddress text.now }
{
    text.len() <= MAX_ADDRESS && text.iter().all(|byte| is_address_byte(*byte))
}

fn is_address_byte(byte: u8) -> bool
    ensures { result ≡ is_address_byte byte }
{
    byte.is_ascii_alphanumeric() || byte == b' '
}

// Whether an address is empty, or the serial number but for zeros at the front of either.
fn is_own(address: &[u8], serial: u32) -> bool
    requires { serial ≤ max_serial }
    ensures { IsTrue result ↔ ((address.now ≡ [])
        ⊎ (model.without_zeros address.now ≡ model.without_zeros (eight_digits serial))) }
{
    let digits = digits_text(serial, 0);
    address.is_empty() || without_zeros(address) == without_zeros(digits.as_str().as_bytes())
}

fn without_zeros(text: &[u8]) -> &[u8]
    ensures { result.now ≡ model.without_zeros text.now }
{
    match text.iter().position(|byte| *byte != b'0') {
        Some(first) => &text[first..],
        None => &[],
    }
}
