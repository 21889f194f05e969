//! How many bytes at the front of a text are of one sort.
ghost use Rattle.std.specs.Prelude.{◌≡◌, ◌≤◌, length};
ghost use Rattle.std.specs.Char.{is_ascii_digit};
ghost use Rattle.std.specs.List.{prefix_len};
ghost use Rattle.graphql_tokens.specs.Bytes.{is_hex, is_name_byte, is_name_start};

/// Whether a name may begin with a byte.
pub(crate) fn is_name_start(byte: u8) -> bool
    ensures { result ≡ is_name_start byte }
{
    byte.is_ascii_lowercase() || byte.is_ascii_uppercase() || byte == b'_'
}

/// Whether a byte may stand in a name.
pub(crate) fn is_name_byte(byte: u8) -> bool
    ensures { result ≡ is_name_byte byte }
{
    is_name_start(byte) || byte.is_ascii_digit()
}

/// How many bytes at the front may stand in a name.
pub(crate) fn name_bytes(text: &[u8]) -> usize
    ensures same { result ≡ prefix_len is_name_byte text.now }
    ensures within { result ≤ length text.now }
{
    text.iter().take_while(|byte| is_name_byte(**byte)).count()
}

/// How many bytes at the front are decimal digits.
pub(crate) fn digits(text: &[u8]) -> usize
    ensures same { result ≡ prefix_len is_ascii_digit text.now }
    ensures within { result ≤ length text.now }
{
    text.iter().take_while(|byte| byte.is_ascii_digit()).count()
}

/// Whether a byte is a hexadecimal digit.
pub(crate) fn is_hex(byte: u8) -> bool
    ensures { result ≡ is_hex byte }
{
    byte.is_ascii_hexdigit()
}

/// How many bytes at the front are hexadecimal digits.
pub(crate) fn hex_digits(text: &[u8]) -> usize
    ensures same { result ≡ prefix_len is_hex text.now }
    ensures within { result ≤ length text.now }
{
    text.iter().take_while(|byte| is_hex(**byte)).count()
}
