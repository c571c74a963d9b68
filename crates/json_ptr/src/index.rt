ghost use Rattle.std.specs.Prelude.{◌≡◌, min, ◌^◌, ◌-◌, ◌+◌, ◌*◌};
ghost use Rattle.std.specs.Str.{all_ascii_digits};
ghost use Rattle.spec_documents.specs.Place.{index_number, is_index as is_index_text, is_dash as is_dash_text};

/// Whether the text is an index of a list (RFC 6901, section 4): `0`, or digits without a leading zero.
pub fn is_index(bytes: &[u8]) -> bool
    ensures { result ≡ is_index_text bytes.now }
{
    match bytes {
        [] => false,
        [digit] => digit.is_ascii_digit(),
        [first, rest @ ..] => {
            let starts = first.is_ascii_digit() && *first != 48;
            starts && all_digits(rest)
        }
    }
}

/// Whether the text is `-`, which names the place after the last item (RFC 6901, section 4).
pub fn is_dash(bytes: &[u8]) -> bool
    ensures { result ≡ is_dash_text bytes.now }
{
    bytes == b"-".as_slice()
}

fn all_digits(bytes: &[u8]) -> bool
    ensures { result ≡ all_ascii_digits bytes.now }
{
    for i in 0..bytes.len() {
        if !bytes[i].is_ascii_digit() {
            return false;
        }
    }
    true
}

/// The number that digits are, or the greatest `usize` where it is greater.
pub fn capped_number(bytes: &[u8]) -> usize
    ensures { result ≡ min (index_number bytes.now) (2 ^ 64 - 1) }
{
    let mut number: usize = 0;
    for i in 0..bytes.len() {
        number = next_number(number, bytes[i]);
    }
    number
}

fn next_number(number: usize, byte: u8) -> usize
    ensures { result ≡ min (10 * number + (byte - 48)) (2 ^ 64 - 1) }
{
    number
        .saturating_mul(10)
        .saturating_add(usize::from(byte.saturating_sub(48)))
}
