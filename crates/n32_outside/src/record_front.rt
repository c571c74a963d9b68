// How a file of records may begin.
ghost use Rattle.std.specs.Prelude.{◌≡◌};
ghost use Rattle.n32_outside.specs.RecordFront as front;

/// Whether the bytes may be the front of a record's text: so far as they go, they are as each record's text begins.
///
/// A record's text is compact and has its members in the order of their names. So it begins with its `first`, where it has one, else with
/// `id` and `is`. An id is sixteen hexadecimal digits in lower case.
pub fn may_begin_record(text: &[u8]) -> bool
    ensures { result ≡ front.may_begin_record text.now }
{
    agrees(text, b"{\"id\":\"0000000000000000\",\"is\":\"") || agrees(text, b"{\"first\":0")
}

// Whether the text is as the pattern, so far as both go. A 0 of the pattern stands for any digit.
fn agrees(text: &[u8], pattern: &[u8]) -> bool
    ensures { result ≡ front.agrees text.now pattern.now }
{
    for i in 0..text.len() {
        if i >= pattern.len() {
            return true;
        }
        if !fits_byte(text[i], pattern[i]) {
            return false;
        }
    }
    true
}

fn fits_byte(byte: u8, wanted: u8) -> bool
    ensures { result ≡ front.fits_byte byte wanted }
{
    byte == wanted || (wanted == b'0' && matches!(byte, b'0'..=b'9' | b'a'..=b'f'))
}
