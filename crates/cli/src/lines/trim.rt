//! What `trim` leaves out of a conversion: blanks and tabs around a text, and what is around the bytes of a line.
ghost use Rattle.std.specs.{Prelude.{◌≡◌, ◌-◌, ◌≤◌, length}, List.{prefix_len, suffix_len}, Io.BufRead.strip_last};
ghost use Rattle.cli.specs.Trim.{is_blank, trimmed_bounds, text_of, body_bounds};

/// U+FEFF in UTF-8.
const BYTE_ORDER_MARK: [u8; 3] = [0xEF, 0xBB, 0xBF];

fn is_blank(byte: u8) -> bool
    ensures { result ≡ is_blank byte }
{
    byte == b' ' || byte == b'\t'
}

fn text_start(bytes: &[u8]) -> usize
    ensures value { result ≡ prefix_len is_blank bytes.now }
    ensures inside { result ≤ length bytes.now }
{
    for at in 0..bytes.len() {
        if !is_blank(bytes[at]) {
            return at;
        }
    }
    bytes.len()
}

fn text_end(bytes: &[u8]) -> usize
    ensures value { result ≡ length bytes.now - suffix_len is_blank bytes.now }
    ensures inside { result ≤ length bytes.now }
{
    let mut end = bytes.len();
    while end > 0 {
        if !is_blank(bytes[end - 1]) {
            return end;
        }
        end -= 1;
    }
    0
}

/// Returns the start and the end of the text between the blanks and tabs around it.
pub fn trimmed_bounds(bytes: &[u8]) -> (usize, usize)
    ensures value { result ≡ trimmed_bounds bytes.now }
    ensures ordered { result.0 ≤ result.1 }
    ensures inside { result.1 ≤ length bytes.now }
{
    let start = text_start(bytes);
    let rest = &bytes[start..];
    (start, start + text_end(rest))
}

/// Returns the text of these bytes: if it is trimmed, without the blanks and tabs around it.
#[inline]
pub fn text_of(trims: bool, bytes: &[u8]) -> &[u8]
    ensures { result.now ≡ text_of trims bytes.now }
{
    if !trims {
        return bytes;
    }
    let bounds = trimmed_bounds(bytes);
    &bytes[bounds.0..bounds.1]
}

/// Returns the line without a carriage return at its end.
pub fn without_return(line: &[u8]) -> &[u8]
    ensures { result.now ≡ strip_last 13 line.now }
{
    let len = line.len();
    if len > 0 && line[len - 1] == b'\r' {
        return &line[..len - 1];
    }
    line
}

/// Returns the start and the end of the bytes of the line with this number that are converted: if they are trimmed,
/// without a byte order mark at the start of the input, and without a carriage return at the end of the line.
#[inline]
pub fn body_bounds(trims: bool, number: u64, line: &[u8]) -> (usize, usize)
    ensures value { result ≡ body_bounds trims number line.now }
    ensures ordered { result.0 ≤ result.1 }
    ensures inside { result.1 ≤ length line.now }
{
    if !trims {
        return (0, line.len());
    }
    let bytes = without_return(line);
    if number == 1 && bytes.starts_with(&BYTE_ORDER_MARK) {
        return (3, bytes.len());
    }
    (0, bytes.len())
}
