//! The tag of a formatter that C keeps, for the texts of ranges.
ghost use Rattle.std.specs.Prelude.{◌≡◌, ◌≤◌, ◌==◌, ◌||◌, Bool, if◌then◌else◌, length};
ghost use Rattle.fixed_decimal_c.specs.KeptTags.{is_hyphen, kept_end, kept_tag, last_hyphen};

fn is_hyphen(byte: u8) -> bool
    ensures { result ≡ is_hyphen byte }
{
    byte == b'-' || byte == b'_' || byte == b'.' || byte == b'@'
}

fn later(is_hyphen: bool, index: usize, end: usize) -> usize
    ensures { result ≡ if is_hyphen then index else end }
{
    if is_hyphen { index } else { end }
}

fn last_hyphen(tag: &[u8]) -> usize
    requires { 17 ≤ length tag.now }
    ensures value { result ≡ last_hyphen tag.now 17 }
    ensures at_most { result ≤ 16 }
{
    let mut end = 0;
    for index in 0..17 {
        end = later(is_hyphen(tag[index]), index, end);
    }
    end
}

fn kept_end(tag: &[u8]) -> usize
    ensures value { result ≡ kept_end tag.now }
    ensures short { result ≤ 16 }
    ensures inside { result ≤ length tag.now }
{
    if tag.len() <= 16 {
        tag.len()
    } else {
        last_hyphen(tag)
    }
}

/// Returns a tag of at most 16 bytes, or else its first subtags, padded with spaces to 16 bytes.
pub(crate) fn kept_tag(tag: &[u8]) -> [u8; 16]
    ensures { result ≡ kept_tag tag.now }
{
    let mut kept = [b' '; 16];
    let end = kept_end(tag);
    kept[..end].copy_from_slice(&tag[..end]);
    kept
}
