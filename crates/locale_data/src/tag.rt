//! Tags of locales.
ghost use Rattle.std.specs.{Prelude.{◌≡◌, ◌≤◌, length, nat_eq, IfSome, IsTrue}, Option.option_copied, List.starts_with};
ghost use Rattle.locale_data.specs.Tag.{tag_byte, compared, from_first, without_private_use, first_subtag, requested_system};

/// Returns how a byte is compared: letters in lower case, `_`, `.` and `@` as hyphens.
pub fn tag_byte(byte: u8) -> u8
    ensures { result ≡ tag_byte byte }
{
    match byte {
        b'_' | b'.' | b'@' => b'-',
        _ => byte.to_ascii_lowercase(),
    }
}

fn begins_with(tag: &[u8], text: &[u8]) -> bool
    ensures value { result ≡ starts_with nat_eq (compared tag.now) text.now }
    ensures long { IsTrue result → length text.now ≤ length tag.now }
{
    for (index, byte) in text.iter().enumerate() {
        if index >= tag.len() || tag_byte(tag[index]) != *byte {
            return false;
        }
    }
    true
}

fn from_first<'a>(text: &[u8], tag: &'a [u8]) -> Option<&'a [u8]>
    ensures value { option_copied result ≡ from_first text.now tag.now }
    ensures long { IfSome result (λ rest. length text.now ≤ length rest.now) }
{
    for index in 0..tag.len() {
        if begins_with(&tag[index..], text) {
            return Some(&tag[index..]);
        }
    }
    None
}

fn without_private_use(tag: &[u8]) -> &[u8]
    ensures { result.now ≡ without_private_use tag.now }
{
    for index in 0..tag.len() {
        if begins_with(&tag[index..], b"-x-") {
            return &tag[..index];
        }
    }
    tag
}

/// Returns what is before the first hyphen of a tag: the language `ru` of `ru-RU`.
pub fn first_subtag(tag: &[u8]) -> &[u8]
    ensures { result.now ≡ first_subtag tag.now }
{
    for (index, byte) in tag.iter().enumerate() {
        if tag_byte(*byte) == b'-' {
            return &tag[..index];
        }
    }
    tag
}

/// Returns the numbering system that a tag names: `deva` of `hi-u-nu-deva`. What follows `-x-` is for private use, and
/// names none.
pub fn requested_system(tag: &[u8]) -> Option<&[u8]>
    ensures { option_copied result ≡ requested_system tag.now }
{
    let extension = from_first(b"-u-", without_private_use(tag))?;
    let keyword = from_first(b"-nu-", &extension[2..])?;
    Some(first_subtag(&keyword[4..]))
}
