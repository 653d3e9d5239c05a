//! Names of files, as they are printed.

ghost use Rattle.std.specs.Prelude.{◌≡◌, codes, nat_eq, if◌then◌else◌};
ghost use Rattle.std.specs.List.{list_all, starts_with};
ghost use Rattle.explanations.specs.Names.{command_word, is_bare_lem, is_printed_lem};

/// Whether a byte is printed: it is no control character, and does not begin one.
fn is_printed(byte: u8) -> bool
    ensures { result ≡ is_printed_lem byte }
{
    byte >= b' ' && byte != 127 && byte != 194
}

/// Whether a name has no control character, which a terminal would obey.
fn is_harmless(name: &str) -> bool
    ensures { result ≡ list_all is_printed_lem name.now }
{
    name.as_bytes().iter().all(|byte| is_printed(*byte))
}

/// A name as it is printed: the name itself if it has no control character, else the text `other`.
pub fn shown<'a>(name: &'a str, other: &'a str) -> &'a str
    ensures { result.now ≡ (if list_all is_printed_lem name.now then name.now else other.now) }
{
    if is_harmless(name) { name } else { other }
}

/// Whether a shell takes a byte as itself.
fn is_bare(byte: u8) -> bool
    ensures { result ≡ is_bare_lem byte }
{
    byte.is_ascii_alphanumeric() || byte == b'/' || byte == b'.' || byte == b'_' || byte == b'-'
}

/// Whether a shell takes each byte of a name as itself.
fn has_bare_bytes(name: &str) -> bool
    ensures { result ≡ list_all is_bare_lem name.now }
{
    name.as_bytes().iter().all(|byte| is_bare(*byte))
}

/// Whether a command would take a name as an option: it begins with `-`.
fn begins_as_option(name: &str) -> bool
    ensures { result ≡ starts_with nat_eq name.now (codes "-") }
{
    name.as_bytes().starts_with(b"-")
}

/// A name as it is written in a command: the name itself if a shell takes it as it is, else `FILE`.
pub fn in_command(name: &str) -> &str
    ensures { result.now ≡ command_word name.now }
{
    if has_bare_bytes(name) && !begins_as_option(name) {
        name
    } else {
        "FILE"
    }
}
