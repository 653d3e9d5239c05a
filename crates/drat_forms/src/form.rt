//! The form of a proof, which its first bytes tell.

ghost use Rattle.std.specs.Prelude.{◌≡◌};
ghost use Rattle.std.specs.Char.{is_ascii_digit};
ghost use Rattle.drat_forms.specs.Form.{form_behind_letter, form_behind_gap, form_behind_digits, form_of};

/// The form of a DRAT proof.
#[derive(Clone, Copy, Debug, PartialEq, Eq)]
pub enum Form {
    /// Decimal numbers, `d` before a deletion, and lines that begin with `c`.
    Text,
    /// `a` or `d`, and numbers of seven bits a byte.
    Binary,
}

/// Answers the form of a proof that begins with `d`, a space, perhaps a minus, and then these bytes, of which `some` digits are passed.
fn form_behind_digits(some: bool, bytes: &[u8]) -> Option<Form>
    ensures { result ≡ form_behind_digits some bytes.now }
{
    let Some((first, rest)) = bytes.split_first() else {
        return None;
    };
    if first.is_ascii_digit() {
        return form_behind_digits(true, rest);
    }
    if some && *first == b' ' {
        return Some(Form::Text);
    }
    Some(Form::Binary)
}

/// Answers the form of a proof that begins with `d`, a space and then these bytes.
fn form_behind_gap(bytes: &[u8]) -> Option<Form>
    ensures { result ≡ form_behind_gap bytes.now }
{
    let Some((first, rest)) = bytes.split_first() else {
        return None;
    };
    if *first == b'-' {
        return form_behind_digits(false, rest);
    }
    form_behind_digits(false, bytes)
}

/// Answers the form of a proof that begins with `d` and then these bytes.
fn form_behind_letter(bytes: &[u8]) -> Option<Form>
    ensures { result ≡ form_behind_letter bytes.now }
{
    let Some((first, rest)) = bytes.split_first() else {
        return None;
    };
    if *first == b' ' {
        return form_behind_gap(rest);
    }
    Some(Form::Binary)
}

/// Answers the form of a proof that begins with these bytes; `None` as long as they do not tell. `a` begins the binary form. `d` does,
/// unless a space, a number and a space follow, which in binary form would name one literal twice. All others begin a text.
pub(crate) fn form_of(bytes: &[u8]) -> Option<Form>
    ensures { result ≡ form_of bytes.now }
{
    let Some((first, rest)) = bytes.split_first() else {
        return None;
    };
    if *first == b'a' {
        return Some(Form::Binary);
    }
    if *first == b'd' {
        return form_behind_letter(rest);
    }
    Some(Form::Text)
}
