//! The kind of a file that was named as another one, by its first bytes (as `file` finds it) and by the line that has the fault; and how to
//! convert it to the wanted kind.

ghost use Rattle.std.specs.Prelude.{◌≡◌};
ghost use Rattle.std.specs.List.{list_all};
ghost use Rattle.std.specs.Option.{option_copied};
ghost use Rattle.explanations.specs.Looks.{after_step_lem, after_three_steps_lem, after_zero_lem, binary_look, ends_with_zero_lem, formula_look, is_drat_deletion_lem, is_drat_lemma_lem, is_of_numbers_lem, lacks_inner_zero_lem, look, mark, packing, proof_look, session_look, text_look};

use crate::sentences::Told;
use crate::table::Subject;
use memchr::{memchr, memmem};

/// The kind of a file that is not of the wanted kind.
#[derive(Clone, Copy)]
pub enum Look {
    /// A file packed by gzip.
    Gzip,
    /// A file packed by xz.
    Xz,
    /// A file packed by zstd.
    Zstd,
    /// A file packed by bzip2.
    Bzip2,
    /// A text after a byte order mark.
    ByteOrderMark,
    /// A text in UTF-16.
    Utf16,
    /// A program.
    Program,
    /// A page of the web.
    WebPage,
    /// A formula of MaxSAT.
    MaxSat,
    /// A formula with cubes.
    Icnf,
    /// Clauses without a header.
    Clauses,
    /// A proof in binary form, named as another file.
    BinaryProof,
    /// A binary file, named as a text.
    Binary,
    /// A DRAT proof in binary form.
    BinaryDrat,
    /// A FRAT proof in binary form.
    BinaryFrat,
    /// A DRAT proof.
    Drat,
    /// A FRAT proof, or a LIDRUP text.
    Frat,
    /// A VeriPB proof.
    VeriPb,
    /// A text whose lines end with CR and LF.
    LineEnds,
    /// A proof with comments.
    Comments,
}

impl Look {
    /// The two sentences for a kind of file: what the file is, and what to do.
    pub fn told(self) -> Told {
        let (sentence, remedy) = match self {
            Look::Gzip => ("It is packed by gzip.", "`gzip -dc FILE > NEW`"),
            Look::Xz => ("It is packed by xz.", "`xz -dc FILE > NEW`"),
            Look::Zstd => ("It is packed by zstd.", "`zstd -dc FILE > NEW`"),
            Look::Bzip2 => ("It is packed by bzip2.", "`bzip2 -dc FILE > NEW`"),
            Look::ByteOrderMark => (
                "It begins with a byte order mark.",
                "`tail -c +4 FILE > NEW`",
            ),
            Look::Utf16 => ("It is UTF-16.", "`iconv -f UTF-16 -t UTF-8 FILE > NEW`"),
            Look::Program => ("It is a program.", "Name the file that it wrote or reads."),
            Look::WebPage => (
                "It is a page of the web.",
                "Fetch the file itself, not the page about it.",
            ),
            Look::MaxSat => (
                "It is WCNF, of MaxSAT.",
                "A MaxSAT solver reads it; this one decides CNF.",
            ),
            Look::Icnf => (
                "It is iCNF, a formula with cubes.",
                "Name the DIMACS file that was split.",
            ),
            Look::Clauses => (
                "It begins with clauses.",
                "`awk '$1!=\"c\"{for(i=1;i<=NF;i++){v=$i<0?-$i:$i;if(v>m)m=v;if(v==0)k++}}END{print \"p cnf\",m+0,k+0}' FILE | cat - FILE > NEW`",
            ),
            Look::BinaryProof => (
                "It is a proof in binary form.",
                "The formula is named first: `satcluster check INPUT PROOF`.",
            ),
            Look::Binary => (
                "It is binary, and a text is wanted.",
                "Ask the solver for text (CaDiCaL: `--no-binary`; its interface: `binary=0`).",
            ),
            Look::BinaryDrat => (
                "It is binary DRAT.",
                "`satcluster check --drat INPUT FILE` checks it; `satcluster elaborate INPUT FILE NEW` makes LRAT of it.",
            ),
            Look::BinaryFrat => (
                "It is binary FRAT.",
                "`cadical --lrat --no-binary INPUT NEW` writes LRAT.",
            ),
            Look::Drat => (
                "It is DRAT as text: it has no numbers and no hints.",
                "`satcluster check --drat INPUT FILE` checks it; `satcluster elaborate INPUT FILE NEW` makes LRAT of it.",
            ),
            Look::Frat => (
                "It is FRAT or LIDRUP.",
                "`cadical --lrat --no-binary INPUT NEW` writes LRAT; `lift --lidrup` and `check --session` read LIDRUP.",
            ),
            Look::VeriPb => (
                "It is a VeriPB proof.",
                "`cadical --lrat --no-binary INPUT NEW` writes LRAT.",
            ),
            Look::LineEnds => ("Its lines end with CR LF.", "`tr -d '\\r' < FILE > NEW`"),
            Look::Comments => (
                "It has comments, which LRAT has not.",
                "`grep -v '^c' FILE > NEW`",
            ),
        };
        Told { sentence, remedy }
    }
}

/// The packing of a file, by its first bytes; None if it is none of the four.
pub fn packing_of(head: &[u8]) -> Option<Look>
    ensures { result ≡ packing head.now }
{
    if head.starts_with(b"\x1f\x8b") {
        return Some(Look::Gzip);
    }
    if head.starts_with(b"\xfd7zXZ\x00") {
        return Some(Look::Xz);
    }
    if head.starts_with(b"\x28\xb5\x2f\xfd") {
        return Some(Look::Zstd);
    }
    if head.starts_with(b"BZh") {
        return Some(Look::Bzip2);
    }
    None
}

/// The kind of a file that its first bytes name, whatever was wanted; None if they name none.
fn mark_of(head: &[u8]) -> Option<Look>
    ensures { result ≡ mark head.now }
{
    if head.starts_with(b"\xef\xbb\xbf") {
        return Some(Look::ByteOrderMark);
    }
    if head.starts_with(b"\xff\xfe") || head.starts_with(b"\xfe\xff") {
        return Some(Look::Utf16);
    }
    if head.starts_with(b"\x7fELF") {
        return Some(Look::Program);
    }
    if head.starts_with(b"<") {
        return Some(Look::WebPage);
    }
    packing_of(head)
}

/// The kind of a file that was named as a formula, by the line that has the fault; None if the line does not show it.
fn formula_look_of(line: &[u8]) -> Option<Look>
    ensures { result ≡ formula_look line.now }
{
    if line.starts_with(b"p wcnf") {
        return Some(Look::MaxSat);
    }
    if line.starts_with(b"p inccnf") {
        return Some(Look::Icnf);
    }
    match line.first() {
        Some(byte) if *byte == b'-' || byte.is_ascii_digit() => Some(Look::Clauses),
        _ => None,
    }
}

/// The bytes after the first byte 00, which ends a step in binary form; None if there is none.
fn after_zero(bytes: &[u8]) -> Option<&[u8]>
    ensures { option_copied result ≡ after_zero_lem bytes.now }
{
    match memchr(0, bytes) {
        Some(end) => {
            let (_, rest) = bytes.split_at(end + 1);
            Some(rest)
        }
        None => None,
    }
}

/// The bytes after the first step of a binary DRAT proof: a letter, numbers, and 00. None if they begin with no such step; no bytes are
/// after no bytes.
fn after_step(bytes: &[u8]) -> Option<&[u8]>
    ensures { option_copied result ≡ after_step_lem bytes.now }
{
    match bytes.first() {
        None => Some(bytes),
        Some(letter) if *letter == b'a' || *letter == b'd' => after_zero(bytes),
        _ => None,
    }
}

/// The bytes after the first three steps of a binary DRAT proof; None if they do not begin with
/// three. Three in a row are hardly chance.
fn after_three_steps(bytes: &[u8]) -> Option<&[u8]>
    ensures { option_copied result ≡ after_three_steps_lem bytes.now }
{
    let second = after_step(bytes)?;
    let third = after_step(second)?;
    after_step(third)
}

/// Whether a byte may occur in a list of numbers: a digit, a minus or a space.
fn is_of_numbers(byte: u8) -> bool
    ensures { result ≡ is_of_numbers_lem byte }
{
    byte == b' ' || byte == b'-' || byte.is_ascii_digit()
}

/// Whether a line has no number 0 between two others: LRAT has one, which ends the literals.
fn lacks_inner_zero(line: &[u8]) -> bool
    ensures { result ≡ lacks_inner_zero_lem line.now }
{
    match memmem::find(line, b" 0 ") {
        Some(_) => false,
        None => true,
    }
}

/// Whether a line has no bytes except those of a list of numbers.
fn has_numbers_alone(line: &[u8]) -> bool
    ensures { result ≡ list_all is_of_numbers_lem line.now }
{
    line.iter().all(|byte| is_of_numbers(*byte))
}

/// Whether the last number of a line is 0.
fn ends_with_zero(line: &[u8]) -> bool
    ensures { result ≡ ends_with_zero_lem line.now }
{
    line == b"0".as_slice() || line.ends_with(b" 0")
}

/// Whether a line is one list of numbers that ends with 0, as the lemmas of DRAT are; a line of LRAT has two.
fn is_drat_lemma(line: &[u8]) -> bool
    ensures { result ≡ is_drat_lemma_lem line.now }
{
    has_numbers_alone(line) && ends_with_zero(line) && lacks_inner_zero(line)
}

/// Whether a line is the letter `d` and one list of numbers that ends with 0, as the deletions of DRAT are; a deletion of LRAT begins with a
/// number.
fn is_drat_deletion(line: &[u8]) -> bool
    ensures { result ≡ is_drat_deletion_lem line.now }
{
    line.starts_with(b"d ") && is_drat_lemma(&line[2..])
}

/// The kind of a file that was named as a proof and begins as one in binary form, by its first bytes and its first line; None if they do
/// not show it.
fn binary_look_of(head: &[u8], line: &[u8]) -> Option<Look>
    ensures { result ≡ binary_look head.now line.now }
{
    if after_three_steps(head).is_some() {
        return Some(Look::BinaryDrat);
    }
    if is_drat_deletion(line) {
        return Some(Look::Drat);
    }
    if line.starts_with(b"a ") {
        return Some(Look::Frat);
    }
    None
}

/// The kind of a file that was named as a proof and begins as one in text form, by the line that has the fault; None if the line does not
/// show it.
fn text_look_of(line: &[u8]) -> Option<Look>
    ensures { result ≡ text_look line.now }
{
    if line.ends_with(b"\r") {
        return Some(Look::LineEnds);
    }
    if line.starts_with(b"c") {
        return Some(Look::Comments);
    }
    if line.starts_with(b"pseudo-Boolean") {
        return Some(Look::VeriPb);
    }
    if line.starts_with(b"o ") || line.starts_with(b"l ") || line.starts_with(b"i ") {
        return Some(Look::Frat);
    }
    if line.starts_with(b"o") {
        return Some(Look::BinaryFrat);
    }
    if is_drat_lemma(line) || is_drat_deletion(line) {
        return Some(Look::Drat);
    }
    None
}

/// The kind of a file that was named as an LRAT proof; None if nothing shows it.
fn proof_look_of(head: &[u8], line: &[u8]) -> Option<Look>
    ensures { result ≡ proof_look head.now line.now }
{
    if head.starts_with(b"a") || head.starts_with(b"d") {
        binary_look_of(head, line)
    } else {
        text_look_of(line)
    }
}

/// The kind of a file that was named as a LIDRUP text; None if nothing shows it.
fn session_look_of(head: &[u8], line: &[u8]) -> Option<Look>
    ensures { result ≡ session_look head.now line.now }
{
    if head.contains(&0) {
        return Some(Look::Binary);
    }
    if line.ends_with(b"\r") {
        return Some(Look::LineEnds);
    }
    None
}

/// The kind of a file that was named as `subject`: by its first bytes, and by the line that has the fault, or by its first line if it has
/// no lines. None if nothing shows it.
pub fn look_of(subject: Subject, head: &[u8], line: &[u8]) -> Option<Look>
    ensures { result ≡ look subject head.now line.now }
{
    if let Some(look) = mark_of(head) {
        return Some(look);
    }
    match subject {
        Subject::Proof => proof_look_of(head, line),
        Subject::Session => session_look_of(head, line),
        Subject::DratProof => None,
        _ if head.contains(&0) => Some(Look::BinaryProof),
        Subject::Input => formula_look_of(line),
        _ => None,
    }
}
