//! The reasons why words are refused, and why a file cannot be read or written.

use crate::sentences::Told;

/// A reason. In its sentences, `WORD` stands for the refused word, and `FILE` for the file.
#[derive(Clone, Copy)]
pub enum Reason {
    /// There are no words.
    NoCommand,
    /// The first word is no command.
    OtherCommand,
    /// The command does not have the word.
    OtherWord,
    /// The command has the word, but not here, or not with this value.
    WrongWord,
    /// There is one name too many.
    OtherName,
    /// The command has each of the words, but does not take them together.
    NotTogether,
    /// `-` is standard input, which cannot be read here.
    StandardInput,
    /// Neither a leaf nor `--lidrup` is named; or one end of a block of leaves alone; or `--drat` not with one leaf.
    LeafOrLidrup,
    /// The file is not there.
    Absent,
    /// The file is a folder.
    Folder,
    /// The file may not be read.
    Forbidden,
    /// The file is a pipe or a device, whose bytes are gone.
    Passing,
    /// The file exists, and cannot be read.
    Broken,
    /// The folder in which a file is to be written does not exist.
    NoFolder,
    /// The file to be written is a folder.
    InFolder,
    /// The file to be written is one that is read.
    Read,
    /// The file cannot be written.
    Unwritten,
    /// The answer names no literal of a clause.
    NoLiteral,
}

impl Reason {
    /// The two sentences for a reason: what is wrong, and what to do.
    pub fn told(self) -> Told {
        let (sentence, remedy) = match self {
            Reason::NoCommand => (
                "No command is named.",
                "`satcluster --help` has the commands.",
            ),
            Reason::OtherCommand => (
                "There is no command WORD.",
                "`satcluster --help` has the commands.",
            ),
            Reason::OtherWord => (
                "The command has no word WORD.",
                "`satcluster COMMAND --help` has its words.",
            ),
            Reason::WrongWord => (
                "The word WORD stands twice, or what follows it is no value that it takes.",
                "`satcluster COMMAND --help` has the values of each word.",
            ),
            Reason::OtherName => (
                "WORD is one name too many.",
                "`satcluster COMMAND --help` has the names of files, in their order.",
            ),
            Reason::NotTogether => (
                "A word or a name is missing, or two words do not go together.",
                "`satcluster COMMAND --help` has what the command needs.",
            ),
            Reason::StandardInput => (
                "`-` is standard input: one file at most is read from it, and none is written to it.",
                "Name a file; `./-` is one of that name.",
            ),
            Reason::LeafOrLidrup => (
                "PROOF is one of a leaf, or a LIDRUP text for all leaves or for a block.",
                "Name `--leaf I`, with or without `--drat`, `--lidrup`, or `--lidrup --leaf I --to J`.",
            ),
            Reason::Absent => ("There is no file FILE.", "Name a file that is there."),
            Reason::Folder => ("FILE is a folder.", "Name a file in it."),
            Reason::Forbidden => ("FILE may not be read.", "`chmod u+r FILE`, if it is yours."),
            Reason::Passing => (
                "FILE is no regular file, and cannot be read to its end.",
                "Make a file of what comes from it, and name that.",
            ),
            Reason::Broken => (
                "FILE cannot be read to its end.",
                "Copy it, and look whether its disk has errors.",
            ),
            Reason::NoFolder => (
                "The folder in which FILE is to be written is not there.",
                "Make it (`mkdir -p`), or name another file.",
            ),
            Reason::InFolder => ("FILE is a folder.", "Name a file to be written in it."),
            Reason::Read => (
                "FILE is a file that is read, so it is not written.",
                "Name another file.",
            ),
            Reason::Unwritten => (
                "FILE cannot be written: it may not be, its disk is full, or standard output goes to it.",
                "Name another file, in a folder in which you may write.",
            ),
            Reason::NoLiteral => (
                "The answer has no literal of this clause of INPUT, the first such clause.",
                "The solver is wrong, or has answered another formula.",
            ),
        };
        Told { sentence, remedy }
    }
}
