//! Tables of rules: a program, its commands, and the words of each.

/// Whether a number has to be named, and its value if it is left out.
#[derive(Clone, Copy)]
pub enum Need<'a> {
    /// The number has to be named.
    Required,
    /// The number may be left out.
    Optional,
    /// The number may be left out; then it is this one.
    Usual(&'a str),
}

/// A word after a command's name, and its line in help.
#[derive(Clone, Copy)]
pub enum Word<'a> {
    /// `FILE`, by its position.
    File {
        name: &'a str,
        required: bool,
        help: &'a str,
    },
    /// `FILE..`: one file or more, the last words of a command.
    Files {
        name: &'a str,
        help: &'a str,
    },
    /// `--name FILE`.
    NamedFile {
        name: &'a str,
        required: bool,
        help: &'a str,
    },
    /// `--name N`, a number from `low` to `high`.
    Number {
        name: &'a str,
        low: u64,
        high: u64,
        need: Need<'a>,
        help: &'a str,
    },
    /// A flag of one letter.
    Flag {
        name: &'a str,
        letter: char,
        help: &'a str,
    },
    /// A flag `--name`.
    LongFlag {
        name: &'a str,
        help: &'a str,
    },
}

/// A command: its name, what help says before and after its words, and these words.
#[derive(Clone, Copy)]
pub struct CommandRules<'a> {
    /// The name of the command.
    pub name: &'a str,
    /// What help says before the words.
    pub about: &'a str,
    /// What help says after the words.
    pub after_help: &'a str,
    /// The words of the command.
    pub words: &'a [Word<'a>],
}

/// A program, of which one command has to be named. Its version is what `--version` prints after its name. What a parse finds borrows the
/// texts of the rules, and not the list of the commands.
#[derive(Clone, Copy)]
pub struct ProgramRules<'a, 'r> {
    pub name: &'a str,
    /// What `--version` prints after the name.
    pub version: &'a str,
    pub about: &'a str,
    pub after_help: &'a str,
    /// The commands, of which one has to be named.
    pub commands: &'r [CommandRules<'a>],
}
