//! What a parse found: a command, and the values of its arguments.

ghost use Rattle.std.specs.Prelude.{◌≡◌, Some, None, codes, false, map, option_map, true};
ghost use Rattle.clap.specs.Words.{all_of, first_of, one_of, subcommand_rows_of};
ghost use Rattle.option_table.specs.Found.{met_of};

use clap::ArgMatches;
use std::marker::Model;

/// What a parse found: the command, and the values of its arguments.
pub struct Found<'a> {
    matches: ArgMatches<'a>,
}

impl<'a> Model for Found<'a> {
    ghost use Rattle.clap.specs.Words.{subcommand_rows_of};
    ghost use Rattle.option_table.specs.Found.{Met, met_of};

    ghost Value = { Met };

    ghost view = { λ f. met_of (subcommand_rows_of f.matches) };
}

// By hand, so that no proof above goes through `clap`'s types.
impl<'a> Drop for Found<'a> {
    fn drop(self) {
        let Found { matches: _ } = self;
    }
}

impl<'a> Found<'a> {
    /// Wraps what `clap` has found, so that no caller names a type of `clap`.
    pub(crate) fn new(matches: ArgMatches<'a>) -> Found<'a>
        ensures { result ≡ met_of (subcommand_rows_of matches.entry) }
    {
        Found { matches }
    }

    /// The name of the command that was named.
    pub fn name(&self) -> &str
        ensures { result.now ≡ self.now.name }
    {
        match self.matches.subcommand() {
            Some((name, _)) => name,
            None => "",
        }
    }

    /// The first value that was given to an argument of the command; None if it has none.
    pub fn text(&self, name: &str) -> Option<&'a str>
        ensures { first_of name.now self.now.rows ≡ option_map (λ t. t.now) result }
    {
        match self.matches.subcommand() {
            Some((_, matches)) => matches.get_str(name),
            None => None,
        }
    }

    /// All values of an argument of the command, in order; None if it has none.
    pub fn texts(&self, name: &str) -> Option<&[&'a str]>
        ensures { all_of name.now self.now.rows ≡ option_map (λ s. map (λ t. t.now) s.now) result }
    {
        match self.matches.subcommand() {
            Some((_, matches)) => matches.get_strs(name),
            None => None,
        }
    }

    /// Whether a flag of the command is given.
    pub fn flag(&self, name: &str) -> bool
        ensures yes { one_of name.now self.now.rows ≡ Some (codes "true") → result ≡ true }
        ensures no { one_of name.now self.now.rows ≡ Some (codes "false") → result ≡ false }
        ensures none { one_of name.now self.now.rows ≡ None → result ≡ false }
    {
        match self.matches.subcommand() {
            Some((_, matches)) => matches.get_flag(name),
            None => false,
        }
    }
}
