//! Goes through the files to be joined by their names: those on the command line, or those that standard input lists, one a line.

ghost use Rattle.std.specs.Prelude.{◌≡◌, ◌≢◌, ◌++◌, ◌∷◌, ℕ, Bool, List, [], map, codes, IfOk, IfErr, OnOk};
ghost use Rattle.commands.specs.Names.{AreTaken, Gone, OfNames, names_of, none_gone};
ghost use Rattle.commands.specs.Join.{OneStops, Stops, Takes};
ghost use Rattle.commands.specs.Known.{HoldsOf};
ghost use Rattle.commands.specs.Refusals.{IsRefusedAs, IsOneOf};
ghost use Rattle.commands.specs.declared.join_run.JoinOptions.{JoinOptions};
ghost use Rattle.commands.specs.inner.Join.{Goes, IsAt, IsListing};
ghost use Rattle.dimacs.specs.logic.Cnf.{Cnf};
ghost use Rattle.icnf.specs.Leaves.{Cube};

use crate::drafts::Drafts;
use crate::feed_loop::{Feeds, feed_all};
use crate::join_run::{Run, join_file, skip_name};
use crate::piece_reader::Pieces;
use crate::receipt_names::is_list;
use crate::whole_source::out_of_memory;
use reports::{Refusal, Report};
use std::mem;
use std::str::from_utf8;

/// Joins the files of these names in turn. A file that is a solver's answer and satisfies the
/// formula ends the run: its report is answered, and no further file is read.
fn take_all<D: Drafts>(run: &mut Run<'_, D>, names: &[&str]) -> Result<Option<Report>, Refusal>
    ensures goes { (F : Cnf) (cubes : List Cube) (s : Gone) → IsAt D.made F cubes s [] s.count run.old.joined.join run.old.joined.part run.old.sheet
        → IfOk result (Goes (λ t. IsAt D.made F cubes t [] t.count run.new.joined.join run.new.joined.part run.new.sheet)
        (AreTaken (Takes D.holds D.apart run.old.joined.disk.now run.old.sheet.options F cubes) (map (λ n. n.now) names.now) s)
        (OneStops (Takes D.holds D.apart run.old.joined.disk.now run.old.sheet.options F cubes) (Stops D.holds D.apart run.old.joined.disk.now run.old.sheet.options F cubes) (map (λ n. n.now) names.now) s)) }
    ensures same { OnOk result ((run.new.joined.disk ≡ run.old.joined.disk) × (run.new.sheet.options ≡ run.old.sheet.options)) }
    ensures refused { IfErr result (IsRefusedAs Refusal.Writing) }
{
    for i in 0..names.len() {
        if let Some(report) = join_file(run, names[i])? {
            return Ok(Some(report));
        }
    }
    Ok(None)
}

/// Joins the file of a name from the list. `-`, and a name that is not UTF-8, are noted as a file
/// that cannot be read. Answers the report of the run if the file is an answer that satisfies the
/// formula.
fn take_named<D: Drafts>(run: &mut Run<'_, D>, name: &[u8]) -> Result<Option<Report>, Refusal>
    ensures goes { (F : Cnf) (cubes : List Cube) (s : Gone) → IsAt D.made F cubes s [] s.count run.old.joined.join run.old.joined.part run.old.sheet
        → IfOk result (Goes (λ t. IsAt D.made F cubes t [] t.count run.new.joined.join run.new.joined.part run.new.sheet)
        (Takes D.holds D.apart run.old.joined.disk.now run.old.sheet.options F cubes name.now s) (Stops D.holds D.apart run.old.joined.disk.now run.old.sheet.options F cubes name.now s)) }
    ensures same { OnOk result ((run.new.joined.disk ≡ run.old.joined.disk) × (run.new.sheet.options ≡ run.old.sheet.options)) }
    ensures refused { IfErr result (IsRefusedAs Refusal.Writing) }
{
    match from_utf8(name) {
        Ok(path) if path != "-" => join_file(run, path),
        _ => skip_name(run, name),
    }
}

/// A list of names that comes piece by piece, and the join of their files. It has no `Drop`: the
/// unfinished file of the proof is kept or removed by a call.
struct Listing<'a, D: Drafts> {
    /// The join of the files named so far.
    run: Run<'a, D>,
    /// The bytes of the name whose LF has not come.
    begun: Vec<u8>,
    /// The report of the run, once a file is an answer that satisfies the formula.
    found: Option<Report>,
}

/// Takes the next byte of a list: an LF ends a name, whose file is joined at once. After an answer that satisfies the formula, bytes are
/// ignored.
fn take_byte<D: Drafts>(listing: &mut Listing<'_, D>, byte: u8) -> Result<(), Refusal>
    ensures listed { OnOk result ((disk : D) (options : JoinOptions) (F : Cnf) (cubes : List Cube) (list : List ℕ)
        → IsListing D.made D.holds D.apart disk options F cubes list listing.old.run.joined.disk.now listing.old.run.joined.join listing.old.run.joined.part listing.old.run.sheet listing.old.begun.items listing.old.found
        → IsListing D.made D.holds D.apart disk options F cubes (list ++ byte ∷ []) listing.new.run.joined.disk.now listing.new.run.joined.join listing.new.run.joined.part listing.new.run.sheet listing.new.begun.items listing.new.found) }
    ensures refused { IfErr result (IsRefusedAs Refusal.Writing) }
{
    if listing.found.is_some() {
        return Ok(());
    }
    if byte != b'\n' {
        return listing.begun.push(byte).map_err(out_of_memory);
    }
    listing.found = take_named(&mut listing.run, &listing.begun)?;
    listing.begun.clear();
    Ok(())
}

impl<D: Drafts> Feeds for Listing<'_, D> {
    ghost use Rattle.std.specs.Prelude.{List, ℕ};
    ghost use Rattle.commands.specs.Refusals.{IsRefusedAs};
    ghost use Rattle.commands.specs.declared.join_run.JoinOptions.{JoinOptions};
    ghost use Rattle.commands.specs.inner.Feed.{Extends, extends_more, extends_nothing};
    ghost use Rattle.commands.specs.inner.Join.{IsListing};
    ghost use Rattle.dimacs.specs.logic.Cnf.{Cnf};
    ghost use Rattle.icnf.specs.Leaves.{Cube};
    ghost use Rattle.reports.specs.declared.refusal.Refusal.TheVariants.{Writing};

    ghost took = { λ old new more. (disk : D) (options : JoinOptions) (F : Cnf) (cubes : List Cube)
        → Extends (λ list l. IsListing D.made D.holds D.apart disk options F cubes list l.run.joined.disk.now l.run.joined.join l.run.joined.part l.run.sheet l.begun.items l.found) old new more };

    ghost fails = { IsRefusedAs Writing };

    ghost nothing = { λ s disk options F cubes. extends_nothing
        (λ list l. IsListing D.made D.holds D.apart disk options F cubes list l.run.joined.disk.now l.run.joined.join l.run.joined.part l.run.sheet l.begun.items l.found) s };

    ghost more = { λ a b c xs ys h k disk options F cubes. extends_more
        (λ list l. IsListing D.made D.holds D.apart disk options F cubes list l.run.joined.disk.now l.run.joined.join l.run.joined.part l.run.sheet l.begun.items l.found)
        a b c xs ys (h disk options F cubes) (k disk options F cubes) };

    /// Takes the next piece of the list of names; a file is joined when its name has ended.
    fn feed(&mut self, piece: &[u8]) -> Result<(), Refusal> {
        for i in 0..piece.len() {
            take_byte(self, piece[i])?;
        }
        Ok(())
    }

    /// Whether a file satisfies the formula, so that the rest of the list is not read.
    fn is_settled(&self) -> bool {
        self.found.is_some()
    }
}

/// Ends a list: joins the file of the last name if no LF has ended that. Answers the report of the run if a file is an answer that
/// satisfies the formula.
fn join_last_name<D: Drafts>(listing: &mut Listing<'_, D>) -> Result<Option<Report>, Refusal>
    ensures goes { (disk : D) (options : JoinOptions) (F : Cnf) (cubes : List Cube) (list : List ℕ)
        → IsListing D.made D.holds D.apart disk options F cubes list listing.old.run.joined.disk.now listing.old.run.joined.join listing.old.run.joined.part listing.old.run.sheet listing.old.begun.items listing.old.found
        → IfOk result (Goes (λ t. IsAt D.made F cubes t [] t.count listing.new.run.joined.join listing.new.run.joined.part listing.new.run.sheet)
        (AreTaken (Takes D.holds D.apart disk options F cubes) (names_of list) none_gone)
        (OneStops (Takes D.holds D.apart disk options F cubes) (Stops D.holds D.apart disk options F cubes) (names_of list) none_gone)) }
    ensures same { OnOk result ((listing.new.run.joined.disk ≡ listing.old.run.joined.disk) × (listing.new.run.sheet.options ≡ listing.old.run.sheet.options)) }
    ensures refused { IfErr result (IsRefusedAs Refusal.Writing) }
{
    if let Some(report) = mem::replace(&mut listing.found, None) {
        return Ok(Some(report));
    }
    if listing.begun.as_slice().is_empty() {
        return Ok(None);
    }
    take_named(&mut listing.run, &listing.begun)
}

/// Reads a list of names to its end, and joins each file as soon as its name is there. Answers the report of the run if a file is an answer
/// that satisfies the formula. It errs if the list cannot be read, the proof not be written, or memory runs out.
fn take_list<D: Drafts>(
    names: &mut Pieces<D::Source>,
    listing: &mut Listing<'_, D>,
) -> Result<Option<Report>, Refusal>
    ensures goes { (disk : D) (options : JoinOptions) (F : Cnf) (cubes : List Cube)
        → IsListing D.made D.holds D.apart disk options F cubes [] listing.old.run.joined.disk.now listing.old.run.joined.join listing.old.run.joined.part listing.old.run.sheet listing.old.begun.items listing.old.found
        → IfOk result (λ found. HoldsOf (D.Source.remaining names.old.source) (λ list. Goes (λ t. IsAt D.made F cubes t [] t.count listing.new.run.joined.join listing.new.run.joined.part listing.new.run.sheet)
        (AreTaken (Takes D.holds D.apart disk options F cubes) (names_of list) none_gone)
        (OneStops (Takes D.holds D.apart disk options F cubes) (Stops D.holds D.apart disk options F cubes) (names_of list) none_gone) found)) }
    ensures options { (disk : D) (options : JoinOptions) (F : Cnf) (cubes : List Cube)
        → IsListing D.made D.holds D.apart disk options F cubes [] listing.old.run.joined.disk.now listing.old.run.joined.join listing.old.run.joined.part listing.old.run.sheet listing.old.begun.items listing.old.found
        → OnOk result (listing.new.run.sheet.options ≡ options) }
    ensures refused { IfErr result (IsOneOf names.old.refusal Refusal.Writing) }
{
    feed_all(names, listing)?;
    join_last_name(listing)
}

/// A join after the last of its names. It has no `Drop`: the unfinished file of the proof is kept
/// or removed by a call.
pub(crate) struct Through<'a, D: Drafts> {
    pub(crate) run: Run<'a, D>,
    /// The report of the run if a file is an answer that satisfies the formula, else `None`; or the refusal that ended the run.
    pub(crate) found: Result<Option<Report>, Refusal>,
}

/// Joins the files whose names standard input lists, each as soon as its name is there.
fn take_listed<'a, D: Drafts>(run: Run<'a, D>) -> Through<'a, D>
    ensures goes { (F : Cnf) (cubes : List Cube) → IsAt D.made F cubes none_gone [] 0 run.entry.joined.join run.entry.joined.part run.entry.sheet
        → IfOk result.found (λ found. HoldsOf (D.holds run.entry.joined.disk.now (codes "-")) (λ list. Goes (λ t. IsAt D.made F cubes t [] t.count result.run.joined.join result.run.joined.part result.run.sheet)
        (AreTaken (Takes D.holds D.apart run.entry.joined.disk.now run.entry.sheet.options F cubes) (names_of list) none_gone)
        (OneStops (Takes D.holds D.apart run.entry.joined.disk.now run.entry.sheet.options F cubes) (Stops D.holds D.apart run.entry.joined.disk.now run.entry.sheet.options F cubes) (names_of list) none_gone) found)) }
    ensures options { (F : Cnf) (cubes : List Cube) → IsAt D.made F cubes none_gone [] 0 run.entry.joined.join run.entry.joined.part run.entry.sheet
        → OnOk result.found (result.run.sheet.options ≡ run.entry.sheet.options) }
    ensures refused { IfErr result.found (IsOneOf Refusal.Proof Refusal.Writing) }
{
    let mut names = match run.joined.disk.open("-", Refusal::Proof) {
        Ok(names) => names,
        Err(refusal) => {
            return Through {
                run,
                found: Err(refusal),
            };
        }
    };
    let begun = Vec::new(run.joined.disk.alloc());
    let mut listing = Listing {
        run,
        begun,
        found: None,
    };
    let found = take_list(&mut names, &mut listing);
    let Listing {
        run,
        begun: _,
        found: _,
    } = listing;
    Through { run, found }
}

/// Joins the files of these names, or of those that standard input lists if `-` is the only one.
pub(crate) fn go_through<'a, D: Drafts>(mut run: Run<'a, D>, names: &[&str]) -> Through<'a, D>
    ensures goes { (F : Cnf) (cubes : List Cube) → IsAt D.made F cubes none_gone [] 0 run.entry.joined.join run.entry.joined.part run.entry.sheet
        → IfOk result.found (λ found. OfNames (D.holds run.entry.joined.disk.now) (map (λ n. n.now) names.now) (λ all. Goes (λ t. IsAt D.made F cubes t [] t.count result.run.joined.join result.run.joined.part result.run.sheet)
        (AreTaken (Takes D.holds D.apart run.entry.joined.disk.now run.entry.sheet.options F cubes) all none_gone)
        (OneStops (Takes D.holds D.apart run.entry.joined.disk.now run.entry.sheet.options F cubes) (Stops D.holds D.apart run.entry.joined.disk.now run.entry.sheet.options F cubes) all none_gone) found)) }
    ensures options { (F : Cnf) (cubes : List Cube) → IsAt D.made F cubes none_gone [] 0 run.entry.joined.join run.entry.joined.part run.entry.sheet
        → OnOk result.found (result.run.sheet.options ≡ run.entry.sheet.options) }
    ensures refused { IfErr result.found (IsOneOf Refusal.Proof Refusal.Writing) }
{
    if is_list(names) {
        return take_listed(run);
    }
    let found = take_all(&mut run, names);
    Through { run, found }
}
