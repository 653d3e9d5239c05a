//! Filters, which take the bytes of one file piece by piece and produce those of another, and the loop that runs a filter over a source.

ghost use Rattle.std.specs.Prelude.{◌≡◌, ◌⊎◌, ◌++◌, ℕ, Bool, List, [], IfOk, IfErr, OnErr, OnOk};
ghost use Rattle.commands.specs.Known.{HoldsOf};
ghost use Rattle.commands.specs.Refusals.{IsRefusedAs, IsWanting};
ghost use Rattle.commands.specs.inner.Parts.{IsPart};
ghost use Rattle.commands.specs.declared.filter.Ending.{Ending};
ghost use Rattle.commands.specs.inner.Filter.{HasFiltered, IsFiltered, Settles};

use crate::drafts::Drafts;
use crate::feed_loop::{Feeds, feed_all, feed_packed};
use crate::part_file::{Part, append, keep, remove};
use crate::piece_reader::Pieces;
use packed_text::PackedText;
use reports::{Refusal, Report};
use std::alloc::Global;

/// How a filter ends: its report, and whether the written file is kept.
#[derive(Drop)]
pub(crate) enum Ending {
    /// The file is kept, after these last bytes are appended.
    Kept { rest: Vec<u8>, report: Report },
    /// The file is removed.
    Dropped(Report),
}

/// A filter: takes bytes piece by piece, and hands out the bytes of another file meanwhile.
pub(crate) trait Filter {
    // `moved old new taken out`: from the state `old` to the state `new` it took the bytes `taken` and handed out the bytes `out`
    ghost moved: { Self → Self → List ℕ → List ℕ → Type 0 };

    // the bytes that are produced and not yet handed out
    ghost out: { Self → List ℕ };

    // `ended state ending`: how it may end after what it took
    ghost ended: { Self → Ending → Type 0 };

    // a state that stays took nothing and handed out nothing
    ghost nothing: { (s : Self) → moved s s [] [] };

    // two moves in turn are one move, of the bytes of both
    ghost more: { (a b c : Self) (xs ys us vs : List ℕ) → moved a b xs us → moved b c ys vs → moved a c (xs ++ ys) (us ++ vs) };

    /// Gives the next piece of the input to the filter. An error ends the run.
    fn take(&mut self, piece: &[u8]) -> Result<(), Refusal>
        ensures taken { OnOk result (moved self.old self.new piece.now []) }
        ensures refused { IfErr result IsWanting };

    /// Lends the bytes of the output that are not written to the file yet.
    fn waiting(&self) -> &[u8]
        ensures { result.now ≡ out self.now };

    /// Drops the bytes that `waiting` lends, after the caller has written them.
    fn hand_out(&mut self)
        ensures { moved self.old self.new [] (out self.old) };

    /// Ends the input, and answers the report and whether the written file is kept.
    fn end(self, alloc: Global) -> Result<Ending, Refusal>
        ensures ended { IfOk result (ended self) }
        ensures refused { IfErr result IsWanting };
}

/// A filter, and the unfinished file to which its output is appended. It has no `Drop`: the file is
/// kept or removed by a call.
pub(crate) struct FilterRun<'a, D: Drafts, P> {
    pub(crate) disk: &'a D,
    /// The file that is written.
    pub(crate) part: Part<D::Draft>,
    /// The filter.
    pub(crate) taker: P,
}

impl<D: Drafts, P: Filter> Feeds for FilterRun<'_, D, P> {
    ghost use Rattle.commands.specs.Refusals.{IsRefusedAs};
    ghost use Rattle.commands.specs.inner.Filter.{filtered_nothing, filtered_more};
    ghost use Rattle.reports.specs.declared.refusal.Refusal.TheVariants.{Writing};

    ghost fails = { IsRefusedAs Writing };

    ghost took = { λ old new more. HasFiltered D.made P.moved old.part new.part old.taker new.taker more };

    ghost nothing = { λ s. filtered_nothing D.made P.moved s.part s.taker (P.nothing s.taker) };

    ghost more = { λ a b c xs ys h k. filtered_more D.made P.moved P.more a.part b.part c.part a.taker b.taker c.taker xs ys h k };

    /// Gives a piece of the input to the filter, and appends what that produces to the written
    /// file.
    fn feed(&mut self, piece: &[u8]) -> Result<(), Refusal> {
        self.taker.take(piece)?;
        append(self.disk, &mut self.part, self.taker.waiting())?;
        self.taker.hand_out();
        Ok(())
    }

    /// False: a filter's input is read to its end even after a fault, since a later read that fails
    /// is told instead.
    fn is_settled(&self) -> bool {
        false
    }
}

/// Does with the written file what the filter's ending says: appends the last bytes and puts it at
/// its path, or removes it. Answers the filter's report. A file that cannot be written or put there
/// is removed, and that is an error.
pub(crate) fn keep_or_remove<D: Drafts>(
    disk: &mut D,
    mut part: Part<D::Draft>,
    ending: Ending,
) -> Result<Report, Refusal>
    ensures settles { IfOk result (Settles D.made D.kept disk.old disk.new part ending) }
    ensures left { OnErr result (disk.new ≡ disk.old) }
    ensures refused { IfErr result (IsRefusedAs Refusal.Writing) }
{
    match ending {
        Ending::Kept { rest, report } => {
            if let Err(refusal) = append(disk, &mut part, &rest) {
                remove(disk, part);
                return Err(refusal);
            }
            if keep(disk, part)? {
                Ok(report)
            } else {
                Err(Refusal::Writing)
            }
        }
        Ending::Dropped(report) => {
            remove(disk, part);
            Ok(report)
        }
    }
}

/// Ends a filter whose input was read to its end, and puts the written file at its path or removes
/// it, as the filter says. Answers the filter's report.
fn finish<D: Drafts, P: Filter>(
    disk: &mut D,
    part: Part<D::Draft>,
    taker: P,
) -> Result<Report, Refusal>
    ensures ends { IfOk result (λ r. (e : Ending) × P.ended taker e × Settles D.made D.kept disk.old disk.new part e r) }
    ensures left { OnErr result (disk.new ≡ disk.old) }
    ensures refused { IfErr result (IsRefusedAs Refusal.Writing) }
{
    match taker.end(disk.alloc()) {
        Ok(ending) => keep_or_remove(disk, part, ending),
        Err(refusal) => {
            remove(disk, part);
            Err(refusal)
        }
    }
}

/// A filter after its input, and the file that it writes.
struct Filtered<F, P> {
    part: Part<F>,
    taker: P,
    /// The error, if a read or a write failed.
    read: Result<(), Refusal>,
}

/// Feeds a source to a filter, to the source's end or to the first read or write that fails, and appends to the file what the filter hands
/// out.
fn feed_part<D: Drafts, P: Filter>(
    disk: &D,
    mut pieces: Pieces<D::Source>,
    part: Part<D::Draft>,
    taker: P,
) -> Filtered<D::Draft, P>
    ensures poured { OnOk result.read (HoldsOf (D.Source.remaining pieces.source) (λ bytes. HasFiltered D.made P.moved part result.part taker result.taker bytes)) }
    ensures refused { IfErr result.read (λ f. IsRefusedAs pieces.refusal f ⊎ (f ≡ Refusal.Writing)) }
{
    let mut run = FilterRun { disk, part, taker };
    let read = feed_all(&mut pieces, &mut run);
    let FilterRun {
        disk: _,
        part,
        taker,
    } = run;
    Filtered { part, taker, read }
}

/// Runs a filter over a source to its end, and answers its report. The written file is kept if the filter ends so and each read and write
/// succeeded, and else removed.
pub(crate) fn run_filter<D: Drafts, P: Filter + Drop>(
    disk: &mut D,
    pieces: Pieces<D::Source>,
    part: Part<D::Draft>,
    taker: P,
) -> Result<Report, Refusal>
    ensures poured { (binary : Bool) (path : List ℕ) → IsPart D.made binary path [] part
        → IfOk result (λ r. HoldsOf (D.Source.remaining pieces.source) (λ bytes. IsFiltered P.moved P.ended D.kept disk.old disk.new binary path taker bytes r)) }
    ensures left { OnErr result (disk.new ≡ disk.old) }
    ensures refused { IfErr result (λ f. IsRefusedAs pieces.refusal f ⊎ (f ≡ Refusal.Writing)) }
{
    let Filtered { part, taker, read } = feed_part(disk, pieces, part, taker);
    match read {
        Ok(()) => finish(disk, part, taker),
        Err(refusal) => {
            remove(disk, part);
            Err(refusal)
        }
    }
}

/// Feeds a packed text to a filter, to its end or to the first write that fails, and appends to the file what the filter hands out.
fn feed_part_packed<D: Drafts, P: Filter>(
    disk: &D,
    text: &PackedText,
    part: Part<D::Draft>,
    taker: P,
) -> Filtered<D::Draft, P>
    ensures poured { OnOk result.read (HasFiltered D.made P.moved part result.part taker result.taker text.now) }
    ensures refused { IfErr result.read (IsRefusedAs Refusal.Writing) }
{
    let mut run = FilterRun { disk, part, taker };
    let read = feed_packed(disk.alloc(), text, &mut run);
    let FilterRun {
        disk: _,
        part,
        taker,
    } = run;
    Filtered { part, taker, read }
}

/// Runs a filter over a packed text, and answers its report. The written file is kept if the filter ends so and each write succeeded, and
/// else removed.
pub(crate) fn run_filter_packed<D: Drafts, P: Filter + Drop>(
    disk: &mut D,
    text: &PackedText,
    part: Part<D::Draft>,
    taker: P,
) -> Result<Report, Refusal>
    ensures poured { (binary : Bool) (path : List ℕ) → IsPart D.made binary path [] part
        → IfOk result (IsFiltered P.moved P.ended D.kept disk.old disk.new binary path taker text.now) }
    ensures left { OnErr result (disk.new ≡ disk.old) }
    ensures refused { IfErr result (IsRefusedAs Refusal.Writing) }
{
    let Filtered { part, taker, read } = feed_part_packed(disk, text, part, taker);
    match read {
        Ok(()) => finish(disk, part, taker),
        Err(refusal) => {
            remove(disk, part);
            Err(refusal)
        }
    }
}
