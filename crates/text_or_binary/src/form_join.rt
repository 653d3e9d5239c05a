//! Joins logs, each in text or binary form, to one proof.

ghost use Rattle.std.specs.Prelude.{◌≡◌, ◌∷◌, ◌++◌, ℕ, List, [], false, map, IfOk, OnOk};
ghost use Rattle.dimacs.specs.logic.Cnf.{Cnf};
ghost use Rattle.text_or_binary.specs.FormJoin.{HasReadFormFiles};
ghost use Rattle.icnf.specs.Leaves.{Cube};
ghost use Rattle.leaves.specs.Join.{Concludes, IsFileOutcome};
ghost use Rattle.lrat_forms.specs.Forms.{is_binary, text_form_within};
ghost use Rattle.lrat_forms.specs.Pieces.{is_cut};
ghost use Rattle.lrat_text.specs.Log.{log_top};

use leaves::{FileOutcome, Join, Split};
use log_join::LogJoinFault;
use lrat_forms::TextForm;
use reports::Report;
use std::alloc::{AllocError, Global};

/// A join of logs over a formula to one proof of it, as `leaves::Join` is. Each file may be LRAT text or in binary form.
pub struct FormJoin {
    alloc: Global,
    /// The converter of the file that is read to its text form.
    pub(crate) form: TextForm,
    /// The join of the text forms.
    pub(crate) join: Join,
}

impl Drop for FormJoin {
    fn drop(self) {
        let FormJoin {
            alloc: _,
            form: _,
            join: _,
        } = self;
    }
}

impl FormJoin {
    /// A join over a formula and the tree of its cubes that has read no file. It errs if memory runs out.
    pub fn of(alloc: Global, split: Split) -> Result<FormJoin, AllocError>
        ensures holds { IfOk result (HasReadFormFiles split.formula split.tree [] [] []) }
        ensures out { IfOk result (λ j. j.join.lines.out.items ≡ []) }
    {
        let join = Join::of(alloc, split)?;
        let form = TextForm::within(alloc, join.most());
        Ok(FormJoin { alloc, form, join })
    }

    /// Reads the next piece of the file. It errs if memory runs out or a clause number would reach 2^48; then the join is of no use.
    pub fn feed(&mut self, piece: &[u8]) -> Result<(), LogJoinFault>
        ensures { OnOk result ((F : Cnf) (cubes : List Cube) (files : List (List ℕ)) (bytes written : List ℕ)
            → HasReadFormFiles F cubes files bytes written self.old → HasReadFormFiles F cubes files (bytes ++ piece.now) written self.new) }
    {
        self.form.feed(piece);
        if self.form.is_cut() {
            return Err(LogJoinFault::NoMemory);
        }
        self.join.feed(self.form.given(piece))
    }

    /// Whether the file is in binary form, so that its fault is that of a step and not of a line. After an error for memory it is not
    /// known.
    pub fn is_binary(&self) -> bool
        ensures { (F : Cnf) (cubes : List Cube) (files : List (List ℕ)) (bytes written : List ℕ)
            → HasReadFormFiles F cubes files bytes written self.now → is_cut self.now.form.stage ≡ false → result ≡ is_binary bytes }
    {
        self.form.is_binary()
    }

    /// Ends the file, after which the next one may begin, and answers its outcome: it closes leaves
    /// or none, satisfies the formula, or is refused. After an error the join is of no use.
    pub fn end(&mut self) -> Result<FileOutcome, LogJoinFault>
        ensures holds { OnOk result ((F : Cnf) (cubes : List Cube) (files : List (List ℕ)) (bytes written : List ℕ)
            → HasReadFormFiles F cubes files bytes written self.old → HasReadFormFiles F cubes (files ++ bytes ∷ []) [] written self.new) }
        ensures tells { IfOk result (λ e. (F : Cnf) (cubes : List Cube) (files : List (List ℕ)) (bytes written : List ℕ)
            → HasReadFormFiles F cubes files bytes written self.old → IsFileOutcome F cubes (map (text_form_within (log_top F)) files) (text_form_within (log_top F) bytes) e) }
        ensures whole { OnOk result (is_cut self.old.form.stage ≡ false) }
    {
        if self.form.is_cut() {
            return Err(LogJoinFault::NoMemory);
        }
        self.join.feed(self.form.rest())?;
        let end = self.join.end()?;
        self.form = TextForm::within(self.alloc, self.join.most());
        Ok(end)
    }

    /// Gives the file up if it cannot be read to its end: what was read of it closes no leaf. After
    /// an error the join is of no use.
    pub fn abandon(&mut self) -> Result<(), LogJoinFault>
        ensures holds { OnOk result ((F : Cnf) (cubes : List Cube) (files : List (List ℕ)) (bytes written : List ℕ)
            → HasReadFormFiles F cubes files bytes written self.old → HasReadFormFiles F cubes files [] written self.new) }
    {
        self.form = TextForm::within(self.alloc, self.join.most());
        self.join.abandon()
    }

    /// Lends the bytes of the proof that were written since the last call of `forget`.
    pub fn written(&self) -> &[u8]
        ensures { result.now ≡ self.now.join.lines.out.items }
    {
        self.join.written()
    }

    /// Drops the bytes that `written` lends, after the caller has stored them.
    pub fn forget(&mut self)
        ensures holds { (F : Cnf) (cubes : List Cube) (files : List (List ℕ)) (bytes written : List ℕ)
            → HasReadFormFiles F cubes files bytes written self.old → HasReadFormFiles F cubes files bytes (written ++ self.old.join.lines.out.items) self.new }
        ensures out { self.new.join.lines.out.items ≡ [] }
    {
        self.join.forget();
    }

    /// Ends the proof, after the last file. `notes` are the lines that were printed of the files. Answers the report of a join of the text
    /// forms of the files. After it `written` answers the last bytes of the proof.
    pub fn finish(&mut self, notes: Vec<u8>) -> Result<Report, LogJoinFault>
        ensures { IfOk result (λ r. (F : Cnf) (cubes : List Cube) (files : List (List ℕ)) (written : List ℕ)
            → HasReadFormFiles F cubes files [] written self.old → Concludes F cubes (map (text_form_within (log_top F)) files) [] written notes.items self.new.join r) }
    {
        if self.form.is_cut() {
            return Err(LogJoinFault::NoMemory);
        }
        self.join.finish(notes)
    }
}
