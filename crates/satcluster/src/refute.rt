//! `refute`: reads a formula and a tree of cubes, and searches under one leaf or several.

use crate::drafts::{test_named, write_proof};
use crate::files::{Machine, no_memory};
use crate::growing_file::{GrowingFile, create_growing};
use commands::{Begun, Target, begin_files, hushed};
use dimacs::Limits;
use leaves::{LeafSpan, SearchOptions, Split, run_refute, run_refute_all, run_refute_growing};
use node_main::{Refusal, Report};
use std::alloc::Global;
use std::rt::Runtime;

/// Reads a formula and the tree of its cubes within these limits, or answers the report of the first fault. It errs if a file cannot be
/// read.
pub(crate) fn read_split<R: Runtime + AllocGlobal>(
    rt: &R,
    limits: Limits,
    input: &str,
    cubes: &str,
) -> Result<Begun, Refusal> {
    begin_files(&Machine { rt }, limits, input, cubes)
}

/// The files of a search under leaves.
#[derive(Clone, Copy)]
pub(crate) struct LeafFiles<'a> {
    /// The path of the formula.
    pub(crate) input: &'a str,
    /// The path of the tree of its cubes.
    pub(crate) cubes: &'a str,
    /// The path of the log, if it is to be written.
    pub(crate) fragment: Option<&'a str>,
    /// Whether the log is written while it grows.
    pub(crate) grows: bool,
    /// Whether the log is written in binary form.
    pub(crate) binary: bool,
}

/// The leaves to search under, by their numbers, from 1.
#[derive(Clone, Copy)]
pub(crate) struct LeafRange {
    /// The leaf, or the first of several.
    pub(crate) first: u64,
    /// The last of several leaves; `None` for one leaf.
    pub(crate) last: Option<u64>,
}

impl LeafRange {
    /// Whether a tree of so many leaves has all of these.
    fn is_within(&self, leaves: usize) -> bool {
        let last = match self.last {
            Some(last) => last,
            None => self.first,
        };
        0 < self.first && self.first <= last && last <= leaves as u64
    }
}

/// Searches under a leaf, or under several in turn, and reports what was found. It errs if memory runs out.
fn search_leaves(
    alloc: Global,
    split: &Split,
    leaves: LeafRange,
    search: &SearchOptions,
) -> Result<Report, Refusal> {
    let Some(last) = leaves.last else {
        return run_refute(alloc, split, leaves.first, search).map_err(no_memory);
    };
    run_refute_all(alloc, split, leaves.first, last, search).map_err(no_memory)
}

/// Answers where a log grows, and over which leaves; `None` if it is written at the end. It errs if the words ask for a log that grows, and
/// name no last leaf or no file, or the binary form.
fn growing_of<'a>(
    files: &LeafFiles<'a>,
    leaves: LeafRange,
) -> Result<Option<(&'a str, LeafSpan)>, Refusal> {
    if !files.grows {
        return Ok(None);
    }
    if files.binary {
        return Err(Refusal::Usage);
    }
    match (files.fragment, leaves.last) {
        (Some(path), Some(last)) => {
            let first = leaves.first;
            Ok(Some((path, LeafSpan { first, last })))
        }
        _ => Err(Refusal::Usage),
    }
}

/// Searches under several leaves in turn. The log is written in place, the part of each leaf as soon as its search has ended.
fn grow<R: Runtime + AllocGlobal>(
    rt: &R,
    files: &LeafFiles,
    split: &Split,
    (path, span): (&str, LeafSpan),
    search: &SearchOptions,
) -> Result<Report, Refusal> {
    let file = create_growing(rt, path, files.input, Some(files.cubes))?;
    let mut kept = GrowingFile {
        rt,
        file,
        written: 0,
        told: 0,
    };
    run_refute_growing(rt.alloc(), split, span, search, &mut kept)
}

/// Searches under a leaf, or under several in turn, and writes the log to a file if one is named.
fn refute_whole<R: Runtime + AllocGlobal>(
    rt: &R,
    files: &LeafFiles,
    split: &Split,
    leaves: LeafRange,
    search: &SearchOptions,
) -> Result<Report, Refusal> {
    if leaves.is_within(split.tree().leaves()) {
        test_named(rt, files.fragment)?; // that there is no such leaf is told first
    }
    let report = search_leaves(rt.alloc(), split, leaves, search)?;
    match (files.fragment, &report.proof) {
        (Some(path), Some(log)) => {
            let target = Target {
                path,
                binary: files.binary,
            };
            write_proof(rt, target, log, files.input, Some(files.cubes))?;
        }
        _ => {}
    }
    Ok(report)
}

/// Reads a formula and the tree of its cubes within these limits, searches under a leaf, or under several in turn, and reports what was
/// found. The log is written to a file if one is named: at the end, or while it grows.
pub(crate) fn refute<R: Runtime + AllocGlobal>(
    rt: &R,
    limits: Limits,
    files: &LeafFiles,
    leaves: LeafRange,
    search: &SearchOptions,
) -> Result<Report, Refusal> {
    let growing = growing_of(files, leaves)?;
    let split = match read_split(rt, limits, files.input, files.cubes)? {
        Begun::With(split) => split,
        Begun::Refused(report) => return Ok(hushed(report, search.quiet)),
    };
    match growing {
        Some(place) => grow(rt, files, &split, place, search),
        None => refute_whole(rt, files, &split, leaves, search),
    }
}
