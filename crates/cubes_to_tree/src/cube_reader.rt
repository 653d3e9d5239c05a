//! Reads a text that lists cubes into a tree.

ghost use Rattle.std.specs.Prelude.{◌≡◌, ℕ, ◌<◌, List, MatchResult, Ok, bytes_eq, codes, false};
ghost use Rattle.cubes_to_tree.specs.CubeList.{listed, put_cube, read_words};
ghost use Rattle.cubes_to_tree.specs.inner.Cubes.{IsCube};
ghost use Rattle.cubes_to_tree.specs.inner.Nodes.{IsTreeOf, ReadLine, is_empty_tree};
ghost use Rattle.dimacs.specs.text.Rows.{Fails};
ghost use Rattle.dimacs.specs.text.Words.{words};
ghost use Rattle.icnf.specs.Leaves.{Cube};
ghost use Rattle.icnf.specs.Parser.{no_memory};

use crate::cube_line::cube_of;
use crate::node::{Node, put};
use dimacs::Lit;
use dimacs::words::{next_line, next_word};
use icnf::{IcnfFault, Kind};
use std::alloc::Global;

/// Inserts the cube of the line of this number, from 1, into the tree. Err (`NotATree`) if no
/// splitting tree has this cube and those before it as leaves.
fn put_cube(alloc: Global, root: &mut Node, line: u64, cube: &[Lit]) -> Result<(), IcnfFault>
    ensures { (greatest : ℕ) (cubes : List Cube) → IsTreeOf greatest cubes root.old → IsCube greatest cube.now → ReadLine greatest root.new result (put_cube line cubes cube.now) }
{
    if put(alloc, root, cube)? {
        return Ok(());
    }
    Err(IcnfFault {
        kind: Kind::NotATree,
        line,
    })
}

/// Answers whether a token is `a`, with which the line of a cube begins.
fn is_mark(word: &[u8]) -> bool
    ensures { result ≡ bytes_eq word.now (codes "a") }
{
    word == b"a".as_slice()
}

/// Inserts the cube that a line lists. A line whose first token is not `a` is ignored. Err is the line's first fault.
fn read_line(
    alloc: Global,
    greatest: u32,
    root: &mut Node,
    line: u64,
    text: &[u8],
) -> Result<(), IcnfFault>
    requires { greatest < 100000000 }
    ensures { (cubes : List Cube) → IsTreeOf greatest cubes root.old → ReadLine greatest root.new result (read_words greatest line (words text.now) cubes) }
{
    let Some((word, rest)) = next_word(text) else {
        return Ok(());
    };
    if !is_mark(word) {
        return Ok(());
    }
    let cube = cube_of(alloc, greatest, line, rest)?;
    put_cube(alloc, root, line, &cube)
}

/// Answers whether no cube was inserted.
fn is_empty(root: &Node) -> bool
    ensures { result ≡ is_empty_tree root.now }
{
    match root {
        Node::Empty => true,
        _ => false,
    }
}

/// Reads the cubes that a text lists, with variables up to `greatest`, into a tree. Err is the text's first fault, also if the text lists
/// no cube.
pub(crate) fn read(alloc: Global, greatest: u32, text: &[u8]) -> Result<Node, IcnfFault>
    requires { greatest < 100000000 }
    ensures { MatchResult result
        (λ root. (cubes : List Cube) × (listed greatest text.now ≡ Ok cubes) × IsTreeOf greatest cubes root × (is_empty_tree root ≡ false))
        (λ f. Fails no_memory f (listed greatest text.now)) }
{
    let mut root = Node::Empty;
    let mut lines: u64 = 0;
    let mut rest = Some(text);
    while let Some(more) = rest {
        let (line, after) = next_line(more);
        lines += 1;
        read_line(alloc, greatest, &mut root, lines, line)?;
        rest = after;
    }
    if is_empty(&root) {
        return Err(IcnfFault {
            kind: Kind::NotATree,
            line: lines,
        });
    }
    Ok(root)
}
