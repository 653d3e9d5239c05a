//! The log's numbers of the live foreign clauses, by foreign number.

ghost use Rattle.std.specs.Prelude.{◌≡◌, ◌%◌, ◌<◌, ℕ, None, Some, OnOk, OnErr, IfOk, option_map, vec_len};
ghost use Rattle.lidrup.specs.Lidrup.{with_name};
ghost use Rattle.lidrup.specs.NameMaps.{name_in_map, number_in};

use crate::log_number::LogNumber;
use std::alloc::{AllocError, Global};
use std::collections::BTreeMap;

/// The number of maps to which the numbers are hashed.
const MAPS: u64 = 8192;

/// The log's numbers of the live clauses, by foreign number: a hash table of ordered maps, where the hash is the remainder by 8,192.
/// Numbers follow each other closely, so each map is small and a look-up takes a step or two.
#[derive(Drop)]
pub(crate) struct Names {
    pub(crate) maps: Vec<BTreeMap<u64, LogNumber>>,
    ghost whole: { vec_len maps ≡ 8192 },
}

/// Returns the index of the map that holds a foreign number: its remainder by 8,192. Many small
/// maps are searched faster than one of all clauses.
#[inline(always)]
fn map_index(number: u64) -> usize
    ensures is { result ≡ number % 8192 }
    ensures below { result < 8192 }
{
    (number % MAPS) as usize
}

/// Returns the log's number for a foreign number, looked up in that number's map; `None` if the number names no clause.
#[inline(always)]
fn find_in_map(map: &BTreeMap<u64, LogNumber>, number: u64) -> Option<LogNumber>
    ensures { number_in result ≡ name_in_map (Some map.now) number }
{
    match map.get(&number) {
        Some(own) => Some(*own),
        None => None,
    }
}

/// Sets the log's number of a foreign number in that number's map. Memory is refused only if the foreign number is new.
fn insert_in_map(
    map: &mut BTreeMap<u64, LogNumber>,
    number: u64,
    own: LogNumber,
) -> Result<(), AllocError>
    ensures named { OnOk result (name_in_map (Some map.new) ≡ with_name (name_in_map (Some map.old)) number (Some own.number)) }
    ensures only { OnErr result (name_in_map (Some map.old) number ≡ None) }
{
    map.insert(number, own)?;
    Ok(())
}

/// Removes a foreign number from that number's map.
fn remove_from_map(map: &mut BTreeMap<u64, LogNumber>, number: u64)
    ensures { name_in_map (Some map.new) ≡ with_name (name_in_map (Some map.old)) number None }
{
    map.remove(&number);
}

impl Names {
    ghost use Rattle.lidrup.specs.View.{names_of};

    /// Makes a table in which no number names a clause.
    pub(crate) fn new(alloc: Global) -> Result<Names, AllocError>
        ensures { IfOk result (λ x. (n : ℕ) → names_of x n ≡ None) }
    {
        let mut maps = Vec::with_capacity(alloc, MAPS as usize)?;
        for _i in 0..MAPS {
            maps.push(BTreeMap::new(alloc))?;
        }
        Ok(Names { maps })
    }

    /// Returns the log's number of the clause that a foreign number names; `None` if it names none.
    #[inline(always)]
    pub(crate) fn get(&self, number: u64) -> Option<LogNumber>
        ensures { number_in result ≡ names_of self.now number }
    {
        find_in_map(&self.maps[map_index(number)], number)
    }

    /// Names a clause of the log by a foreign number. Memory is refused only if the foreign number named none.
    pub(crate) fn put(&mut self, number: u64, own: LogNumber) -> Result<(), AllocError>
        ensures named { OnOk result (names_of self.new ≡ with_name (names_of self.old) number (Some own.number)) }
        ensures only { OnErr result (names_of self.old number ≡ None) }
    {
        insert_in_map(&mut self.maps[map_index(number)], number, own)
    }

    /// Removes a foreign number, which then names no clause.
    pub(crate) fn remove(&mut self, number: u64)
        ensures { names_of self.new ≡ with_name (names_of self.old) number None }
    {
        remove_from_map(&mut self.maps[map_index(number)], number);
    }
}
