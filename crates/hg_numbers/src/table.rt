//! A table of values by number.

ghost use Rattle.std.specs.Prelude.{◌≡◌, ◌≤◌, ℕ, None, Some, OnOk, []};
ghost use Rattle.std.specs.HashMap.{spare};
ghost use Rattle.hg_numbers.specs.Numbers.{Becomes, at, value_in};
ghost use Rattle.hg_numbers.specs.Rows.{place_in};

use std::alloc::{AllocError, Global};
use std::collections::HashMap;
use std::marker::Model;

/// How many numbers have a place in the row at least, once there is one.
const FIRST_ROW: usize = 1024;

/// Values for some numbers of 32 bits. A contract sees look-ups, and for how many more numbers there is room.
///
/// Small numbers have places in a row, so that a look-up takes one step, and a map has the others. The row is twice to four
/// times as long as values were set, so numbers that count up from 0 are in it.
#[derive(Drop)]
pub struct NumberTable<T> {
    row: Vec<Option<T>>,
    others: HashMap<u32, T>,
    sets: usize,
}

impl<T> Model for NumberTable<T> {
    ghost use Rattle.std.specs.Prelude.{◌++◌};
    ghost use Rattle.std.specs.HashMap.{spare};
    ghost use Rattle.hg_numbers.specs.Numbers.{Numbers};
    ghost use Rattle.hg_numbers.specs.Rows.{entries_of};

    ghost Value = { Numbers T };

    ghost view = { λ s. record { entries = entries_of 0 s.row.items ++ s.others.entries; room = spare s.others } };
}

impl<T: Copy + Drop> NumberTable<T> {
    /// No value. It takes no memory yet.
    pub fn new(alloc: Global) -> Self
        ensures { result.entries ≡ [] }
    {
        NumberTable {
            row: Vec::new(alloc),
            others: HashMap::new(alloc),
            sets: 0,
        }
    }

    /// The value of a number, if it has one.
    #[inline(always)]
    pub fn get(&self, number: u32) -> Option<T>
        ensures { result ≡ at self.now number }
    {
        match at_place(&self.row, number) {
            Some(value) => Some(value),
            None => get_other(&self.others, number),
        }
    }

    /// Makes room for one more number. The values stay.
    #[inline(always)]
    pub fn make_room(&mut self) -> Result<(), AllocError>
        ensures room { OnOk result (1 ≤ self.new.room) }
        ensures same { (k : ℕ) → at self.new k ≡ at self.old k }
    {
        make_places(&mut self.row, self.sets)?;
        make_other_room(&mut self.others)
    }

    /// Gives a number a value. It takes no memory.
    #[inline(always)]
    pub fn set(&mut self, number: u32, value: T)
        requires { 1 ≤ self.old.room }
        ensures { Becomes (at self.old) number (Some value) (at self.new) }
    {
        let place = number as usize;
        self.sets = self.sets.saturating_add(1);
        if place < self.row.len() {
            self.row[place] = Some(value);
        } else {
            set_other(&mut self.others, number, value);
        }
    }

    /// Takes the value of a number away.
    #[inline(always)]
    pub fn remove(&mut self, number: u32)
        ensures { Becomes (at self.old) number None (at self.new) }
    {
        clear_place(&mut self.row, number);
        remove_other(&mut self.others, number);
    }
}

/// The value at the place of a number.
#[inline(always)]
fn at_place<T: Copy>(row: &Vec<Option<T>>, number: u32) -> Option<T>
    ensures { result ≡ place_in row.now.items number }
{
    let place = number as usize;
    if place < row.len() { row[place] } else { None }
}

/// The place of a number has no value from now on.
#[inline(always)]
fn clear_place<T: Copy + Drop>(row: &mut Vec<Option<T>>, number: u32)
    ensures { Becomes (place_in row.old.items) number None (place_in row.new.items) }
{
    let place = number as usize;
    if place < row.len() {
        row[place] = None;
    }
}

/// The value that the map has for a number.
#[inline(always)]
fn get_other<T: Copy>(others: &HashMap<u32, T>, number: u32) -> Option<T>
    ensures { result ≡ value_in others.now.entries number }
{
    if others.is_empty() {
        return None;
    }
    others.get(&number).copied()
}

/// The map has no value for a number from now on.
#[inline(always)]
fn remove_other<T: Drop>(others: &mut HashMap<u32, T>, number: u32)
    ensures { Becomes (value_in others.old.entries) number None (value_in others.new.entries) }
{
    if !others.is_empty() {
        let _ = others.remove(&number);
    }
}

/// Gives a number a value in the map. There is room.
fn set_other<T: Drop>(others: &mut HashMap<u32, T>, number: u32, value: T)
    requires { 1 ≤ spare others.old }
    ensures { Becomes (value_in others.old.entries) number (Some value) (value_in others.new.entries) }
{
    let _ = others.insert(number, value);
}

/// Makes room for one more number in the map. The values stay.
#[inline(always)]
fn make_other_room<T>(others: &mut HashMap<u32, T>) -> Result<(), AllocError>
    ensures room { OnOk result (1 ≤ spare others.new) }
    ensures same { (k : ℕ) → value_in others.new.entries k ≡ value_in others.old.entries k }
{
    others.reserve(1)
}

/// Makes the row twice as long, if it is not longer than twice as many values as were set. No value is added.
#[inline(always)]
fn make_places<T: Copy + Drop>(row: &mut Vec<Option<T>>, sets: usize) -> Result<(), AllocError>
    ensures { (k : ℕ) → place_in row.new.items k ≡ place_in row.old.items k }
{
    if row.len() / 2 <= sets {
        lengthen(row)?;
    }
    Ok(())
}

/// Makes the row twice as long. No value is added.
#[cold]
#[inline(never)]
fn lengthen<T: Copy + Drop>(row: &mut Vec<Option<T>>) -> Result<(), AllocError>
    ensures { (k : ℕ) → place_in row.new.items k ≡ place_in row.old.items k }
{
    let more = row.len().max(FIRST_ROW);
    row.reserve(more)?;
    for _ in 0..more {
        row.push(None)?;
    }
    Ok(())
}
