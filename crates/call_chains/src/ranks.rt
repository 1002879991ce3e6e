//! Numbers of functions that don't rise along calls, and fall along each call that doesn't lead back.
//!
//! No clause says so: [`crate::rule`] tests that the numbers don't rise, and a call along which they don't fall is
//! followed. So only the time of the rule depends on what is computed here, and no answer does.

use crate::graph::OwnCall;
use crate::marks::row;
use krn_base::Seq;
use std::alloc::{AllocError, Global};

/// A number that isn't given yet.
const NONE: usize = usize::MAX;

fn number_at(numbers: &[usize], f: usize) -> usize {
    if f < numbers.len() { numbers[f] } else { NONE }
}

fn set_number(numbers: &mut [usize], f: usize, number: usize) {
    if f < numbers.len() {
        numbers[f] = number;
    }
}

/// Tarjan's search for the strongly connected components, without recursion.
#[derive(Drop)]
struct Search {
    /// When each function was met.
    met: Vec<usize>,
    /// The earliest open function that each was seen to lead to.
    earliest: Vec<usize>,
    /// The number of the component of each function that is closed.
    ranks: Vec<usize>,
    /// The functions that are met and not closed.
    open: Vec<usize>,
    /// The functions on the way, with how many of their calls were followed.
    way: Vec<(usize, usize)>,
    clock: usize,
    components: usize,
}

impl Search {
    fn meet(&mut self, f: usize) -> Result<(), AllocError> {
        set_number(self.met.as_mut_slice(), f, self.clock);
        set_number(self.earliest.as_mut_slice(), f, self.clock);
        self.clock = self.clock.wrapping_add(1);
        self.open.push(f)?;
        self.way.push((f, 0))?;
        Ok(())
    }

    fn lower(&mut self, f: usize, time: usize) {
        if time < number_at(self.earliest.as_slice(), f) {
            set_number(self.earliest.as_mut_slice(), f, time);
        }
    }

    /// Follows a call: a new function is met, and an open one may be earlier than those seen so far.
    fn follow(&mut self, f: usize, callee: usize) -> Result<(), AllocError> {
        let time = number_at(self.met.as_slice(), callee);
        if time == NONE {
            return self.meet(callee);
        }
        if number_at(self.ranks.as_slice(), callee) == NONE {
            self.lower(f, time);
        }
        Ok(())
    }

    /// Closes the functions that were opened since this one, as one component.
    fn close(&mut self, f: usize) {
        for _left in 0..self.open.len() {
            if let Some(other) = self.open.pop() {
                set_number(self.ranks.as_mut_slice(), other, self.components);
                if other == f {
                    break;
                }
            }
        }
        self.components = self.components.wrapping_add(1);
    }

    /// Leaves a function whose calls were all followed.
    fn leave(&mut self, f: usize) {
        let earliest = number_at(self.earliest.as_slice(), f);
        if earliest == number_at(self.met.as_slice(), f) {
            self.close(f);
        }
        let end = self.way.len();
        if 0 < end {
            let caller = self.way[end - 1].0;
            self.lower(caller, earliest);
        }
    }

    /// Goes on from the last function on the way; says whether there was one.
    fn step(&mut self, rows: &[Seq<OwnCall>]) -> Result<bool, AllocError> {
        match self.way.pop() {
            None => Ok(false),
            Some((f, followed)) => {
                let calls = row(rows, f);
                if followed < calls.len() {
                    self.way.push((f, followed + 1))?;
                    self.follow(f, calls[followed].callee)?;
                } else {
                    self.leave(f);
                }
                Ok(true)
            }
        }
    }
}

/// The number of each function's strongly connected component. Takes time linear in the functions and calls.
pub fn ranks_of(alloc: Global, rows: &[Seq<OwnCall>]) -> Result<Vec<usize>, AllocError> {
    let count = rows.len();
    let mut search = Search {
        met: vec![in alloc; NONE; count]?,
        earliest: vec![in alloc; NONE; count]?,
        ranks: vec![in alloc; NONE; count]?,
        open: Vec::new(alloc),
        way: Vec::new(alloc),
        clock: 0,
        components: 0,
    };
    for f in 0..count {
        if number_at(search.met.as_slice(), f) == NONE {
            search.meet(f)?;
            for _step in 0..usize::MAX {
                if !search.step(rows)? {
                    break;
                }
            }
        }
    }
    Ok(search.ranks)
}
