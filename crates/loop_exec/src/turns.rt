//! The turns of a loop over a range.
ghost use Rattle.std.specs.Prelude.{◌≡◌, ◌<◌, ◌∷◌, ◌-ℤ◌, IfSome, option_map, true, unsigned_abs};
ghost use Rattle.eager_rules.specs.Works.{range_values, word_of};
ghost use Rattle.loop_exec.specs.Banks.{words_bound};
ghost use Rattle.loop_exec.specs.Running.{numbers_of, taken};
ghost use Rattle.loop_prog.specs.State.{operand_in};
ghost use Rattle.view_places.specs.Slice.{is_before};

use crate::registers::word;
use loop_prog::Oper;

/// The numbers of a range that are left.
#[derive(Clone, Copy, Debug)]
pub struct Turns {
    /// There are no more than these.
    pub most: u64,
    /// The next one, if it stands before the end.
    pub next: i64,
    pub hi: i64,
    pub step: i64,
}

/// The numbers of Python's `range(lo, hi, step)`, or None where the step is 0.
pub fn range_of(words: &[Option<i64>], lo: Oper, hi: Oper, step: Oper) -> Option<Turns>
    ensures { option_map numbers_of result ≡ range_values (word_of (operand_in (words_bound words.now) lo))
        (word_of (operand_in (words_bound words.now) hi)) (word_of (operand_in (words_bound words.now) step)) }
{
    let turns = turns_of(words, lo, hi, step);
    if turns.step == 0 { None } else { Some(turns) }
}

/// The numbers of a range, should its step be other than 0.
fn turns_of(words: &[Option<i64>], lo: Oper, hi: Oper, step: Oper) -> Turns
    ensures most { result.most ≡ unsigned_abs
        (word_of (operand_in (words_bound words.now) hi) -ℤ word_of (operand_in (words_bound words.now) lo)) }
    ensures next { result.next ≡ word_of (operand_in (words_bound words.now) lo) }
    ensures hi { result.hi ≡ word_of (operand_in (words_bound words.now) hi) }
    ensures step { result.step ≡ word_of (operand_in (words_bound words.now) step) }
{
    Turns {
        most: word(words, hi).abs_diff(word(words, lo)),
        next: word(words, lo),
        hi: word(words, hi),
        step: word(words, step),
    }
}

impl Turns {
    /// Whether the next number stands before the end.
    fn is_before_end(&self) -> bool
        ensures { result ≡ is_before self.now.step self.now.hi self.now.next }
    {
        if 0 < self.step {
            self.next < self.hi
        } else {
            self.hi < self.next
        }
    }

    /// The turns behind the next one, which stands before the end.
    fn rest(&self) -> Turns
        requires some { 0 < self.now.most }
        requires before { is_before self.now.step self.now.hi self.now.next ≡ true }
        ensures numbers { numbers_of self.now ≡ self.now.next ∷ numbers_of result }
        ensures fewer { result.most < self.now.most }
    {
        match self.next.checked_add(self.step) {
            Some(next) => Turns {
                most: self.most - 1,
                next,
                hi: self.hi,
                step: self.step,
            },
            None => Turns {
                most: 0,
                next: self.next,
                hi: self.hi,
                step: self.step,
            },
        }
    }

    /// Takes the next number, if there is one.
    pub fn take(&mut self) -> Option<i64>
        ensures numbers { numbers_of self.old ≡ taken result (numbers_of self.new) }
        ensures fewer { IfSome result (λ z. self.new.most < self.old.most) }
    {
        if self.most == 0 || !self.is_before_end() {
            return None;
        }
        let number = self.next;
        *self = self.rest();
        Some(number)
    }
}
