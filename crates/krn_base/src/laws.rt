// Laws of the operations on words. Each function does nothing; a proof that needs its laws calls it and cites the
// clauses.
ghost use Rattle.std.specs.Prelude.{◌≡◌, ◌≢◌, ◌⊎◌, ℕ, ◌+◌, ◌-◌, ◌%◌, ◌^◌, ◌<◌, min, max, ℤ, pos, ◌+ℤ◌, ◌*ℤ◌};
ghost use Rattle.krn_base.specs.Numbers.{IsWord, IsRest, wrap, floor_div, floor_mod, power, inverse, element_result};
ghost use Rattle.krn_base.specs.Numbers.{unary_result, join_result, unit_of};
ghost use Rattle.krn_base.specs.Bits.{bit_of};
ghost use Rattle.krn_base.specs.Reduce.{Associates, Exchanges, HasUnit};

use crate::operation::{BinOp, Join, UnOp};
use crate::reduction::{AndAll, MaxOf, MinOf, OrAll, Prod, Reduce, Sum, XorAll};

/// `wrap n` is the one word that differs from `n` by a multiple of 2^64.
pub fn wrap_laws()
    ensures in_range { (n : ℤ) → IsWord (wrap n) }
    ensures multiple { (n : ℤ) → (k : ℤ) × (n ≡ wrap n +ℤ (k *ℤ pos (2 ^ 64))) }
    ensures same { (n : ℤ) → IsWord n → wrap n ≡ n }
{}

/// `//` and `%` belong together, and the rest is on the divisor's side of 0. So the quotient is the floor of the exact
/// one.
pub fn division_laws()
    ensures whole { (a b : ℤ) → (floor_div a b *ℤ b) +ℤ floor_mod a b ≡ a }
    ensures rest { (a b : ℤ) → b ≢ pos 0 → IsRest b (floor_mod a b) }
    ensures words { (a b : ℤ) → IsWord a → IsWord b → b ≢ pos 0 →
        element_result BinOp.Add (element_result BinOp.Mul (element_result BinOp.FloorDiv a b) b)
        (element_result BinOp.Mod a b) ≡ a }
{}

/// A shift by any count from 0 on, also by 64 and more, is the wrapped product or the floor of the quotient by a power
/// of two.
pub fn shift_laws()
    ensures left { (a : ℤ) (k : ℕ) → element_result BinOp.Shl a (pos k) ≡ wrap (a *ℤ pos (2 ^ k)) }
    ensures right { (a : ℤ) (k : ℕ) → IsWord a → element_result BinOp.Shr a (pos k) ≡ floor_div a (pos (2 ^ k)) }
{}

/// `&`, `|`, `^` and `~` go bit by bit.
pub fn bit_laws()
    ensures and_bits { (a b : ℤ) (k : ℕ) → IsWord a → IsWord b → k < 64 →
        bit_of (element_result BinOp.And a b) k ≡ min (bit_of a k) (bit_of b k) }
    ensures or_bits { (a b : ℤ) (k : ℕ) → IsWord a → IsWord b → k < 64 →
        bit_of (element_result BinOp.Or a b) k ≡ max (bit_of a k) (bit_of b k) }
    ensures xor_bits { (a b : ℤ) (k : ℕ) → IsWord a → IsWord b → k < 64 →
        bit_of (element_result BinOp.Xor a b) k ≡ (bit_of a k + bit_of b k) % 2 }
    ensures inverse_bits { (a : ℤ) (k : ℕ) → bit_of (unary_result UnOp.Inv a) k ≡ 1 - bit_of a k }
{}

/// A power is as many wrapped products as its exponent says, from 1.
pub fn power_laws()
    ensures none { (a : ℤ) → power a 0 ≡ pos 1 }
    ensures one_more { (a : ℤ) (k : ℕ) → power a (k + 1) ≡ power a k *ℤ a }
    ensures wrapped { (a : ℤ) (k : ℕ) → wrap (power a (k + 1)) ≡ wrap (wrap (power a k) *ℤ a) }
{}

/// Operations on words give words.
pub fn range_laws()
    ensures element { (op : BinOp) (a b : ℤ) → IsWord a → IsWord b → IsWord (element_result op a b) }
    ensures unary { (op : UnOp) (a : ℤ) → IsWord a → IsWord (unary_result op a) }
    ensures join { (op : Join) (a b : ℤ) → IsWord a → IsWord b → IsWord (join_result op a b) }
{}

/// A list of words may be joined in any order and grouping, and the unit changes nothing.
pub fn join_laws()
    ensures associates { (op : Join) → Associates (join_result op) }
    ensures exchanges { (op : Join) → Exchanges (join_result op) }
    ensures unit { (op : Join) → HasUnit (join_result op) (unit_of op) }
{}

/// The types and the names of the reductions agree.
pub fn reduce_laws()
    ensures sum { ((a b : ℤ) → ⟦<Sum as Reduce>⟧.joined a b ≡ join_result Join.Sum a b) ×
        (⟦<Sum as Reduce>⟧.UNIT ≡ unit_of Join.Sum) }
    ensures product { ((a b : ℤ) → ⟦<Prod as Reduce>⟧.joined a b ≡ join_result Join.Prod a b) ×
        (⟦<Prod as Reduce>⟧.UNIT ≡ unit_of Join.Prod) }
    ensures and_all { ((a b : ℤ) → ⟦<AndAll as Reduce>⟧.joined a b ≡ join_result Join.And a b) ×
        (⟦<AndAll as Reduce>⟧.UNIT ≡ unit_of Join.And) }
    ensures or_all { ((a b : ℤ) → ⟦<OrAll as Reduce>⟧.joined a b ≡ join_result Join.Or a b) ×
        (⟦<OrAll as Reduce>⟧.UNIT ≡ unit_of Join.Or) }
    ensures xor_all { ((a b : ℤ) → ⟦<XorAll as Reduce>⟧.joined a b ≡ join_result Join.Xor a b) ×
        (⟦<XorAll as Reduce>⟧.UNIT ≡ unit_of Join.Xor) }
    ensures max_of { ((a b : ℤ) → ⟦<MaxOf as Reduce>⟧.joined a b ≡ join_result Join.Max a b) ×
        (⟦<MaxOf as Reduce>⟧.UNIT ≡ unit_of Join.Max) }
    ensures min_of { ((a b : ℤ) → ⟦<MinOf as Reduce>⟧.joined a b ≡ join_result Join.Min a b) ×
        (⟦<MinOf as Reduce>⟧.UNIT ≡ unit_of Join.Min) }
{}
