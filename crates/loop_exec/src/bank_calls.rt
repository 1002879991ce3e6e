//! The first bank of a call, and what a last one leaves.
ghost use Rattle.std.specs.Prelude.{◌≡◌, ◌∷◌, ◌+◌, ◌<◌, ◌^◌, IfOk, List, None, drop, length, map, replicate, take};
ghost use Rattle.std.specs.Prelude.{true};
ghost use Rattle.eager_rules.specs.Fits.{Fits};
ghost use Rattle.eager_rules.specs.State.{bound_to};
ghost use Rattle.eager_rules.specs.declared.call.Arg.{Arg as AnyArg};
ghost use Rattle.krn_base.specs.declared.kind.ParamType.{ParamType as AnyType};
ghost use Rattle.eager_rules.specs.declared.outcome.Counts.{Counts as AnyCounts};
ghost use Rattle.loop_exec.specs.Banks.{state_of};
ghost use Rattle.loop_exec.specs.Starts.{are_alike};
ghost use Rattle.loop_prog.specs.Serial.{entered, no_counts, param_regs, types_of_params};
ghost use Rattle.loop_prog.specs.State.{bind_all};

use crate::bank::Bank;
use crate::registers::{bind_view, bind_word};
use eager_rules::{Arg, Call};
use krn_base::{NoMemory, ParamType, Seq, Text};
use loop_prog::Kernel;
use std::alloc::Global;
use view_places::Array;

/// A copy of the words of a call's buffers.
pub fn words_of(alloc: Global, arrays: &[Array]) -> Result<Seq<Seq<i64>>, NoMemory>
    ensures { IfOk result (λ buffers. buffers ≡ map (λ a. a.words) arrays.now) }
{
    let mut buffers = Seq::from_vec(Vec::with_capacity(alloc, arrays.len())?);
    for array in arrays {
        buffers.push(array.words.try_copy()?)?;
    }
    Ok(buffers)
}

/// Registers none of which holds anything.
fn unassigned<T: Copy>(alloc: Global, count: usize) -> Result<Seq<Option<T>>, NoMemory>
    ensures { IfOk result (λ registers. registers ≡ replicate count None) }
{
    Ok(Seq::from_vec(vec![in alloc; None; count]?))
}

/// Puts one argument into the next register of its class.
fn enter_one(arg: &Arg, words: &mut usize, views: &mut usize, bank: &mut Bank)
    requires { words.old + views.old + 1 < 2 ^ 64 }
    ensures state { (types : List AnyType) (args : List AnyArg) (counts : AnyCounts) →
        are_alike types (arg.now ∷ args) ≡ true →
        bind_all (param_regs words.old views.old types) (map bound_to (arg.now ∷ args)) (state_of counts bank.old) ≡
        bind_all (param_regs words.new views.new (drop 1 types)) (map bound_to args) (state_of counts bank.new) }
    ensures count { words.new + views.new ≡ words.old + views.old + 1 }
    ensures given { bank.new.given ≡ bank.old.given }
{
    match arg {
        Arg::Word(z) => {
            bind_word(&mut bank.words, *words, Some(*z));
            *words += 1;
        }
        Arg::Array(view) => {
            bind_view(&mut bank.views, *views, Some(*view));
            *views += 1;
        }
    }
}

/// Puts arguments into the registers of their parameters.
fn enter(params: &[(Text, ParamType)], args: &[Arg], bank: &mut Bank)
    requires { are_alike (map (λ p. p.1) params.now) args.now ≡ true }
    ensures state { (counts : AnyCounts) → state_of counts bank.new ≡
        bind_all (param_regs 0 0 (map (λ p. p.1) params.now)) (map bound_to args.now) (state_of counts bank.old) }
    ensures given { bank.new.given ≡ bank.old.given }
{
    let mut words: usize = 0;
    let mut views: usize = 0;
    for arg in args {
        enter_one(arg, &mut words, &mut views, bank);
    }
}

impl Bank {
    /// The first bank of a call that fits a kernel: the parameters' registers hold the arguments, and the buffers are
    /// those of the call.
    pub fn start(alloc: Global, kernel: &Kernel, call: &Call) -> Result<Bank, NoMemory>
        requires { Fits (types_of_params kernel.now) call.now }
        ensures state { IfOk result (λ b. state_of no_counts b ≡ entered kernel.now call.now) }
        ensures given { IfOk result (λ b. b.given ≡ length call.now.buffers) }
    {
        let mut bank = Bank {
            words: unassigned(alloc, kernel.regs.len())?,
            views: unassigned(alloc, kernel.views.len())?,
            buffers: words_of(alloc, call.buffers.as_slice())?,
            given: call.buffers.len(),
        };
        enter(kernel.params.as_slice(), call.args.as_slice(), &mut bank);
        Ok(bank)
    }

    /// The words of the call's buffers as they are now. Takes no memory.
    pub fn finish(self) -> Seq<Seq<i64>>
        ensures { result ≡ take self.given self.buffers }
    {
        let mut all = self.buffers.into_vec();
        all.truncate(self.given);
        Seq::from_vec(all)
    }
}
