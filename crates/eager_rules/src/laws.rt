// Laws of evaluation.
ghost use Rattle.std.specs.Prelude.{List, ◌≡◌, ◌<◌, ◌≤◌, false, length, true};
ghost use Rattle.array_ops.specs.Arrays.{words_of};
ghost use Rattle.eager_rules.specs.Eager.{Calls};
ghost use Rattle.eager_rules.specs.Laws.{IsDeepEnough, IsNeverStuck, KeepsOthers, LeavesBuffers, ReadsNoOthers};
ghost use Rattle.eager_rules.specs.Laws.{ReadsWhatWasStored, may_change};
ghost use Rattle.eager_rules.specs.declared.program.Core.TheOpen as c;
ghost use Rattle.eager_rules.specs.declared.program.Core.{Core as AnyCore};
ghost use Rattle.eager_rules.specs.declared.program.Program.{Program as AnyProgram};
ghost use Rattle.view_places.specs.View.{places};
ghost use Rattle.eager_rules.specs.Small.{bodies_small};
ghost use Rattle.eager_rules.specs.Sound.{IsSound, IsTyped};
ghost use Rattle.eager_rules.specs.TypedStates.{BeginsTyped, KeepsTypes, LeavesFilled};

use crate::program::Program;
use krn_base::Seq;
use view_places::View;

/// A well-typed program has no exponent above 62, as `eager` asks for.
pub fn typed_has_small_powers(program: &Program)
    requires typed { IsTyped program.now }
    ensures small { bodies_small program.now.instances ≡ true }
{}

/// Each statement of a well-typed program keeps the kinds of what names stand for and of the words of buffers, and a
/// call that fits begins so. It leaves as many words in each of its buffers, of the buffer's kind.
pub fn typed_runs_keep_types(program: &Program)
    requires typed { IsTyped program.now }
    ensures keeps { KeepsTypes program.now }
    ensures begins { BeginsTyped program.now }
    ensures filled { LeavesFilled program.now }
{}

/// A store and then a read of the same places gives the words that were stored, and each other word is as it was.
pub fn stores_are_read(buffers: &[Seq<i64>], target: &View, words: &[i64])
    requires there { target.now.buffer < length buffers.now }
    requires whole { target.now.length ≤ length (words_of buffers.now target.now.buffer) }
    requires count { length words.now ≡ length (places target.now) }
    ensures stored { ReadsWhatWasStored buffers.now target.now.buffer (places target.now) words.now }
    ensures others { KeepsOthers buffers.now target.now.buffer (places target.now) words.now }
{
    target.places_are_distinct();
}

/// Each statement but an element written, an array store and a call leaves the buffers that stood as they were.
pub fn operations_leave_buffers()
    ensures { (calls : Calls) (y : c.Core-F AnyCore) → may_change y ≡ false → LeavesBuffers calls y }
{}

/// In a well-typed program each chain of calls ends before it has passed more instances than there are, so a greater
/// depth of calls gives the same.
pub fn calls_end(program: &Program)
    requires typed { IsTyped program.now }
    ensures depth { IsDeepEnough program.now }
{}

/// In a sound program no statement of a call that fits reads what is unbound, and each can be done.
pub fn sound_is_never_stuck(program: &Program)
    requires sound { IsSound program.now }
    ensures ends { IsNeverStuck program.now }
{}

/// A block ends in the same way, with the same buffers, whatever the names that it doesn't read stand for.
pub fn unread_names_change_nothing()
    ensures { (calls : Calls) (body : List AnyCore) → ReadsNoOthers calls body }
{}

/// What `sound_is_never_stuck` and `typed_runs_keep_types` say of one program, of all of them.
pub fn laws_of_all_programs()
    ensures ends { (program : AnyProgram) → IsSound program → IsNeverStuck program }
    ensures keeps { (program : AnyProgram) → IsTyped program → KeepsTypes program }
    ensures begins { (program : AnyProgram) → IsTyped program → BeginsTyped program }
{}
