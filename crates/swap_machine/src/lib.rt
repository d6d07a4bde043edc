// The two-word swap with helping is safe, and it happens: the contracts name the theorems, and proofs/ shows them.
// What is promised stands in specs/Safety.antt, of the machine in specs/Machine.antt. The functions compute nothing.
#![tactic(auto)]

ghost use Rattle.swap_machine.specs.Example.{Helps, Swaps};
ghost use Rattle.swap_machine.specs.Safety.{Safe};

pub fn swap_is_safe()
    ensures { Safe }
{}

// A run in which one scanner swaps two words, so that the theorem is not empty.
pub fn swap_happens()
    ensures { Swaps }
{}

// A run in which another scanner decides the swap with the owner's mark.
pub fn help_happens()
    ensures { Helps }
{}
