// What the code of the two-word swap does over the tables is a run of the abstract machine, whose theorem is therefore about the code.
// The contracts name the theorems, which stand in specs/Theorems.antt; the functions compute nothing.
#![tactic(auto)]

ghost use Rattle.swap_bridge.specs.Example.{Swaps};
ghost use Rattle.swap_bridge.specs.Theorems.{CodeIsTheMachine, SystemIsSafe};

use swap_machine::swap_is_safe;

// Each step of the code is a step of the machine.
pub fn code_is_the_machine()
    ensures { CodeIsTheMachine }
{
    swap_is_safe();
}

// Each run of the system, from a beginning with no swap under way, is a run of the machine and therefore safe.
pub fn system_is_safe()
    ensures { SystemIsSafe }
{
    swap_is_safe();
}

// A run of the code in which one scanner swaps two words, so that the theorems are not empty.
pub fn system_swaps()
    ensures { Swaps }
{}
