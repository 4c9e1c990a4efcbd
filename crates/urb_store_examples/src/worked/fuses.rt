//! Which call of an allocator, a reader or a writer fails: the counter that the tests use.
//!
//! Each of the rows that end in ⊥ breaks one rule alone.
ghost use Rattle.urb_refusing.specs.Fuses.{IsLast, IsMet};

/// The failing call was requested if at least as many calls were. If its number is 0, no call
/// fails.
pub fn calls_that_have_failed()
    ensures the_second_of_three { IsMet (record { asked = 3; refused = 2 }) }
    ensures not_the_second_of_one { IsMet (record { asked = 1; refused = 2 }) → ⊥ }
    ensures not_number_0 { IsMet (record { asked = 1; refused = 0 }) → ⊥ }
{}

/// The last call fails if it has the number of the failing one.
pub fn last_calls_that_fail()
    ensures the_second_of_two { IsLast (record { asked = 2; refused = 2 }) }
    ensures not_the_second_of_three { IsLast (record { asked = 3; refused = 2 }) → ⊥ }
    ensures not_number_0 { IsLast (record { asked = 0; refused = 0 }) → ⊥ }
{}
