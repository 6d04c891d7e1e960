//! What a claim knows, the rule that ties all claims to the counter, and the kinds of step.

ghost use Rattle.std.specs.Prelude.{[]};

use atomic_table::{Join, Play, Split, TableRule};
use std::collections::LinkedList;

// The numbers that a claim has drawn, and how many draws it may still make. No value of it is made.
pub struct View {
    pub drawn: LinkedList<u64>,
    pub room: u64,
}

// The rule of the counter.
pub struct Counted;

impl TableRule<u8, View, ()> for Counted {
    ghost use Rattle.group_compiler.specs.inside.Claims.{IsCounted, view};
    ghost use Rattle.group_compiler.specs.declared.limits.TheConstants.{ALL_DRAWS};

    ghost holds = { λ _. IsCounted };

    ghost first = { λ _. view [] ALL_DRAWS };
}

// A draw appends the number found.
pub struct Draws;

impl Play<u8, View> for Draws {
    ghost use Rattle.group_compiler.specs.inside.Claims.{IsDrawn};

    ghost then = { λ _ before found after. IsDrawn before found after };
}

// A cut gives the draws of one worker away, and a join takes the other's list and draws.
pub struct Cut;

impl Split<View> for Cut {
    ghost use Rattle.group_compiler.specs.inside.Claims.{left_of, right_of};

    ghost left = { left_of };

    ghost right = { right_of };
}

impl Join<View> for Cut {
    ghost use Rattle.group_compiler.specs.inside.Claims.{views_joined, view};

    ghost both = { views_joined };

    ghost spent = { view [] 0 };
}
