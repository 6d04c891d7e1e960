//! The program of one group.

use auction_terms::Group;
use byte_sinks::{Sink, WriteFault};
use mps_text::write_program;
use program_rows::Program;
use std::marker::Model;

/// A group of bidders, and the program of an auction without them. Contracts see both.
#[derive(Drop)]
pub struct Compiled<'g> {
    group: &'g Group,
    program: Program,
}

impl<'g> Model for Compiled<'g> {
    ghost use Rattle.group_compiler.specs.Compiled.{GroupProgram, group_program};

    ghost Value = { GroupProgram };

    ghost view = { λ c. group_program c.group.now c.program };
}

impl<'g> Compiled<'g> {
    ghost use Rattle.std.specs.Prelude.{◌≡◌};
    ghost use Rattle.byte_sinks.specs.Sinks.{Sends};
    ghost use Rattle.mps_text.specs.Text.{text};
    ghost use Rattle.group_compiler.specs.Compiled.{group_program};

    pub(crate) fn new(group: &'g Group, program: Program) -> Compiled<'g>
        ensures { result ≡ group_program group.now program }
    {
        Compiled { group, program }
    }

    /// The bidders that are left out.
    pub fn group(&self) -> &Group
        ensures { result.now ≡ self.now.group }
    {
        self.group
    }

    /// The program without them.
    pub fn program(&self) -> &Program
        ensures { result.now ≡ self.now.program }
    {
        &self.program
    }

    /// Writes the text of the program. It takes no memory.
    pub fn write_to<S: Sink>(&self, sink: &mut S) -> Result<(), WriteFault>
        ensures { Sends (S.state sink.old) (S.state sink.new) result (text self.now.program) }
    {
        write_program(&self.program, sink)
    }
}
