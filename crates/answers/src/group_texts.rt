//! The programs of all groups as one output, and why not all of it went out.

ghost use Rattle.std.specs.Prelude.{◌≡◌, ◌∷◌, ◌++◌, [], IfErr, OnOk, codes, decimal, map};
ghost use Rattle.auction_terms.specs.Terms.{lots_in};
ghost use Rattle.bid_desk.specs.Closing.{book_of};
ghost use Rattle.group_compiler.specs.Compiled.{compiled, program_without};
ghost use Rattle.group_compiler.specs.Pages.{pages_of};
ghost use Rattle.byte_sinks.specs.Adds.{Adds};
ghost use Rattle.byte_sinks.specs.Sinks.{GoesWhole, Sends, written_of};
ghost use Rattle.mps_text.specs.Text.{text};
ghost use Rattle.outcome.specs.Report.{heading};
ghost use Rattle.bid_desk.specs.Sale.{sale_of};
ghost use Rattle.answers.specs.declared.group_texts.RunFault.TheVariants.{Sink as FaultOfSink};
ghost use Rattle.answers.specs.GroupTexts.{StopsAsReported, program_bytes, programs_bytes};

use auction_terms::{Group, Groups};
use bid_desk::ClosedBook;
use byte_sinks::{Sink, WriteFault, Writer};
use group_compiler::{Pages, add_group_text};
use itoa::Buffer;
use outcome::add_names_line;

/// Why not all programs went out. `written` bytes did, of the whole in order; the count stops at its greatest value.
#[derive(Clone, Copy, Debug, PartialEq, Eq)]
pub enum RunFault {
    /// Memory was refused, before anything went out.
    OutOfMemory { written: u64 },
    /// A put failed in the line or the text of a group, counted from 1.
    Sink { group: usize, written: u64 },
}

// Adds what comes before the names in the line of group k.
fn add_number<S: Sink>(writer: &mut Writer<'_, S>, k: usize)
    ensures { Adds S.state writer.old writer.new (codes "* program " ++ (decimal k ++ 32 ∷ [])) }
{
    let mut digits = Buffer::new();
    let pieces: [&[u8]; 3] = [b"* program ", digits.format(k).as_bytes(), b" "];
    writer.add_pieces(&pieces);
}

// Adds the line of group k.
fn add_line<S: Sink>(writer: &mut Writer<'_, S>, book: &ClosedBook, k: usize, group: &Group)
    ensures { Adds S.state writer.old writer.new
        (heading (codes "* program ") (sale_of book.now).names k group.now) }
{
    add_number(writer, k);
    add_names_line(writer, book, group.numbers());
}

// Adds the text of the program without a group.
fn add_program<S: Sink>(writer: &mut Writer<'_, S>, book: &ClosedBook, pages: &Pages, group: &Group)
    requires pages { pages.now ≡ pages_of (lots_in book.now.rules) (book_of book.now) }
    ensures { Adds S.state writer.old writer.new
        (text (program_without book.now group.now)) }
{
    book.within_limits();
    add_group_text(writer, pages, group);
}

/// Writes the text of the program without a group, from the pages of the book. It takes no memory.
pub fn write_program_without<S: Sink>(
    book: &ClosedBook,
    pages: &Pages,
    group: &Group,
    out: &mut S,
) -> Result<(), WriteFault>
    requires pages { pages.now ≡ pages_of (lots_in book.now.rules) (book_of book.now) }
    ensures { Sends (S.state out.old) (S.state out.new) result (text (program_without book.now group.now)) }
{
    let mut writer = Writer::new(out);
    add_program(&mut writer, book, pages, group);
    writer.flush()
}

// Adds the line and the text of group k.
fn add_group<S: Sink>(
    writer: &mut Writer<'_, S>,
    book: &ClosedBook,
    k: usize,
    pages: &Pages,
    group: &Group,
)
    requires pages { pages.now ≡ pages_of (lots_in book.now.rules) (book_of book.now) }
    ensures { Adds S.state writer.old writer.new
        (program_bytes book.now k (compiled book.now group.now)) }
{
    add_line(writer, book, k, group);
    add_program(writer, book, pages, group);
}

// The fault of a writer in group k.
fn fault_in(k: usize, fault: WriteFault) -> RunFault
    ensures { result ≡ FaultOfSink k (written_of fault) }
{
    match fault {
        WriteFault::Sink { written } => RunFault::Sink { group: k, written },
    }
}

/// Writes the line and the text of the program of each group, in order, from the pages of the book. It takes no memory.
pub fn write_joined<S: Sink>(
    book: &ClosedBook,
    pages: &Pages,
    groups: &Groups,
    out: &mut S,
) -> Result<(), RunFault>
    requires pages { pages.now ≡ pages_of (lots_in book.now.rules) (book_of book.now) }
    ensures ok { OnOk result (GoesWhole (S.state out.old) (S.state out.new)
        (programs_bytes book.now (map (compiled book.now) groups.now))) }
    ensures stopped { IfErr result (StopsAsReported book.now (map (compiled book.now) groups.now)
        (S.state out.old) (S.state out.new)) }
{
    let mut writer = Writer::new(out);
    for place in 0..groups.count() {
        let group = groups.group(place + 1);
        add_group(&mut writer, book, place + 1, pages, group);
        if let Err(fault) = writer.flush() {
            return Err(fault_in(place + 1, fault));
        }
    }
    Ok(())
}
