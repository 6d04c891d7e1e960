//! The text of a group on its way to a sink.

ghost use Rattle.std.specs.Prelude.{◌≡◌, ◌≤◌, ◌++◌, [], Bool, cond, length};
ghost use Rattle.auction_terms.specs.Groups.{has};
ghost use Rattle.auction_terms.specs.declared.limits.TheConstants.{MOST_BIDDERS};
ghost use Rattle.byte_sinks.specs.Adds.{Adds};
ghost use Rattle.group_compiler.specs.declared.section.Section.TheVariants.{Rows, Columns, RightSides, Bounds};
ghost use Rattle.group_compiler.specs.Joining.{section_end, group_text, has_any, joined, opening, pages_for, section_text};
ghost use Rattle.group_compiler.specs.Pages.{section_lines, outside};

use crate::page::Page;
use crate::pages::Pages;
use crate::section::Section;
use auction_terms::Group;
use byte_sinks::{Sink, Writer};

// Whether a page has lines in a section, unless its bidder is left out.
fn page_has_lines(page: &Page, is_out: bool, section: Section) -> bool
    ensures { result ≡ has_any (cond is_out [] (section_lines section page.now)) }
{
    if is_out {
        return false;
    }
    !page.lines(section).is_empty()
}

// Whether a bidder outside the group has lines in a section.
fn has_lines(pages: &[Page], group: &Group, section: Section) -> bool
    requires { length pages.now ≤ MOST_BIDDERS }
    ensures { result ≡ has_any (joined section (outside (has group.now) 1 pages.now)) }
{
    for (place, page) in pages.iter().enumerate() {
        if page_has_lines(page, group.has(place as u16 + 1), section) {
            return true;
        }
    }
    false
}

// Whether the text of a group has lines in a section.
fn text_has_lines(pages: &Pages, group: &Group, section: Section) -> bool
    ensures { result ≡ has_any (joined section (pages_for (has group.now) pages.now)) }
{
    if has_lines(pages.forms(), group, section) {
        return true;
    }
    !pages.lots().lines(section).is_empty()
}

// What comes before the lines of a section, whether it has any or not.
fn opening(section: Section, any: bool) -> &'static [u8]
    ensures { result.now ≡ opening section any }
{
    match section {
        Section::Rows => b"NAME wdp\nROWS\n N OBJ\n",
        Section::Columns if any => b"COLUMNS\n M1 'MARKER' 'INTORG'\n",
        Section::Columns => b"COLUMNS\n",
        Section::RightSides => b"RHS\n",
        Section::Bounds if any => b"BOUNDS\n",
        Section::Bounds => b"",
    }
}

// What follows them.
fn closing(section: Section, any: bool) -> &'static [u8]
    ensures { result.now ≡ section_end section any }
{
    match section {
        Section::Columns if any => b" M2 'MARKER' 'INTEND'\n",
        Section::Bounds => b"ENDATA\n",
        _ => b"",
    }
}

// Adds the lines of a page in a section, unless its bidder is left out.
fn add_page<S: Sink>(writer: &mut Writer<'_, S>, page: &Page, is_out: bool, section: Section)
    ensures { Adds S.state writer.old writer.new
        (cond is_out [] (section_lines section page.now)) }
{
    if is_out {
        return;
    }
    writer.add(page.lines(section));
}

// Adds the lines of bidders outside the group in a section.
fn add_joined<S: Sink>(writer: &mut Writer<'_, S>, pages: &[Page], group: &Group, section: Section)
    requires { length pages.now ≤ MOST_BIDDERS }
    ensures { Adds S.state writer.old writer.new
        (joined section (outside (has group.now) 1 pages.now)) }
{
    for (place, page) in pages.iter().enumerate() {
        let is_out = group.has(place as u16 + 1);
        add_page(writer, page, is_out, section);
    }
}

// Adds the lines of a group's text in a section: those of bidders, then those of lots.
fn add_lines<S: Sink>(writer: &mut Writer<'_, S>, pages: &Pages, group: &Group, section: Section)
    ensures { Adds S.state writer.old writer.new
        (joined section (pages_for (has group.now) pages.now)) }
{
    add_joined(writer, pages.forms(), group, section);
    writer.add(pages.lots().lines(section));
}

// Adds a section of a group's text.
fn add_section<S: Sink>(writer: &mut Writer<'_, S>, pages: &Pages, group: &Group, section: Section)
    ensures { Adds S.state writer.old writer.new
        (section_text section (joined section (pages_for (has group.now) pages.now))) }
{
    let any = text_has_lines(pages, group, section);
    writer.add(opening(section, any));
    add_lines(writer, pages, group, section);
    writer.add(closing(section, any));
}

/// Adds the text of a group: the lines of the pages of bidders outside it, and of that of the lots,
/// section by section. It takes no memory. Lines that a writer has no room for go out from their own place.
pub fn add_group_text<S: Sink>(writer: &mut Writer<'_, S>, pages: &Pages, group: &Group)
    ensures { Adds S.state writer.old writer.new (group_text (has group.now) pages.now) }
{
    add_section(writer, pages, group, Section::Rows);
    add_section(writer, pages, group, Section::Columns);
    add_section(writer, pages, group, Section::RightSides);
    add_section(writer, pages, group, Section::Bounds);
}
