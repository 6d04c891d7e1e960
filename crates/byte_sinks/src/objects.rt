//! Objects of JSON, each on a line of its own.

ghost use Rattle.std.specs.Prelude.{◌≡◌, ◌++◌, codes, decimal, flat_map, map};
ghost use Rattle.std.specs.Fmt.{signed_decimal};
ghost use Rattle.byte_sinks.specs.Adds.{Adds};
ghost use Rattle.byte_sinks.specs.Objects as of_objects;
ghost use Rattle.byte_sinks.specs.Objects.{count_seen, count_text, json_value, member_seen, member_text, object_text, parted, quoted, scalar_seen, scalar_text, value_seen};

use crate::json::add_json_text;
use crate::sink::Sink;
use crate::writer::Writer;
use itoa::Buffer;

/// A single value of JSON.
#[derive(Clone, Copy, Default)]
pub enum Scalar<'a> {
    #[default]
    Null,
    Flag(bool),
    Number(u128),
    /// A number that may be negative.
    Signed(i128),
    Text(&'a [u8]),
}

/// A name, and the number that an object has for it.
#[derive(Clone, Copy, Default)]
pub struct Count<'a> {
    pub name: &'a [u8],
    pub number: u128,
}

/// The value of a member.
#[derive(Clone, Copy)]
pub enum Value<'a> {
    One(Scalar<'a>),
    /// A list.
    Many(&'a [Scalar<'a>]),
    /// An object with a number for each of some names.
    Counts(&'a [Count<'a>]),
}

/// A member of an object.
#[derive(Clone, Copy)]
pub struct Member<'a> {
    pub name: &'a [u8],
    pub value: Value<'a>,
}

impl<'a> Member<'a> {
    ghost use Rattle.std.specs.Prelude.{◌≡◌, map, option_map};
    ghost use Rattle.byte_sinks.specs.Objects as of_objects;
    ghost use Rattle.byte_sinks.specs.Objects.{count_seen, member_seen, scalar_seen};

    /// A string.
    pub fn text(name: &'a [u8], text: &'a [u8]) -> Member<'a>
        ensures { member_seen result ≡ of_objects.named_text name.entry.now text.entry.now }
    {
        Member {
            name,
            value: Value::One(Scalar::Text(text)),
        }
    }

    /// A number.
    pub fn number(name: &'a [u8], number: u128) -> Member<'a>
        ensures { member_seen result ≡ of_objects.named_number name.entry.now number }
    {
        Member {
            name,
            value: Value::One(Scalar::Number(number)),
        }
    }

    /// A number that may be negative.
    pub fn signed(name: &'a [u8], number: i128) -> Member<'a>
        ensures { member_seen result ≡ of_objects.named_signed name.entry.now number }
    {
        Member {
            name,
            value: Value::One(Scalar::Signed(number)),
        }
    }

    /// A number, or null where there is none.
    pub fn number_if(name: &'a [u8], number: Option<u128>) -> Member<'a>
        ensures { member_seen result ≡ of_objects.named_number_if name.entry.now number }
    {
        let value = match number {
            Some(number) => Scalar::Number(number),
            None => Scalar::Null,
        };
        Member {
            name,
            value: Value::One(value),
        }
    }

    /// A string, or null where there is none.
    pub fn text_if(name: &'a [u8], text: Option<&'a [u8]>) -> Member<'a>
        ensures { member_seen result
            ≡ of_objects.named_text_if name.entry.now (option_map (λ bytes. bytes.now) text.entry) }
    {
        let value = match text {
            Some(text) => Scalar::Text(text),
            None => Scalar::Null,
        };
        Member {
            name,
            value: Value::One(value),
        }
    }

    /// Whether something is so.
    pub fn flag(name: &'a [u8], flag: bool) -> Member<'a>
        ensures { member_seen result ≡ of_objects.named_flag name.entry.now flag }
    {
        Member {
            name,
            value: Value::One(Scalar::Flag(flag)),
        }
    }

    /// A list of single values.
    pub fn list(name: &'a [u8], list: &'a [Scalar<'a>]) -> Member<'a>
        ensures name { (member_seen result).name ≡ name.entry.now }
        ensures value { (member_seen result).value
            ≡ of_objects.Value.Many (map scalar_seen list.entry.now) }
    {
        Member {
            name,
            value: Value::Many(list),
        }
    }

    /// A number for each of some names.
    pub fn counts(name: &'a [u8], counts: &'a [Count<'a>]) -> Member<'a>
        ensures { member_seen result
            ≡ of_objects.named_counts name.entry.now (map count_seen counts.entry.now) }
    {
        Member {
            name,
            value: Value::Counts(counts),
        }
    }
}

// Adds a string.
fn add_quoted<S: Sink>(writer: &mut Writer<'_, S>, text: &[u8])
    ensures { Adds S.state writer.old writer.new (quoted text.now) }
{
    writer.add(b"\"");
    add_json_text(writer, text);
    writer.add(b"\"");
}

// Adds a number in decimal digits.
fn add_number<S: Sink>(writer: &mut Writer<'_, S>, number: u128)
    ensures { Adds S.state writer.old writer.new (decimal number) }
{
    let mut digits = Buffer::new();
    writer.add(digits.format(number).as_bytes());
}

// Adds a number that may be negative.
fn add_signed<S: Sink>(writer: &mut Writer<'_, S>, number: i128)
    ensures { Adds S.state writer.old writer.new (signed_decimal number) }
{
    let mut digits = Buffer::new();
    writer.add(digits.format(number).as_bytes());
}

// Adds a single value.
fn add_scalar<S: Sink>(writer: &mut Writer<'_, S>, scalar: Scalar<'_>)
    ensures { Adds S.state writer.old writer.new (scalar_text (scalar_seen scalar.entry)) }
{
    match scalar {
        Scalar::Null => writer.add(b"null"),
        Scalar::Flag(true) => writer.add(b"true"),
        Scalar::Flag(false) => writer.add(b"false"),
        Scalar::Number(number) => add_number(writer, number),
        Scalar::Signed(number) => add_signed(writer, number),
        Scalar::Text(text) => add_quoted(writer, text),
    }
}

// Adds the single values of a list, each after a comma.
fn add_more_scalars<S: Sink>(writer: &mut Writer<'_, S>, scalars: &[Scalar<'_>])
    ensures { Adds S.state writer.old writer.new
        (flat_map (λ s. codes ", " ++ scalar_text (scalar_seen s)) scalars.now) }
{
    for scalar in scalars {
        writer.add(b", ");
        add_scalar(writer, *scalar);
    }
}

// Adds the single values of a list.
fn add_scalars<S: Sink>(writer: &mut Writer<'_, S>, scalars: &[Scalar<'_>])
    ensures { Adds S.state writer.old writer.new
        (parted (λ s. scalar_text (scalar_seen s)) scalars.now) }
{
    match scalars.split_first() {
        None => writer.add(b""),
        Some((first, more)) => {
            add_scalar(writer, *first);
            add_more_scalars(writer, more);
        }
    }
}

// Adds a name and its number.
fn add_count<S: Sink>(writer: &mut Writer<'_, S>, count: Count<'_>)
    ensures { Adds S.state writer.old writer.new (count_text (count_seen count.entry)) }
{
    add_quoted(writer, count.name);
    writer.add(b": ");
    add_number(writer, count.number);
}

// Adds names and their numbers, each after a comma.
fn add_more_counts<S: Sink>(writer: &mut Writer<'_, S>, counts: &[Count<'_>])
    ensures { Adds S.state writer.old writer.new
        (flat_map (λ c. codes ", " ++ count_text (count_seen c)) counts.now) }
{
    for count in counts {
        writer.add(b", ");
        add_count(writer, *count);
    }
}

// Adds names and their numbers.
fn add_counts<S: Sink>(writer: &mut Writer<'_, S>, counts: &[Count<'_>])
    ensures { Adds S.state writer.old writer.new
        (parted (λ c. count_text (count_seen c)) counts.now) }
{
    match counts.split_first() {
        None => writer.add(b""),
        Some((first, more)) => {
            add_count(writer, *first);
            add_more_counts(writer, more);
        }
    }
}

// Adds the value of a member.
fn add_value<S: Sink>(writer: &mut Writer<'_, S>, value: Value<'_>)
    ensures { Adds S.state writer.old writer.new (json_value (value_seen value.entry)) }
{
    match value {
        Value::One(scalar) => add_scalar(writer, scalar),
        Value::Many(scalars) => {
            writer.add(b"[");
            add_scalars(writer, scalars);
            writer.add(b"]");
        }
        Value::Counts(counts) => {
            writer.add(b"{");
            add_counts(writer, counts);
            writer.add(b"}");
        }
    }
}

// Adds a member.
fn add_member<S: Sink>(writer: &mut Writer<'_, S>, member: Member<'_>)
    ensures { Adds S.state writer.old writer.new (member_text (member_seen member.entry)) }
{
    add_quoted(writer, member.name);
    writer.add(b": ");
    add_value(writer, member.value);
}

// Adds members, each after a comma.
fn add_more_members<S: Sink>(writer: &mut Writer<'_, S>, members: &[Member<'_>])
    ensures { Adds S.state writer.old writer.new
        (flat_map (λ m. codes ", " ++ member_text (member_seen m)) members.now) }
{
    for member in members {
        writer.add(b", ");
        add_member(writer, *member);
    }
}

// Adds members.
fn add_members<S: Sink>(writer: &mut Writer<'_, S>, members: &[Member<'_>])
    ensures { Adds S.state writer.old writer.new
        (parted (λ m. member_text (member_seen m)) members.now) }
{
    match members.split_first() {
        None => writer.add(b""),
        Some((first, more)) => {
            add_member(writer, *first);
            add_more_members(writer, more);
        }
    }
}

/// Adds an object with these members, in their order, on a line of its own.
pub fn add_object<S: Sink>(writer: &mut Writer<'_, S>, members: &[Member<'_>])
    ensures { Adds S.state writer.old writer.new (object_text (map member_seen members.now)) }
{
    writer.add(b"{");
    add_members(writer, members);
    writer.add(b"}\n");
}
