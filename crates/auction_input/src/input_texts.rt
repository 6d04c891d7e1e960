//! What a command reads.

ghost use Rattle.std.specs.Prelude.{◌≡◌, IfOk, false};
ghost use Rattle.auction_input.specs.Input.{text_bytes, input_of};
ghost use Rattle.auction_input.specs.ParsedParts.{only_text};

use std::alloc::{AllocError, Global};
use std::marker::Model;

/// A text that was read, and the name of its file; standard input by itself has none.
#[derive(Drop)]
pub struct NamedText {
    name: Vec<u8>,
    bytes: Vec<u8>,
}

impl Model for NamedText {
    ghost use Rattle.auction_input.specs.Input.{NamedText as Seen};

    ghost Value = { Seen };

    ghost view = { λ given. record { name = given.name.items; bytes = given.bytes.items } };
}

impl NamedText {
    /// A text of the file of that name.
    pub fn new(name: Vec<u8>, bytes: Vec<u8>) -> NamedText
        ensures name { result.name ≡ name.items }
        ensures bytes { result.bytes ≡ bytes.items }
    {
        NamedText { name, bytes }
    }

    /// The name of its file.
    pub fn name(&self) -> &[u8]
        ensures { result.now ≡ self.now.name }
    {
        self.name.as_slice()
    }

    /// The bytes that were read.
    pub fn bytes(&self) -> &[u8]
        ensures { result.now ≡ self.now.bytes }
    {
        self.bytes.as_slice()
    }
}

/// What a command reads: texts in their order, and whether a bidder may have forms in several of them, of which the last
/// one counts.
#[derive(Drop)]
pub struct Input {
    texts: Vec<NamedText>,
    last_wins: bool,
}

impl Model for Input {
    ghost use Rattle.auction_input.specs.Input.{Input as Seen};

    ghost Value = { Seen };

    ghost view = { λ input. record { texts = input.texts.items; last_wins = input.last_wins } };
}

impl Input {
    /// One text by itself.
    pub fn of_text(alloc: Global, bytes: Vec<u8>) -> Result<Input, AllocError>
        ensures { IfOk result (λ input. input ≡ input_of bytes.items) }
    {
        let mut texts = Vec::new(alloc);
        let name = Vec::new(alloc);
        texts.push(NamedText { name, bytes })?;
        Ok(Input {
            texts,
            last_wins: false,
        })
    }

    /// These texts, where a bidder may have forms in one of them alone.
    pub fn new(texts: Vec<NamedText>) -> Input
        ensures { result ≡ record { texts = texts.items; last_wins = false } }
    {
        Input {
            texts,
            last_wins: false,
        }
    }

    /// The same texts, where a bidder may have forms in several of them, or not.
    pub fn with_last_wins(self, last_wins: bool) -> Input
        ensures { result ≡ record { texts = self.texts; last_wins = last_wins } }
    {
        let Input { texts, .. } = self;
        Input { texts, last_wins }
    }

    /// Whether a bidder may have forms in several texts, of which the last one counts.
    pub fn last_wins(&self) -> bool
        ensures { result ≡ self.now.last_wins }
    {
        self.last_wins
    }

    /// The texts.
    pub fn texts(&self) -> &[NamedText]
        ensures { result.now ≡ self.now.texts }
    {
        self.texts.as_slice()
    }

    /// The bytes of the first text; where there is none, no bytes.
    pub fn first_text(&self) -> &[u8]
        ensures { result.now ≡ only_text (text_bytes self.now) }
    {
        match self.texts.first() {
            Some(given) => given.bytes(),
            None => b"".as_slice(),
        }
    }
}
