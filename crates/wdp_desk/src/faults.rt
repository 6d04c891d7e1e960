//! The faults of a form, as `wdp explain --json` prints them.

ghost use Rattle.wdp_desk.specs.inside.Explained.{form_explanation};

use auction_input::{ExplainOptions, Input, Request};
use byte_sinks::{Format, MemorySink};
use desk_book::Judge;
use input_faults::explain;
use std::alloc::{AllocError, Global};

/// What `explain` prints of the rules and the form alone.
#[derive(Clone, Copy, Drop)]
pub struct Explaining;

impl Judge for Explaining {
    ghost faults = { λ _ rules text. form_explanation rules text };

    fn fault_lines(&self, alloc: Global, rules: &[u8], text: &[u8]) -> Result<Vec<u8>, AllocError> {
        let mut bytes = Vec::new(alloc);
        bytes.extend_from_slice(b"%rules\n")?;
        bytes.extend_from_slice(rules)?;
        bytes.extend_from_slice(b"%form\n")?;
        bytes.extend_from_slice(text)?;
        let input = Input::of_text(alloc, bytes)?;
        let request = Request::Explain(ExplainOptions {
            bids: false,
            target: None,
            format: Format::Json,
        });
        let mut lines = MemorySink::new(alloc);
        match explain(alloc, &request, &input, &mut lines) {
            Ok(_) => Ok(lines.into_bytes()),
            Err(_) => Err(AllocError),
        }
    }
}
