//! Why there is no audit, in a line and a status.

use answers::print_refusal;
use auction_input::NamedText;
use byte_sinks::{Sink, Writer};
use itoa::Buffer;
use solving::{Unsolved, Wanted};

/// The exit status where a search ends at its limit.
const NOT_PROVED: u8 = 3;

/// The exit status where an input is refused.
const REFUSED: u8 = 1;

/// Tells why there is no audit, and gives the exit status.
pub fn print_unsolved<F: Sink>(
    texts: &[NamedText],
    why: &Unsolved,
    most_steps: u64,
    faults: &mut F,
) -> u8 {
    match why {
        Unsolved::Refused(refusal) => {
            print_refusal(texts, refusal, faults);
            REFUSED
        }
        Unsolved::NotProved(wanted) => {
            print_not_proved(*wanted, most_steps, faults);
            NOT_PROVED
        }
    }
}

fn print_not_proved<F: Sink>(wanted: Wanted, most_steps: u64, faults: &mut F) {
    let mut digits = Buffer::new();
    let mut writer = Writer::new(faults);
    match wanted {
        Wanted::Group(number) => {
            writer.add(b"wdp: group ");
            writer.add(digits.format(number).as_bytes());
        }
        Wanted::Ties => writer.add(b"wdp: the ties of group 1"),
    }
    writer.add(b": not proved after ");
    writer.add(digits.format(most_steps).as_bytes());
    writer.add(b" steps\n");
    let _ = writer.flush();
}
