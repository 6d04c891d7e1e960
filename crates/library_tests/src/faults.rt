//! All faults of an input, as another crate asks for them.

use crate::worked::input_of;
use auction_input::{Input, Refusal, Request};
use byte_sinks::{LimitSink, MemorySink, WriteFault};
use input_faults::{explain, input_faults};
use std::alloc::Global;
use std::test::Fail;

const FAULTY: &[u8] =
    b"%rules\nrules,1,5,,\ncategory,A,2,10,1\ncategory,B,1,5,1\nbidder,Alpha,9,2,\nbidder,Beta,2,1,\n%form\nAlpha,A,B\n31,1,x\n7,0,0\n%form\nBeta,B,A\n30,1,0\n%form\nGamma,A,B\n30,1,10001\n%groups\n-\nBeta+Delta+Beta\n\n";

const LINES: &[u8] =
    b"form 1: 7 AmountStep at record 2, field 1: '31' isn't a multiple of 5\nform 1: 8 QuantityText at record 2, field 3: 'x' isn't 1 to 18 digits\nform 1: 7 AmountStep at record 3, field 1: '7' isn't a multiple of 5\nform 1: 10 EmptyPackage at record 3: each quantity is 0\nform 2: 2 Header at record 1, field 2: 'B' in place of A\nform 3: 3 UnknownBidder at record 1, field 1: 'Gamma' is no bidder's name\nform 3: 9 QuantityRange at record 2, field 3: '10001' isn't between 0 and 10000\ngroups: 3 UnknownBidder at line 2, name 2: 'Delta' is no bidder's name\ngroups: 4 RepeatedBidder at line 2, name 3: 'Beta' is in the line already\ngroups: 2 EmptyLine at line 3\n";

const COMPILE: Request = Request::Compile { workers: 1 };

// The bytes of a head, and so many bids with one fault each.
fn bids(alloc: Global, count: usize) -> Result<Vec<u8>, Fail> {
    let mut text = Vec::from_slice(
        alloc,
        b"%rules\nrules,1,5,,\ncategory,A,2,10,1\nbidder,Alpha,9,2,\n%groups\n-\n%form\nAlpha,A\n",
    )?;
    for _ in 0..count {
        text.extend_from_slice(b"1,1\n")?;
    }
    Ok(text)
}

#[test]
fn lines_end_where_a_put_fails(rt: HostRuntime) -> Result<(), Fail> {
    let mut out = LimitSink::new(rt.alloc(), 50, 7)?;
    let input = input_of(rt.alloc(), FAULTY)?;
    match explain(rt.alloc(), &COMPILE, &input, &mut out) {
        Err(Refusal::Write(WriteFault::Sink { written: 50 })) => {
            assert!(rt; out.bytes().len() == 50 && LINES.starts_with(out.bytes()));
            Ok(())
        }
        _ => Err(Fail::from("another end")),
    }
}

#[test]
fn what_comes_after_ten_thousand_faults_is_counted(rt: HostRuntime) -> Result<(), Fail> {
    let text = bids(rt.alloc(), 10_003)?;
    let input = Input::of_text(rt.alloc(), text)?;
    let faults = input_faults(rt.alloc(), &COMPILE, &input)?;
    assert!(rt; faults.kept.len() == 10_000 && faults.more == 3);
    let mut out = MemorySink::new(rt.alloc());
    let end =
        b"form 1: 7 AmountStep at record 10001, field 1: '1' isn't a multiple of 5\nand 3 more\n";
    match explain(rt.alloc(), &COMPILE, &input, &mut out) {
        Ok(_) => assert!(rt; out.bytes().ends_with(end.as_slice())),
        Err(_) => return Err(Fail::from("out of memory")),
    }
    Ok(())
}
