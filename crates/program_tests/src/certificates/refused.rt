//! What is checked, by the calls themselves. Where any one growth is refused (see tests/test_refused_calls.py), they report that memory was
//! short, or the same.

use super::{CERTIFICATES, ODD_CYCLE, SHOWN};
use crate::worked::on_program;
use optimality::{check_certificate, check_only, check_optimum};
use program_rows::{CertificateFault, CertificateFaultKind, Point, Program};
use std::alloc::Global;
use std::test::Fail;

/// Whether a certificate is answered so.
fn is_answer(
    answer: Result<(), CertificateFault>,
    reported: Option<(usize, CertificateFaultKind)>,
) -> Result<bool, Fail> {
    match answer {
        Ok(()) => Ok(reported.is_none()),
        Err(fault) if fault.kind == CertificateFaultKind::OutOfMemory => Err(Fail::from(
            "out of memory",
        )),
        Err(fault) => Ok(reported == Some((fault.line, fault.kind))),
    }
}

#[test]
fn a_verdict_or_want_of_memory(rt: HostRuntime) -> Result<(), Fail> {
    for (text, least, reported) in CERTIFICATES {
        let is_reported = on_program(rt.alloc(), ODD_CYCLE, |alloc, program| {
            is_answer(check_certificate(alloc, text, program, least), reported)
        })?;
        assert!(rt; is_reported, "{least}");
    }
    Ok(())
}

/// Whether a point, of the first and the fixed column, is shown to be a best one, and isn't shown to be the only one.
fn is_a_best_one(alloc: Global, program: &Program, point: &Point) -> Result<bool, Fail> {
    if point.values().len() != program.column_count() {
        return Ok(false);
    }
    let text = b"split 0 X1 1\nbound 1 0 2 B 2\nbound 1 0 2 A1 2 A2 2\n";
    let ties = Some((2, CertificateFaultKind::NotShown));
    Ok(
        is_answer(check_optimum(alloc, SHOWN, program, point), None)?
            && is_answer(check_only(alloc, text, program, point, &[]), ties)?,
    )
}

fn has_a_best_point(alloc: Global, program: &Program) -> Result<bool, Fail> {
    let point = Point::new([true, false, false, true].to_vec(alloc)?);
    is_a_best_one(alloc, program, &point)
}

#[test]
fn an_optimum_or_want_of_memory(rt: HostRuntime) -> Result<(), Fail> {
    assert!(rt; on_program(rt.alloc(), ODD_CYCLE, has_a_best_point)?);
    Ok(())
}
