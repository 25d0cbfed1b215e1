//! What a refused growth leaves.
use super::is_equal_at;
use doc_report::{DocFault, put_report, report_on};
use std::alloc::AllocError;

const DOCUMENT: &[u8] =
    b"{\"keys\":[{\"kty\":\"OKP\"},{\"kty\":\"RSA\",\"use\":\"jwt-svid\",\"kid\":\"k\",\"n\":\"AQ\",\"e\":\"Aw\"}]}";

const LINES: &[u8] =
    b"before a: bundle of 1 authority (0 X.509, 1 JWT), no sequence, no refresh hint\na: keys[0] is ignored: its kty is \"OKP\", not EC or RSA\n";

/// The report is asked for once more if a growth was refused, and the test tells that as an error.
#[test]
fn a_refused_growth_appends_nothing(rt: HostRuntime) -> Result<(), AllocError> {
    let mut was_refused = false;
    let mut report = report_on(rt.alloc(), DOCUMENT);
    if report.as_ref().err() == Some(&DocFault::from(AllocError)) {
        was_refused = true;
        report = report_on(rt.alloc(), DOCUMENT);
    }
    let mut out = Vec::from_slice(rt.alloc(), b"before ")?;
    if put_report("a", &report, &mut out).is_err() {
        was_refused = true;
        is_equal_at(&rt, &out.as_slice(), &b"before ".as_slice(), &"refused");
        put_report("a", &report, &mut out)?;
    }
    is_equal_at(&rt, &out.as_slice(), &LINES, &"put");
    if was_refused {
        return Err(AllocError);
    }
    Ok(())
}

#[test]
fn memory_is_no_verdict(rt: HostRuntime) -> Result<(), AllocError> {
    let mut out = Vec::new(rt.alloc());
    put_report("a", &Err(DocFault::from(AllocError)), &mut out)?;
    let wanted = b"a: not judged: out of memory (22)\n".as_slice();
    is_equal_at(&rt, &out.as_slice(), &wanted, &"memory");
    Ok(())
}
