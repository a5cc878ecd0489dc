//! Calls of `certify` on files in memory.

use ac_engine::{Status, autocert};
use ac_io::{MemFiles, MemSink};
use ac_verdict::certify_bytes;
use std::alloc::{AllocError, Global};
use std::process::Abort;

/// A policy file that selects bounds alone.
pub const POLICY: &str = "version = 1\npolicies = [\"bounds\"]\n";

/// The words of a text, one a blank.
pub fn words(alloc: Global, text: &str) -> Result<Vec<String>, AllocError> {
    let mut words = Vec::new(alloc);
    for word in text.split_whitespace() {
        words.push(String::from_str(alloc, word)?)?;
    }
    Ok(words)
}

/// So many copies of a text between two others.
pub fn copies(
    alloc: Global,
    before: &str,
    text: &str,
    count: usize,
    after: &str,
) -> Result<String, AllocError> {
    let mut copies = String::from_str(alloc, before)?;
    for _ in 0..count {
        copies.push_str(text)?;
    }
    copies.push_str(after)?;
    Ok(copies)
}

/// The files `p`, the program, and `q`, the policy file.
pub fn files(alloc: Global, program: &[u8], policy: &[u8]) -> Result<MemFiles, AllocError> {
    let mut files = MemFiles::new(alloc);
    files.add("p", program)?;
    files.add("q", policy)?;
    Ok(files)
}

/// Calls `certify p q c`.
pub fn certify(
    alloc: Global,
    files: &mut MemFiles,
    out: &mut MemSink,
) -> Result<Status, AllocError> {
    let words = words(alloc, "certify p q c")?;
    Ok(autocert(alloc, words.as_slice(), files, out))
}

/// Asserts that the call on these bytes ends with this code and this report and saves no file, and that the bytes alone
/// have the same report.
pub fn assert_answer<R: Abort>(
    rt: &R,
    alloc: Global,
    program: &[u8],
    policy: &[u8],
    code: u8,
    report: &str,
) -> Result<(), AllocError> {
    let mut files = files(alloc, program, policy)?;
    let mut out = MemSink::new(alloc);
    let status = certify(alloc, &mut files, &mut out)?;
    assert_eq!(rt; status.code(), code, "{report}");
    assert_eq!(rt; out.bytes(), report.as_bytes(), "{report}");
    assert!(rt; files.get("c").is_none(), "{report}");
    let text = certify_bytes(alloc, program, policy).report(alloc)?;
    assert_eq!(rt; text.as_str(), report);
    Ok(())
}
