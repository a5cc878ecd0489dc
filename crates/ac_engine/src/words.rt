//! What the words of a call ask for.

ghost use Rattle.std.specs.Prelude.{◌≡◌, ◌↔◌, IsTrue, MatchOption};
ghost use Rattle.ac_engine.specs.Words.{texts, Asks, HasNoForm};

/// What the words of a call ask for: the names of the program, of the policy file and of the certificate.
#[derive(Clone, Copy)]
pub struct Request<'a> {
    /// The name of the program.
    pub program: &'a str,
    /// The name of the policy file.
    pub policy: &'a str,
    /// The name of the certificate.
    pub certificate: &'a str,
}

/// Reads `certify PROGRAM POLICY CERT`, where CERT is none of the two other names.
pub fn asked(words: &[String]) -> Option<Request<'_>>
    ensures { MatchOption result (HasNoForm (texts words.now)) (λ r. Asks (texts words.now) (record { program = r.program.now; policy = r.policy.now; certificate = r.certificate.now })) }
{
    let [command, program, policy, certificate] = words else {
        return None;
    };
    let program = program.as_str();
    let policy = policy.as_str();
    let certificate = certificate.as_str();
    if !is(command.as_str(), "certify") {
        return None;
    }
    if is(certificate, program) {
        return None;
    }
    if is(certificate, policy) {
        return None;
    }
    Some(Request {
        program,
        policy,
        certificate,
    })
}

/// Whether both texts are the same.
fn is(text: &str, other: &str) -> bool
    ensures { IsTrue result ↔ (text.now ≡ other.now) }
{
    text == other
}
