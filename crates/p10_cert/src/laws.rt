//! What holds of certificates and their texts: each function does nothing, and its contract is the law.

ghost use Rattle.p10_cert.specs.Laws.{TextTellsClaims, TextTellsStatement, ClaimsAreStatement, TextTellsFunction, ReadsWhatIsWritten, ReadsWhatIsSealed, HasOneWrongLine, HasOneWrongLineOfBoth, VersionsShareWrongLines, CertificateHasNoWrongLine, StatementHasNoWrongLine, OneRecordComesNext};

/// A certificate of version 1 has one text, and a text one certificate: two certificates with one text make the
/// same claims.
pub fn a_text_tells_its_claims()
    ensures { TextTellsClaims }
{}

/// Two certificates with one text, of whichever version, say the same.
pub fn a_text_tells_its_statement()
    ensures { TextTellsStatement }
{}

/// What a certificate of version 1 says is its claims, and nothing else.
pub fn claims_are_a_statement()
    ensures { ClaimsAreStatement }
{}

/// Of two functions with one text the same is said.
pub fn a_text_tells_its_function()
    ensures { TextTellsFunction }
{}

/// What is read of the text that is written of a certificate of version 1 is the certificate.
pub fn what_is_written_is_read()
    ensures { ReadsWhatIsWritten }
{}

/// The same of certificates of version 2.
pub fn what_is_sealed_is_read()
    ensures { ReadsWhatIsSealed }
{}

/// At most one line of a text is the first that no certificate of version 1 has.
pub fn a_text_has_one_wrong_line()
    ensures { HasOneWrongLine }
{}

/// At most one line of a text is the first that no certificate has, of whichever version.
pub fn a_text_has_one_wrong_line_of_both()
    ensures { HasOneWrongLineOfBoth }
{}

/// Each version has the wrong lines that both have together.
pub fn versions_share_wrong_lines()
    ensures { VersionsShareWrongLines }
{}

/// No line of a certificate of version 1 is one that no certificate has.
pub fn a_certificate_has_no_wrong_line()
    ensures { CertificateHasNoWrongLine }
{}

/// No line of a certificate is one that no certificate has, of whichever version.
pub fn a_statement_has_no_wrong_line()
    ensures { StatementHasNoWrongLine }
{}

/// After the functions that were given, one record at most comes next.
pub fn one_record_comes_next()
    ensures { OneRecordComesNext }
{}
