//! Files by their numbers.

ghost use Rattle.std.specs.Prelude.{◌≡◌};
ghost use Rattle.p10_base.specs.Gathered.{is_built_in, text_of};

use p10_base::Sources;

/// The bytes of a file; none where the number is no file's.
pub(crate) fn text_at(sources: &Sources, file: u32) -> &[u8]
    ensures { result.now ≡ text_of sources.now file }
{
    if file < sources.count() {
        sources.text(file)
    } else {
        &[]
    }
}

/// Whether a file was gathered as a built-in header; a number that is no file's wasn't.
pub(crate) fn is_header(sources: &Sources, file: u32) -> bool
    ensures { result ≡ is_built_in sources.now file }
{
    file < sources.count() && sources.is_built_in(file)
}
