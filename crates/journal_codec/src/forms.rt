//! The two forms of a body: its count is the number of files, or so much over it where another gate stands behind the
//! body.
ghost use Rattle.std.specs.Prelude.{◌≡◌};
ghost use Rattle.journal_codec.specs.Forms.{followed as is_followed, number_in};

/// So much over the number of files a count is where another gate follows.
pub(crate) const OVER: u8 = 128;

/// Whether another gate stands behind this body, as its count says. False where there is no count.
pub fn followed(body: &[u8]) -> bool
    ensures { result ≡ is_followed body.now }
{
    match body {
        [count, ..] => *count > OVER,
        [] => false,
    }
}

/// The number of files that a count tells.
pub(crate) fn plain_count(count: u8) -> u8
    ensures { result ≡ number_in count }
{
    if count > OVER { count - OVER } else { count }
}
