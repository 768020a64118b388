//! Raw parts of texts, with their places.
ghost use Rattle.std.specs.Prelude.{◌+◌, ◌^◌, ◌<◌, length};

/// A raw part, and the place in the whole text at which it begins.
#[derive(Clone, Copy)]
pub struct Raw<'a> {
    pub at: usize,
    pub text: &'a str,
    ghost within: { at + length text.now < 2 ^ 64 },
}
