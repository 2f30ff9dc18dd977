// What is read.
ghost use Rattle.rules.specs.Calls.{Short};

// A source that is not too long, or a part of one.
#[derive(Clone, Copy)]
pub struct Source<'a> {
    pub text: &'a [u8],
    ghost short: { Short text.now },
}
