// What is read whole.
ghost use Rattle.std.specs.Prelude.{◌≡◌, length};
ghost use Rattle.reader.specs.Lent.{foreign_place};

use state::source::Source;

// A source that is one to read: it is not too long, and no byte of it is above 127.
#[derive(Clone, Copy)]
pub struct Ascii<'a> {
    pub source: Source<'a>,
    ghost ascii: { foreign_place source.text.now ≡ length source.text.now },
}
