// What a line begins with.
ghost use Rattle.std.specs.Prelude.{◌≡◌};
ghost use Rattle.lexer.specs.declared.Kind.TheVariants as Kind;

use state::Parser;

// A state with a name ahead. `line` tests it once, and none of the readers that it calls asks it again.
#[derive(Clone, Copy)]
pub struct Word {
    pub parser: Parser,
    ghost named: { parser.kind ≡ Kind.Identifier },
}
