// The check of a listing (41), in one pass over its bytes: record by record, with what stands of the statement as three counters.
#![tactic(auto)]

ghost use Rattle.std.specs.Prelude.{◌≡◌, [], ◌∷◌, ◌+◌, ◌<◌, drop};
ghost use Rattle.std.proofs.Math.ListN as ListN;
ghost use Rattle.rules.specs.Records.{a_times};
ghost use Rattle.rules.specs.Records as records;
ghost use Rattle.rules.specs.WellFormed as rules;
ghost use Rattle.rules.specs.Decode.{record_of};
ghost use Rattle.checker.specs.Checker.{well_formed_bytes, field_in, whole, passes, next_pass, height_of, stack_of, checked_of, passed_of};

use records::marks::{Mark, field_at};

// What stands of a statement: expressions, operands above them, expressions above those; and whether a line record has closed it.
// That the counters are low is a clause and no ghost field: each record may add one, so the bound is the place in the listing.
#[derive(Clone, Copy)]
struct Stack {
    place: usize,
    floor: usize,
    before: usize,
    operands: usize,
    above: usize,
    closed: bool,
}

impl Stack {
    // place ≤ f ≤ t ≤ the source's length, which is handed along and no field of the stack: it is the walk's, and no record changes it.
    #[tactic(auto, unfolding(rules::specs::WellFormed::spans))]
    #[inline]
    fn spans(self, length: usize, f: u32, t: u32) -> bool
        ensures { result ≡ rules.spans length (stack_of self) f t }
    {
        (self.place <= f as usize) & (f <= t) & (t as usize <= length)
    }

    // The n expressions on top become one.
    #[tactic(auto, unfolding(rules::specs::WellFormed::to_expression, rules::specs::WellFormed::stack, rules::specs::WellFormed::allow))]
    #[inline]
    fn to_expression(self, n: usize) -> Option<Stack>
        requires { height_of self < 0x8000_0000_0000_0000 }
        ensures { checked_of result ≡ rules.to_expression n (stack_of self) }
    {
        if self.operands == 0 {
            if (n <= self.before) & !self.closed {
                return Some(Stack {
                    before: self.before - n + 1,
                    operands: 0,
                    closed: false,
                    ..self
                });
            }
            return None;
        }
        if n <= self.above {
            return Some(Stack {
                above: self.above - n + 1,
                closed: false,
                ..self
            });
        }
        None
    }

    // They become an operand.
    #[tactic(auto, unfolding(rules::specs::WellFormed::to_operand, rules::specs::WellFormed::stack, rules::specs::WellFormed::allow))]
    #[inline]
    fn to_operand(self, n: usize) -> Option<Stack>
        requires { height_of self < 0x8000_0000_0000_0000 }
        ensures { checked_of result ≡ rules.to_operand n (stack_of self) }
    {
        if self.operands == 0 {
            if (n <= self.before) & !self.closed {
                return Some(Stack {
                    before: self.before - n,
                    operands: 1,
                    above: 0,
                    closed: false,
                    ..self
                });
            }
            return None;
        }
        if self.above == n {
            return Some(Stack {
                operands: self.operands + 1,
                above: 0,
                closed: false,
                ..self
            });
        }
        None
    }

    // A line record with n expressions and m operands.
    #[tactic(auto, unfolding(rules::specs::WellFormed::to_line, rules::specs::WellFormed::stack, rules::specs::WellFormed::allow))]
    #[inline]
    fn to_line(self, n: usize, m: usize) -> Option<Stack>
        ensures { checked_of result ≡ rules.to_line n m (stack_of self) }
    {
        if (n <= self.before) & (self.operands == m) & (self.above == 0) & !self.closed {
            return Some(Stack {
                before: self.before - n,
                operands: 0,
                above: 0,
                closed: true,
                ..self
            });
        }
        None
    }

    // `times` behind its content's line record: the expression below is its count.
    #[tactic(auto, unfolding(rules::specs::WellFormed::makes, rules::specs::WellFormed::stack, rules::specs::WellFormed::allow))]
    #[inline]
    fn to_times(self) -> Option<Stack>
        ensures { checked_of result ≡ rules.makes (stack_of self) a_times [] }
    {
        if self.closed & (0 < self.before) {
            return Some(Stack {
                before: self.before - 1,
                operands: 0,
                above: 0,
                closed: true,
                ..self
            });
        }
        None
    }

    // A line record ends each statement, and nothing is left over.
    #[tactic(auto, unfolding(rules::specs::WellFormed::complete))]
    #[inline]
    fn complete(self) -> bool
        ensures { result ≡ rules.complete (stack_of self) }
    {
        self.closed & (self.before == 0)
    }

    // A statement begins: the one before is complete, and places rise.
    #[tactic(auto, unfolding(rules::specs::WellFormed::checked, rules::specs::WellFormed::given, rules::specs::WellFormed::allow, lexer::specs::Text::bytes))]
    #[inline]
    fn to_statement(self, length: usize, p: u32) -> Option<Stack>
        ensures { checked_of result ≡ rules.checked length (stack_of self) (records.ST p) }
    {
        let p = p as usize;
        if self.complete() & (self.floor <= p) & (p <= length) {
            return Some(Stack {
                place: p,
                floor: p + 1,
                before: 0,
                operands: 0,
                above: 0,
                closed: false,
            });
        }
        None
    }

    // One record more, and the number of its bytes: its mark's letters are a and b, and its other bytes are at the head of s. The size of
    // each is a constant beside its tests: with a number that depends on the mark the check took 1.7 times as long.
    #[inline]
    fn check(self, a: u8, b: u8, s: &[u8], length: usize) -> Option<(Stack, usize)>
        requires { height_of self < 0x8000_0000_0000_0000 }
        ensures { passed_of result ≡ passes length (stack_of self) (record_of (a ∷ b ∷ []) s.now) }
    {
        let f = field(s, 0);
        let t = field(s, 1);
        let ok = self.spans(length, f, t);
        let mark = Mark::of(a, b)?;
        match mark {
            Mark::ST => whole(s, 4, true, self.to_statement(length, f)),
            Mark::VC => whole(s, 12, ok, self.to_expression(0)),
            Mark::VL => whole(s, 8, ok, self.to_expression(0)),
            Mark::VI => whole(s, 8, ok, self.to_expression(0)),
            Mark::VS => whole(s, 8, ok, self.to_expression(0)),
            Mark::PF => whole(s, 12, ok & (field(s, 2) < 2), self.to_expression(1)),
            Mark::IN => whole(s, 12, ok & (field(s, 2) < 4), self.to_expression(2)),
            Mark::OR => whole(s, 12, ok & (field(s, 2) < 16), self.to_operand(0)),
            Mark::OS => whole(s, 12, ok & (field(s, 2) < 4), self.to_operand(0)),
            Mark::OI => whole(s, 8, ok, self.to_operand(1)),
            Mark::OF => whole(s, 8, ok, self.to_operand(2)),
            Mark::OD => {
                let good = ok & (field(s, 2) < 3) & (field(s, 3) < 5);
                whole(s, 16, good, self.to_operand(1))
            }
            Mark::OX => {
                let d = field(s, 3) as usize;
                let good = ok & (field(s, 2) < 8) & (d < 2) & (field(s, 4) < 3) & (field(s, 5) < 5);
                whole(s, 24, good, self.to_operand(d))
            }
            Mark::LL => whole(s, 8, ok, self.to_line(0, 0)),
            Mark::LI => {
                let n = field(s, 3) as usize;
                let operands = self.spans(length, field(s, 4), field(s, 5));
                whole(
                    s,
                    24,
                    ok & (field(s, 2) < 99) & (n < 3) & operands,
                    self.to_line(0, n),
                )
            }
            Mark::LD => {
                // the count is bounded by the bytes that are there
                let count = field(s, 2) as usize;
                whole(s, 12 + count, ok & (0 < count), self.to_line(0, 0))
            }
            Mark::LC => whole(s, 8, ok, self.to_line(1, 0)),
            Mark::LT => whole(s, 8, (f < 1) & (t < 1), self.to_times()),
        }
    }

    // The record at a place.
    #[inline]
    fn check_at(self, listing: &[u8], at: usize, length: usize) -> Option<(Stack, usize)>
        requires { (at < ListN.length listing.now) × (height_of self < 0x8000_0000_0000_0000) }
        ensures { passed_of result ≡ next_pass length (stack_of self) (drop at listing.now) }
    {
        let [a, b, rest @ ..] = &listing[at..] else {
            return None;
        };
        self.check(*a, *b, rest, length)
    }
}

// A field, or 0 where the bytes end before it does. No `Option`, which 17 calls would ask: `whole` refuses a record that is too short,
// whatever its fields are taken for.
#[tactic(auto, unfolding(crate::specs::Checker::field_in), using(records::proofs::Fields::field_nth))]
#[inline]
fn field(s: &[u8], i: u8) -> u32
    ensures { result ≡ field_in i s.now }
{
    let at = 4 * (i as usize);
    if s.len() < at + 4 { 0 } else { field_at(s, at) }
}

// A record of n bytes behind its mark, if there are as many, and if its fields are good; `next` is the stack behind it.
#[tactic(auto, unfolding(crate::specs::Checker::whole, rules::specs::WellFormed::given))]
#[inline]
fn whole(s: &[u8], n: usize, good: bool, next: Option<Stack>) -> Option<(Stack, usize)>
    ensures { passed_of result ≡ whole n s.now good (checked_of next) }
{
    if s.len() < n {
        return None;
    }
    if good { Some((next?, n + 2)) } else { None }
}

// Whether a listing is well-formed for a source of that length.
// Not inlined: in one function with the patch and its walks it was slower, a patch by 8 %.
#[inline(never)]
pub fn well_formed(listing: &[u8], length: usize) -> bool
    ensures { result ≡ well_formed_bytes listing.now length }
{
    let mut k = Stack {
        place: 0,
        floor: 0,
        before: 0,
        operands: 0,
        above: 0,
        closed: true,
    };
    // no `for`: a step is a record, whose size is known when it is checked
    let mut at = 0;
    while at < listing.len() {
        let Some((next, size)) = k.check_at(listing, at, length) else {
            return false;
        };
        k = next;
        at += size;
    }
    k.complete()
}
