// Names: registers, segments, size words, directives and operations. Case is ignored.
// A word is looked up by its key: its letters as one number.
#![tactic(auto)]

ghost use Rattle.std.specs.Prelude.{◌≡◌, true, map, ℕ, ◌+◌, ◌*◌, ◌<◌, length, get_or};
ghost use Rattle.lexer.specs.Text as text;
ghost use Rattle.names.specs.Table.{operations};
ghost use Rattle.names.specs.Names.{rows_in, operation_named, found_of, name_of, directive_of};
ghost use Rattle.names.specs.Keys as keys;

// Seven letters, filled up with zeros, and the operation's number; the rows rise. Flat bytes: the table is one literal that reads as a
// table, and the definitions read its bytes (`keys.key_at`).
static ROWS: [u8; 936] = *b"\
    aaa\0\0\0\0\x11\
    aad\0\0\0\0\x1f\
    aam\0\0\0\0\x1c\
    aas\0\0\0\0\x18\
    adc\0\0\0\0\x0f\
    add\0\0\0\0\x0e\
    and\0\0\0\0\x2a\
    call\0\0\0\x3a\
    cbw\0\0\0\0\x20\
    clc\0\0\0\0\x56\
    cld\0\0\0\0\x59\
    cli\0\0\0\0\x5b\
    cmc\0\0\0\0\x57\
    cmp\0\0\0\0\x17\
    cmpsb\0\0\x32\
    cmpsw\0\0\x33\
    cwd\0\0\0\0\x21\
    daa\0\0\0\0\x12\
    das\0\0\0\0\x19\
    dec\0\0\0\0\x15\
    div\0\0\0\0\x1d\
    esc\0\0\0\0\x5f\
    hlt\0\0\0\0\x5d\
    idiv\0\0\0\x1e\
    imul\0\0\0\x1b\
    in\0\0\0\0\0\x04\
    inc\0\0\0\0\x10\
    int\0\0\0\0\x51\
    int1\0\0\0\x52\
    int3\0\0\0\x53\
    into\0\0\0\x54\
    iret\0\0\0\x55\
    ja\0\0\0\0\0\x49\
    jae\0\0\0\0\x48\
    jb\0\0\0\0\0\x40\
    jbe\0\0\0\0\x41\
    jc\0\0\0\0\0\x40\
    jcxz\0\0\0\x50\
    je\0\0\0\0\0\x3d\
    jg\0\0\0\0\0\x47\
    jge\0\0\0\0\x46\
    jl\0\0\0\0\0\x3e\
    jle\0\0\0\0\x3f\
    jmp\0\0\0\0\x3b\
    jna\0\0\0\0\x41\
    jnae\0\0\0\x40\
    jnb\0\0\0\0\x48\
    jnbe\0\0\0\x49\
    jnc\0\0\0\0\x48\
    jne\0\0\0\0\x45\
    jng\0\0\0\0\x3f\
    jnge\0\0\0\x3e\
    jnl\0\0\0\0\x46\
    jnle\0\0\0\x47\
    jno\0\0\0\0\x4b\
    jnp\0\0\0\0\x4a\
    jns\0\0\0\0\x4c\
    jnz\0\0\0\0\x45\
    jo\0\0\0\0\0\x43\
    jp\0\0\0\0\0\x42\
    jpe\0\0\0\0\x42\
    jpo\0\0\0\0\x4a\
    js\0\0\0\0\0\x44\
    jz\0\0\0\0\0\x3d\
    lahf\0\0\0\x0a\
    lds\0\0\0\0\x08\
    lea\0\0\0\0\x07\
    les\0\0\0\0\x09\
    lock\0\0\0\x60\
    lodsb\0\0\x36\
    lodsw\0\0\x37\
    loop\0\0\0\x4d\
    loope\0\0\x4e\
    loopne\0\x4f\
    loopnz\0\x4f\
    loopz\0\0\x4e\
    mov\0\0\0\0\x00\
    movsb\0\0\x30\
    movsw\0\0\x31\
    mul\0\0\0\0\x1a\
    neg\0\0\0\0\x16\
    nop\0\0\0\0\x61\
    not\0\0\0\0\x22\
    or\0\0\0\0\0\x2c\
    out\0\0\0\0\x05\
    pop\0\0\0\0\x02\
    popf\0\0\0\x0d\
    push\0\0\0\x01\
    pushf\0\0\x0c\
    rcl\0\0\0\0\x28\
    rcr\0\0\0\0\x29\
    rep\0\0\0\0\x2e\
    repne\0\0\x2f\
    repnz\0\0\x2f\
    ret\0\0\0\0\x3c\
    rol\0\0\0\0\x26\
    ror\0\0\0\0\x27\
    sahf\0\0\0\x0b\
    salc\0\0\0\x62\
    sar\0\0\0\0\x25\
    sbb\0\0\0\0\x14\
    scasb\0\0\x34\
    scasw\0\0\x35\
    shl\0\0\0\0\x23\
    shr\0\0\0\0\x24\
    ssb\0\0\0\0\x14\
    stc\0\0\0\0\x58\
    std\0\0\0\0\x5a\
    sti\0\0\0\0\x5c\
    stosb\0\0\x38\
    stosw\0\0\x39\
    sub\0\0\0\0\x13\
    test\0\0\0\x2b\
    wait\0\0\0\x5e\
    xchg\0\0\0\x03\
    xlatb\0\0\x06\
    xor\0\0\0\0\x2d";

// A number of a register or a segment is its encoding, a size is 0 (byte) or 1 (word), and one of an operation stands in the table and
// in the listing; nothing tells more than a few of them apart, so they stay numbers.
#[derive(Clone, Copy, PartialEq, Eq)]
pub enum Name {
    Register(u8),
    Segment(u8),
    Size(u8),
}

#[derive(Clone, Copy, PartialEq, Eq)]
pub enum Directive {
    Equ,
    Db,
    Dw,
    Times,
}

// A table of operations: 1 to 128 rows, whose spellings rise and are no directives.
#[derive(Clone, Copy)]
pub struct Table<'a> {
    pub rows: &'a [u8],
    ghost good: { keys.good_table rows.now ≡ true },
}

// The table of the 99 operations.
pub fn operations() -> Table<'static>
    ensures { result.rows.now ≡ operations }
{
    Table { rows: &ROWS }
}

// The letter at a place of a word, in lower case, and 0 past its end: the definition of a key fills a word up so.
fn letter_at(word: &[u8], i: usize) -> u8
    ensures { result ≡ get_or (map text.lower word.now) i 0 }
{
    match word.get(i) {
        Some(letter) => letter.to_ascii_lowercase(),
        None => 0,
    }
}

// The first seven letters of a word as one number.
fn letters(word: &[u8]) -> u64
    ensures { result ≡ keys.seven (map text.lower word.now) }
{
    let mut key = 0;
    for i in 0..7 {
        key = key * 256 + u64::from(letter_at(word, i));
    }
    key
}

// The key of a word, or 0 where the word can be no name: it is empty, has more than seven letters or ends in a zero.
// It stays a u64: 0 is one of the many numbers that are no name's key, and each look-up takes any number and answers None to all of
// them, so that none needs a case for 0.
pub fn word_key(word: &[u8]) -> u64
    ensures { (result ≡ keys.key_of (map text.lower word.now)) × (result < 0x100_0000_0000_0000) }
{
    match word {
        [.., last] if word.len() <= 7 && *last != 0 => letters(word),
        _ => 0,
    }
}

// Bytes are below 256, which is known of a parameter, and not of a field. It does nothing.
fn octets(bytes: &[u8])
    ensures { (i : ℕ) → get_or bytes.now i 0 < 256 }
{}

impl<'a> Table<'a> {
    // The eight bytes of a row as one number: its key, and the operation's number behind it.
    fn row(self, row: usize) -> u64
        requires { row < rows_in self.rows.now }
        ensures { (result ≡ keys.eight self.entry.rows.now (8 * row)) × (get_or self.entry.rows.now (8 * row + 7) 0 < 256) }
    {
        octets(self.rows);
        let (rows, _) = self.rows.as_chunks();
        u64::from_be_bytes(rows[row])
    }

    // The one row that may have the key. A table has at most 128 rows, which seven halvings bring down to one; they take no branch.
    // By `slice::binary_search_by` a look-up took 8 % more instructions.
    fn search(self, key: u64) -> usize
        ensures { (result < rows_in self.entry.rows.now)
            × ((k : ℕ) → k < rows_in self.entry.rows.now → keys.key_at self.entry.rows.now k ≡ key → k ≡ result) }
    {
        octets(self.rows);
        // A key of 2^56 or more, which no row has, loses its first byte.
        let most = key.wrapping_mul(256) + 255;
        let mut row = 0;
        let mut rows = self.rows.len() / 8;
        for _halving in 0..7_u32 {
            let mid = row + rows / 2;
            if self.row(mid) <= most {
                row = mid;
            }
            rows -= rows / 2;
        }
        row
    }

    // The operation of a key.
    pub fn operation_by(self, key: u64) -> Option<u8>
        ensures { result ≡ found_of (keys.operation_by self.entry.rows.now key) }
    {
        // The search finds no row of the key 0 either: this only spares it for a word that can be no name.
        if key == 0 {
            return None;
        }
        let row = self.row(self.search(key));
        if row / 256 == key {
            Some((row % 256) as u8)
        } else {
            None
        }
    }

    // The operation that a word names.
    pub fn operation(self, word: &[u8]) -> Option<u8>
        ensures { result ≡ found_of (operation_named self.entry.rows.now word.now) }
    {
        self.operation_by(word_key(word))
    }
}

// The register, segment or size of a key. The key stands as a number, which a match compares at once, and the word beside it.
#[tactic(auto, unfolding(crate::specs::Keys::open_keys))]
pub fn name_by(key: u64) -> Option<Name>
    ensures { result ≡ keys.name_by key }
{
    match key {
        0x61_6c00_0000_0000 => Some(Name::Register(0)), // al
        0x63_6c00_0000_0000 => Some(Name::Register(1)), // cl
        0x64_6c00_0000_0000 => Some(Name::Register(2)), // dl
        0x62_6c00_0000_0000 => Some(Name::Register(3)), // bl
        0x61_6800_0000_0000 => Some(Name::Register(4)), // ah
        0x63_6800_0000_0000 => Some(Name::Register(5)), // ch
        0x64_6800_0000_0000 => Some(Name::Register(6)), // dh
        0x62_6800_0000_0000 => Some(Name::Register(7)), // bh
        0x61_7800_0000_0000 => Some(Name::Register(8)), // ax
        0x63_7800_0000_0000 => Some(Name::Register(9)), // cx
        0x64_7800_0000_0000 => Some(Name::Register(10)), // dx
        0x62_7800_0000_0000 => Some(Name::Register(11)), // bx
        0x73_7000_0000_0000 => Some(Name::Register(12)), // sp
        0x62_7000_0000_0000 => Some(Name::Register(13)), // bp
        0x73_6900_0000_0000 => Some(Name::Register(14)), // si
        0x64_6900_0000_0000 => Some(Name::Register(15)), // di
        0x65_7300_0000_0000 => Some(Name::Segment(0)), // es
        0x63_7300_0000_0000 => Some(Name::Segment(1)), // cs
        0x73_7300_0000_0000 => Some(Name::Segment(2)), // ss
        0x64_7300_0000_0000 => Some(Name::Segment(3)), // ds
        0x62_7974_6500_0000 => Some(Name::Size(0)), // byte
        0x77_6f72_6400_0000 => Some(Name::Size(1)), // word
        _ => None,
    }
}

// The register, segment or size that a word names.
pub fn name_of(word: &[u8]) -> Option<Name>
    ensures { result ≡ name_of word.now }
{
    name_by(word_key(word))
}

// The directive of a key, which stands as in `name_by`.
#[tactic(auto, unfolding(crate::specs::Keys::open_keys))]
pub fn directive_by(key: u64) -> Option<Directive>
    ensures { result ≡ keys.directive_by key }
{
    match key {
        0x65_7175_0000_0000 => Some(Directive::Equ), // equ
        0x64_6200_0000_0000 => Some(Directive::Db), // db
        0x64_7700_0000_0000 => Some(Directive::Dw), // dw
        0x74_696d_6573_0000 => Some(Directive::Times), // times
        _ => None,
    }
}

// The directive that a word names.
pub fn directive_of(word: &[u8]) -> Option<Directive>
    ensures { result ≡ directive_of word.now }
{
    directive_by(word_key(word))
}
