// Names and keywords.
ghost use Rattle.std.specs.Prelude.{◌≡◌, ◌≤◌, ◌∷◌, [], length, codes};
ghost use Rattle.rpy_words.specs.Names as spec;
ghost use Rattle.rpy_words.specs.Names.{among, is_keyword};

pub fn is_digit(b: u8) -> bool
    ensures { result ≡ spec.is_digit b }
{
    b'0' <= b && b <= b'9'
}

pub fn is_letter(b: u8) -> bool
    ensures { result ≡ spec.is_letter b }
{
    (b'a' <= b && b <= b'z') || (b'A' <= b && b <= b'Z') || b == b'_'
}

fn is_name_byte(b: u8) -> bool
    ensures { result ≡ spec.is_name_byte b }
{
    is_letter(b) || is_digit(b)
}

#[tactic(auto, unfolding(crate::specs::Names::name_len))]
pub fn name_len(bytes: &[u8]) -> usize
    ensures value { result ≡ spec.name_len bytes.now }
    ensures within { result ≤ length bytes.now }
{
    let mut n = 0;
    for b in bytes {
        if !is_name_byte(*b) {
            return n;
        }
        n += 1;
    }
    n
}

fn is_among_and_to_del(name: &[u8]) -> bool
    ensures { result ≡ among (codes "and" ∷ codes "as" ∷ codes "assert" ∷ codes "break" ∷ codes "class" ∷ codes "continue" ∷ codes "def" ∷ codes "del" ∷ []) name.now }
{
    name == b"and".as_slice()
        || name == b"as".as_slice()
        || name == b"assert".as_slice()
        || name == b"break".as_slice()
        || name == b"class".as_slice()
        || name == b"continue".as_slice()
        || name == b"def".as_slice()
        || name == b"del".as_slice()
}

fn is_among_elif_to_global(name: &[u8]) -> bool
    ensures { result ≡ among (codes "elif" ∷ codes "else" ∷ codes "except" ∷ codes "exec" ∷ codes "finally" ∷ codes "for" ∷ codes "from" ∷ codes "global" ∷ []) name.now }
{
    name == b"elif".as_slice()
        || name == b"else".as_slice()
        || name == b"except".as_slice()
        || name == b"exec".as_slice()
        || name == b"finally".as_slice()
        || name == b"for".as_slice()
        || name == b"from".as_slice()
        || name == b"global".as_slice()
}

fn is_among_if_to_pass(name: &[u8]) -> bool
    ensures { result ≡ among (codes "if" ∷ codes "import" ∷ codes "in" ∷ codes "is" ∷ codes "lambda" ∷ codes "not" ∷ codes "or" ∷ codes "pass" ∷ []) name.now }
{
    name == b"if".as_slice()
        || name == b"import".as_slice()
        || name == b"in".as_slice()
        || name == b"is".as_slice()
        || name == b"lambda".as_slice()
        || name == b"not".as_slice()
        || name == b"or".as_slice()
        || name == b"pass".as_slice()
}

fn is_among_print_to_yield(name: &[u8]) -> bool
    ensures { result ≡ among (codes "print" ∷ codes "raise" ∷ codes "return" ∷ codes "try" ∷ codes "while" ∷ codes "with" ∷ codes "yield" ∷ []) name.now }
{
    name == b"print".as_slice()
        || name == b"raise".as_slice()
        || name == b"return".as_slice()
        || name == b"try".as_slice()
        || name == b"while".as_slice()
        || name == b"with".as_slice()
        || name == b"yield".as_slice()
}

pub fn is_keyword(name: &[u8]) -> bool
    ensures { result ≡ is_keyword name.now }
{
    is_among_and_to_del(name)
        || is_among_elif_to_global(name)
        || is_among_if_to_pass(name)
        || is_among_print_to_yield(name)
}
