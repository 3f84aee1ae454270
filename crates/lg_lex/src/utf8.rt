ghost use Rattle.std.specs.Prelude.{◌≡◌, ◌↔◌, IsNone, IfSome};
ghost use Rattle.std.specs.Str.{IsUtf8, IsValidUpTo};
ghost use Rattle.std.specs.Str.Lossy.{utf8_valid_len};
ghost use Rattle.lg_lex.specs.Marked.{without_mark};

/// The byte order mark, U+FEFF, in UTF-8.
const BYTE_ORDER_MARK: [u8; 3] = [0xEF, 0xBB, 0xBF];

/// The number, from 0, of the first byte that belongs to no whole valid character, or `None` where the text is UTF-8.
///
/// So the bytes before it are UTF-8, and no longer front of the text is. The time is linear in the text.
pub fn utf8_fault(text: &[u8]) -> Option<u64>
    ensures none { IsNone result ↔ IsUtf8 text.now }
    ensures fault { IfSome result (IsValidUpTo text.now) }
    ensures counted { IfSome result (λ n. n ≡ utf8_valid_len text.now) }
{
    match str::from_utf8(text) {
        Ok(_) => None,
        Err(error) => Some(error.valid_up_to() as u64),
    }
}

/// The text after a byte order mark, where it starts with one, and else the whole text.
pub fn without_mark(text: &[u8]) -> &[u8]
    ensures { result.now ≡ without_mark text.now }
{
    text.strip_prefix(&BYTE_ORDER_MARK).unwrap_or(text)
}
