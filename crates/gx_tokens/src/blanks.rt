// Blanks and comments.
ghost use Rattle.std.specs.Prelude.{◌≡◌, false};
ghost use Rattle.gx_tokens.specs.Lexemes.{is_blank, after_blanks};

fn is_blank(byte: u8) -> bool
    ensures { result ≡ is_blank byte }
{
    matches!(byte, b' ' | b'\t' | b'\r' | b'\n')
}

/// What follows the blanks and comments at the front. A comment runs from `#` to the end of its
/// line, or of the text.
pub fn after_blanks(bytes: &[u8]) -> &[u8]
    ensures { result.now ≡ after_blanks false bytes.now }
{
    let mut in_comment = false;
    let mut rest = bytes;
    while let [first, after @ ..] = rest {
        if in_comment {
            in_comment = *first != b'\n';
        } else if *first == b'#' {
            in_comment = true;
        } else if !is_blank(*first) {
            return rest;
        }
        rest = after;
    }
    rest
}
