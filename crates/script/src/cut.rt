// Cutting text into lines and words.
ghost use Rattle.std.specs.Prelude.{◌≡◌, ℕ, Bool, [], ◌∷◌, MatchOption};
ghost use Rattle.script.specs.Parts.{Computes, before, content as content_of, from, is_blank as blank, words};

// A space, a tab or a carriage return.
pub(crate) fn is_blank(byte: u8) -> bool
    ensures { result ≡ blank byte }
{
    matches!(byte, b' ' | b'\t' | b'\r')
}

// What stands before the first byte that passes a test, and the rest.
pub(crate) fn cut<F: Fn(u8) -> bool>(bytes: &[u8], stop: F) -> (&[u8], &[u8])
    requires { F.IsAlwaysCallable stop }
    ensures front { (p : ℕ → Bool) → Computes (F.post stop) p → result.0.now ≡ before p bytes.now }
    ensures back { (p : ℕ → Bool) → Computes (F.post stop) p → result.1.now ≡ from p bytes.now }
{
    let end = bytes
        .iter()
        .position(|byte| stop(*byte))
        .unwrap_or(bytes.len());
    bytes.split_at(end)
}

// What counts in a line: all that stands before the mark of a comment.
pub(crate) fn content(line: &[u8]) -> &[u8]
    ensures { result.now ≡ content_of line.now }
{
    let (content, _comment) = cut(line, |byte| byte == b'#');
    content
}

// The first word, and what follows it.
pub(crate) fn split_word(bytes: &[u8]) -> Option<(&[u8], &[u8])>
    ensures { MatchOption result (words bytes.now ≡ [])
        (λ p. words bytes.now ≡ p.0.now ∷ words p.1.now) }
{
    let (_blanks, solid) = cut(bytes, |byte| !is_blank(byte));
    if solid.is_empty() {
        return None;
    }
    Some(cut(solid, is_blank))
}
