ghost use Rattle.std.specs.Prelude.{◌≡◌, ◌==◌, ◌<◌, ◌≤◌, ◌∷◌, [], length, position, true, false, IfSome, MatchOption};
ghost use Rattle.std.specs.List.{slice_split, position_or_len, before_first, after_first, list_any};
ghost use Rattle.script_model.specs.Lines.{is_space};
ghost use Rattle.script_model.specs.Words.{is_equals};

// How many bytes are passed over at once where none of them is looked for.
const CHUNK: usize = 16;

/// The index of the first such byte.
pub(crate) fn index_of(bytes: &[u8], byte: u8) -> Option<usize>
    ensures first { result ≡ position (λ b. b == byte) bytes.now }
    ensures within { IfSome result (λ index. index < length bytes.now) }
{
    let passed = passed_over(bytes, byte);
    let (_, rest) = bytes.split_at(passed);
    match index_by_one(rest, byte) {
        Some(more) => Some(passed + more),
        None => None,
    }
}

/// The same, a byte at a time.
fn index_by_one(bytes: &[u8], byte: u8) -> Option<usize>
    ensures first { result ≡ position (λ b. b == byte) bytes.now }
    ensures within { IfSome result (λ index. index < length bytes.now) }
{
    bytes.iter().position(|b| *b == byte)
}

/// How many bytes stand in the first chunks, up to the one that has such a byte.
fn passed_over(bytes: &[u8], byte: u8) -> usize
    ensures within { result ≤ length bytes.now }
    ensures none { result ≤ position_or_len (λ b. b == byte) bytes.now }
{
    let mut passed = 0;
    while let Some((chunk, _)) = bytes[passed..].split_first_chunk::<CHUNK>() {
        if has(chunk, byte) {
            return passed;
        }
        passed += CHUNK;
    }
    passed
}

// It looks at all of them, so that it can become vector code.
fn has(chunk: &[u8; CHUNK], byte: u8) -> bool
    ensures { result ≡ list_any (λ b. b == byte) chunk.now }
{
    let mut found = false;
    for b in chunk {
        found |= *b == byte;
    }
    found
}

/// Cuts the first word off a line, at the first space.
pub(crate) fn cut_word(line: &[u8]) -> Option<(&[u8], &[u8])>
    ensures { MatchOption result (slice_split is_space line.now ≡ line.now ∷ [])
        (λ cut. slice_split is_space line.now ≡ cut.0.now ∷ slice_split is_space cut.1.now) }
{
    match index_of(line, b' ') {
        Some(index) => Some((&line[..index], &line[index + 1..])),
        None => None,
    }
}

/// Cuts a text at its first `=`.
pub(crate) fn cut_pair(text: &[u8]) -> Option<(&[u8], &[u8])>
    ensures { MatchOption result (list_any is_equals text.now ≡ false)
        (λ cut. (list_any is_equals text.now ≡ true) × (cut.0.now ≡ before_first is_equals text.now) × (cut.1.now ≡ after_first is_equals text.now)) }
{
    match index_of(text, b'=') {
        Some(index) => Some((&text[..index], &text[index + 1..])),
        None => None,
    }
}
