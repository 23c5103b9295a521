// The lines of a text, and the words of a line.
ghost use Rattle.std.specs.Prelude.{◌≡◌, true, ◌++◌, ◌==◌, position};
ghost use Rattle.std.specs.Option.{option_map};
ghost use Rattle.session.specs.Lines.{front, behind, first_word, more_words, first_line, more_lines, tail, lacks, CutsWords};

// Where the first byte `end` stands.
fn first_end(bytes: &[u8], end: u8) -> Option<usize>
    ensures { result ≡ position (λ byte. byte == end) bytes.now }
{
    bytes.iter().position(|byte| *byte == end)
}

// Cuts bytes at the first byte `end`: what stands before it, and what follows it, if there is one.
#[tactic(auto, using(crate::proofs::Lines::cuts))]
fn cut_at(bytes: &[u8], end: u8) -> (&[u8], Option<&[u8]>)
    ensures first { result.0.now ≡ front end bytes.now }
    ensures more { option_map (λ x. x.now) result.1 ≡ behind end bytes.now }
    ensures rejoined { bytes.now ≡ result.0.now ++ tail end (option_map (λ x. x.now) result.1) }
    ensures lacks { lacks end result.0.now ≡ true }
    ensures words { CutsWords }
{
    match first_end(bytes, end) {
        Some(at) => (&bytes[..at], Some(&bytes[at + 1..])),
        None => (bytes, None),
    }
}

// Cuts a line into its first word, and what follows the space behind that, if there is one.
pub fn cut_word(line: &[u8]) -> (&[u8], Option<&[u8]>)
    ensures first { result.0.now ≡ first_word line.now }
    ensures more { option_map (λ x. x.now) result.1 ≡ more_words line.now }
    ensures rejoined { line.now ≡ result.0.now ++ tail 32 (option_map (λ x. x.now) result.1) }
    ensures whole { lacks 32 result.0.now ≡ true }
    ensures words { CutsWords }
{
    cut_at(line, b' ')
}

// Cuts a text into its first line, and what follows the line feed behind that, if there is one.
pub fn cut_line(text: &[u8]) -> (&[u8], Option<&[u8]>)
    ensures first { result.0.now ≡ first_line text.now }
    ensures more { option_map (λ x. x.now) result.1 ≡ more_lines text.now }
    ensures rejoined { text.now ≡ result.0.now ++ tail 10 (option_map (λ x. x.now) result.1) }
    ensures whole { lacks 10 result.0.now ≡ true }
{
    cut_at(text, b'\n')
}
