// Reading a line of a journal.
ghost use Rattle.std.specs.Prelude.{◌≡◌};
ghost use Rattle.journal.specs.Lines.{said, word_in};

use sheet::edit::Edit;

// The word that exactly eight hexadecimal digits say, the highest digit first.
#[tactic(auto, using(crate::proofs::Words::reading), unfolding(crate::specs::Lines::spelled))]
fn read_word(text: &[u8]) -> Option<u32>
    ensures { result ≡ word_in text.now }
{
    if text.len() != 8 {
        return None;
    }
    // digit by digit: `from_str_radix` takes a sign too, and the bytes of the kit's `hex` would have to be put together again, which is no plainer
    let mut value: u32 = 0;
    for byte in text {
        value = value * 16 + char::from(*byte).to_digit(16)?;
    }
    Some(value)
}

// What a line says, without its line feed: `enter WORD` or `strike WORD`, WORD being exactly eight hexadecimal digits of either case.
#[tactic(auto, using(crate::proofs::Spoken::said_as_tested))]
pub fn read_line(line: &[u8]) -> Option<Edit>
    ensures { result ≡ said line.now }
{
    if let Some(word) = line.strip_prefix(b"enter ") {
        return Some(Edit::Enter(read_word(word)?));
    }
    let word = line.strip_prefix(b"strike ")?;
    Some(Edit::Strike(read_word(word)?))
}
