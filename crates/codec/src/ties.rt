// The public calls one after the other: the rule on the screen, over the calls themselves.
ghost use Rattle.std.specs.Prelude.{◌≡◌};
ghost use Rattle.rules.specs.Calls.{bank_to_text, text_to_bank};
ghost use Rattle.codec.specs.Answers.{answered};
ghost use Rattle.codec.specs.Ties.{written_again, shown_again};

// What bank to text shows, text to bank turns back with the W shown into the same bank, up to its word W.
pub fn write_again(bank: &[u8], text: &mut [u8], out: &mut [u8]) -> crate::Answer
    ensures again { answered result out.new ≡ written_again bank.now text.old out.old }
    ensures shown { text.new ≡ (bank_to_text bank.now text.old).output }
{
    let shown = crate::bank_to_text(bank, text)?;
    crate::text_to_bank(&text[..shown.length], shown.words, out)
}

// What text to bank writes, bank to text shows as the same text, and the W that was written.
pub fn show_again(text: &[u8], words: usize, bank: &mut [u8], out: &mut [u8]) -> crate::Answer
    ensures again { answered result out.new ≡ shown_again words text.now bank.old out.old }
    ensures written { bank.new ≡ (text_to_bank words text.now bank.old).output }
{
    // a `match`, not `?`: `other_number_after_a_refusal` (must-fail) changes the refusal
    match crate::text_to_bank(text, words, bank) {
        Ok(written) => crate::bank_to_text(&bank[..written.length], out),
        Err(refusal) => Err(refusal),
    }
}
